//! Why a text is refused.

/// Why the text of a field is not taken. Of what fails, the first of this list is told.
#[derive(Clone, Copy, Debug, PartialEq, Eq)]
pub enum FieldFault {
    /// The text is no decimal number: a hyphen or none, digits, and then nothing or a point and digits.
    NoNumber,
    /// The decimal has more decimal places than are kept, be they zeros.
    MorePlaces,
    /// The scaled number does not fit 64 bits.
    TooLarge,
    /// The text is no time with a zone, as `2026-03-01T12:00:00.5Z`.
    NoTime,
    /// The time is finer than milliseconds: a digit behind the third of its fraction is not 0.
    TooFine,
    /// The calendar has no such day, or a clock shows no such time. So it is with a leap second.
    NoSuchTime,
    /// The text is empty, where a name is wanted.
    EmptyName,
}
