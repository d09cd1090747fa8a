//! Why a word is refused.

use field_values::FieldFault;

/// Why a word says no column.
#[derive(Clone, Copy, Debug, PartialEq, Eq)]
pub enum ColumnFault {
    /// What follows the name of the field is nothing that is known.
    Form,
    /// More than 18 decimal places are to be kept.
    Places,
    /// The bound of a comparison is no whole number of 64 bits: of its faults only `MorePlaces` and `TooLarge` are
    /// told.
    Bound(FieldFault),
}
