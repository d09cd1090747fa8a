//! Where a record goes.

/// Where a record of a file goes. Each goes to just one of these places.
#[derive(Clone, Copy, Debug, PartialEq, Eq)]
pub enum Fate {
    /// Into the input, as a row.
    Written,
    /// Among the late ones: its time is not above a watermark before it.
    Late,
    /// Among those that are there twice: one before it is the same in the fields that tell records apart.
    Twice,
    /// Among the bad ones: it gives no row.
    Bad,
}
