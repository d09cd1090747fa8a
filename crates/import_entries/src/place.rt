//! Where a row goes.

/// Where a row goes.
#[derive(Clone, Copy, Debug, PartialEq, Eq)]
pub enum Place {
    /// Into the entry of the row before it.
    Joins,
    /// It begins an entry, behind a watermark or none.
    Begins(Option<i64>),
}

/// Why a row goes nowhere.
#[derive(Clone, Copy, Debug, PartialEq, Eq)]
pub enum PlaceFault {
    /// Its time is not -2^62 to 2^62 - 1.
    Range,
    /// It is late: its time, and the watermark that it is not above.
    Late(i64, i64),
}
