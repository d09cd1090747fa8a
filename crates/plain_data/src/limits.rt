/// The most columns of a record.
pub const MOST_COLUMNS: u32 = 16;
