//! How large a plan and its input may be. The most columns are
//! `plain_data::MOST_COLUMNS`, the most key groups `key_groups::MOST_GROUPS`.

/// The most characters of a uid.
pub const LONGEST_UID: usize = 64;

/// The most sources.
pub const MOST_SOURCES: usize = 8;

/// The most partitions of a source.
pub const MOST_PARTITIONS: u32 = 64;

/// The most filters, and the most having conditions.
pub const MOST_CONDITIONS: usize = 32;

/// A time is at least -2^62, and less than 2^62, this limit.
pub const TIME_LIMIT: i64 = 1 << 62;

/// The greatest bound of a source that makes its own watermarks.
pub const GREATEST_BOUND: i64 = 1 << 40;

/// The greatest size of a window, and the greatest slide.
pub const LONGEST_WINDOW: i64 = 1 << 40;

/// The most windows of a time.
pub const MOST_WINDOWS: i64 = 256;

/// The most aggregates.
pub const MOST_AGGREGATES: usize = 8;

/// The most records of an input.
pub const MOST_RECORDS: u64 = 1 << 40;
