//! The limits of layouts.

/// The most tasks of a layout, with the sink's one.
pub const MOST_TASKS: u32 = 256;

/// The most messages that a ring may hold.
pub const MOST_CAPACITY: u32 = 1024;
