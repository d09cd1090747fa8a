//! The limits of legs, and of lists of them.

/// How many legs a list has at most.
pub const MOST_LEGS: usize = 1024;

/// How many savepoints a leg takes on its way at most.
pub const MOST_SAVES: usize = 1024;
