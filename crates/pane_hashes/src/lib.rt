//! The hash of a pane, by numbers that whoever writes an input does not know.
#![tactic(auto)]

mod hashing;

pub use hashing::{HashKeys, PaneHasher};
