//! The command `split`: its words, the files that they name, and the parts that are made of an input.
#![tactic(auto)]

mod parting;
mod splitting;
mod writing;

pub use splitting::{SplitWords, split};
