//! Texts of rows, each in the order of start and key, as one.
#![tactic(auto)]

mod fault;
mod head;
mod merge;

pub use fault::MergeFault;
pub use merge::Merge;
