//! What changed between two texts of rows: rows that are gone, new ones, and those with other numbers.
#![tactic(auto)]

mod change;
mod fault;
mod numbers;
mod order;
mod writing;

pub use fault::ChangesFault;
pub use writing::write_changes;
