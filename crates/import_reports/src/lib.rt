//! What is told of an import: of each file how many records went where, and of all of them the new names and the
//! comparisons.
#![tactic(auto)]

mod report;
mod tally;

pub use report::{ComparisonReport, FileReport, ImportReport};
pub use tally::Tally;
