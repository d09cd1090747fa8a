//! Texts that were before, each once.
#![tactic(auto)]

mod chains;
mod packed;
mod table;

pub use table::TextTable;
