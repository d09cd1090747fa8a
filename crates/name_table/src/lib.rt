//! Names by their numbers.
#![tactic(auto)]

mod table;

pub use table::NameTable;
