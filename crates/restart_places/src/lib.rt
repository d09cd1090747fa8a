//! Why a job cannot go on from a savepoint, or a leg cannot stop at a cut: for each place of the savepoint or of the
//! cut that does not fit the plan and the input a sentence for a person, with what is mostly the cause.
//!
//! Which requirement is not met says the fault that `restore` or `redistribute` gives.
#![tactic(auto)]

mod check;
mod entries;
mod operators;
mod partitions;
mod plan_parts;
mod saved;
mod stop;

pub use check::{Restart, places_of, write_places};
