//! The parts that the tasks of a leg leave, put together into a savepoint.
#![tactic(auto)]

mod buckets;
mod gathering;
pub mod laws;
mod sources;

pub use gathering::gather;
