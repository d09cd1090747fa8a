//! The canonical record of a plan, by which a savepoint knows it again.
#![tactic(auto)]

mod bounds;
pub mod laws;
mod record;

pub use record::Recorded;
