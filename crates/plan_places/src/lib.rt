//! The places at which a plan does not meet a requirement, each with a sentence for a person.
//!
//! Which requirement it is says the fault that `logical_plan` gives.
#![tactic(auto)]

mod check;
mod counts;
mod kinds;
mod numbers;
mod shape;
mod uids;
mod window;

pub use check::tell_places;
