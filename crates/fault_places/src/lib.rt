//! The places at which a text does not meet a requirement, each with a sentence for a person: of a plan, of a
//! scale and of an input.
//!
//! Which requirement it is says the fault that `logical_plan`, `plan_scale` or `stream_input` gives.
#![tactic(auto)]

mod check;
mod entries;
mod input;
mod scale;
mod writing;

pub use check::{Refused, check_input, check_plan, check_scale, places_of};
