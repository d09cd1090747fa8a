//! The legs of a job, one after the other, each from what the one before left.
#![tactic(auto)]

pub mod laws;
mod running;
mod ways;

pub use running::{LegsEnd, run_legs, run_legs_by, saved_bytes};
