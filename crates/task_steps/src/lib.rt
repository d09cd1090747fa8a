//! One task of a leg, and its local steps.
#![tactic(auto)]

mod admitting;
mod collecting;
mod fault;
mod firing;
mod kept;
mod pending;
mod reading;
mod seen;
mod sending;
mod setup;
mod task;

pub use fault::StepFault;
pub use seen::Moment;
pub use setup::{Setup, Split};
pub use task::Task;
