//! What the task of a leg is told: its place in the layout, and its part of the leg.
//!
//! `specs/Setups` says it for each task of a layout in the abstract; a law says that a task that was told so stands
//! for the layout's task, so that the contracts of its steps speak of it. `setup_of` makes it.
#![tactic(auto)]

mod filters;
pub mod laws;
mod leg;
mod setups;

pub use leg::Leg;
pub use setups::setup_of;
