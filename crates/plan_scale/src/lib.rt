//! The scales of a plan: how many subtasks each of its operators has, read from a JSON text by the plan, or without a
//! text.
#![tactic(auto)]

mod building;
mod even;
mod fault;
mod reading;
mod requirements;
mod task_count;
mod text;

pub use even::ScaleOfPlan;
pub use reading::ReadScale;
