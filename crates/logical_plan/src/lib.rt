//! What a job asks for: sources, filters and one window operator, read from a plan's JSON text.
#![tactic(auto)]

mod building;
mod fault;
pub mod laws;
mod places;
mod reading;
mod requirements;
mod text;

pub use fault::PlanFault;
pub use reading::ReadPlan;
