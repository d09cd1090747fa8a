//! Lists of legs and of choices, read from JSON texts.
#![tactic(auto)]

mod building;
mod choices;
mod fault;
mod reading;
mod text;

pub use choices::read_choices;
pub use reading::read_legs;
