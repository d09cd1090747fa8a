//! How a plan is laid out at a scale: its operators are compiled into stages of subtasks.
#![tactic(auto)]

mod compiling;
mod layout;
mod places;
mod stages;
mod tasks;

pub use compiling::compile;
pub use layout::Layout;
pub use layout_rules::{Edge, FilterScale, Operator, Role, Stage, TaskPlace};
