//! The tasks of a leg, as they begin.
//!
//! Each is told its setup (`task_setups`) and begins with its part of a start (`redistribute`). `specs/Beginning` says
//! what that comes to, and what is known of the tasks of every leg: they stand for the tasks of the plan's layout, and
//! their states are the opening states of the leg.
#![tactic(auto)]

mod beginning;
pub mod laws;
mod leaving;
mod opening;

pub use beginning::{begin, tasks};
pub use leaving::{parts_left, save, save_parts};
pub use opening::Opening;
