//! A leg run in one thread: each time a step is made that there is.
//!
//! `schedule` finds the step that a choice makes; where there is no choice, `hints` tries some and `order` finds one.
//! `running` makes steps until all tasks are done, `leg` makes the tasks and hands out the rows. What these are does
//! not hang on the order: a world's type says that it is the end of a consistent history, and `dataflow_laws::laws`
//! what such a history delivers.
#![tactic(auto)]

mod hints;
pub mod laws;
mod leg;
mod order;
mod running;
mod schedule;

pub use core_steps::Finish;
pub use leg::{run_leg, run_leg_by};
pub use running::follow;
