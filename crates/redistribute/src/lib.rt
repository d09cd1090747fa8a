//! Where the tasks of a leg begin: a start, and the part of it that each task of a layout has.
//!
//! A start names no task and no scale, so that a leg can go on at another scale than the one before. [`spread`] deals
//! it out to the tasks of a layout: each partition to the task that reads it.
#![tactic(auto)]

pub mod laws;
mod saving;
mod spreading;
mod start;
mod stopping;
mod task_start;

pub use spreading::spread;
pub use start::Start;
pub use task_start::{PartitionStart, TaskStart};
