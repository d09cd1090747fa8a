//! The inputs of a task: the least of their watermarks, and which are held by a barrier or have ended.
#![tactic(auto)]

mod inputs;
mod walks;

pub use inputs::{Aligned, Inputs, Shut};
