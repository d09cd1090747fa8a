//! The commands of the program: files read whole, what `job` makes of them, and text out.
#![tactic(auto)]

mod actions;
mod check_words;
mod checking;
mod command;
mod fault;
mod importing;
mod installed;
mod performing;
mod run_words;
mod tables;

pub use check_words::CheckWords;
pub use command::Command;
pub use fault::{CommandFault, told};
pub use performing::performed;
pub use run_words::RunWords;
