//! The files of commands: read whole, written whole, and what is printed.
#![tactic(auto)]

mod files;
mod printing;
mod saving;

pub use files::{file, optional_file, read_fault};
pub use printing::print;
pub use saving::{check_apart, save, write_fault};
