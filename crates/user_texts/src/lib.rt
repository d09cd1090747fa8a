//! What the program says of its version, and how a text is written.
#![tactic(auto)]

mod version;
mod writing;

pub use version::{LONGEST_COMMIT, VERSION, write_version};
pub use writing::{TextFault, write_text};
