//! Files that hold what they held or the whole of what is written.
#![tactic(auto)]

mod file;
mod lock;
mod place;
mod stream;

pub use file::{NewFile, write_whole};
pub use lock::LockFile;
pub use place::is_standard_output;
pub use stream::NewStream;
