//! The dataflow that theorems speak of: messages, tasks, their local steps, and layouts of tasks joined by rings.
//!
//! The only code is what tasks pass on and are told: the message, the role and the ending. A layout in the
//! abstract (`specs/AbstractLayout`) is what the theorems on a job's legs ask for; which layout a plan has is
//! another crate's matter.
#![tactic(auto)]

mod ending;
mod message;
mod role;

pub use ending::Ending;
pub use message::Message;
pub use role::Role;
