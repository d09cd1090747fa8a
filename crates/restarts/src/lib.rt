//! What a job leaves that is stopped at a cut can be gone on from.
#![tactic(auto)]

pub mod laws;
mod starting;

pub use starting::restart;
