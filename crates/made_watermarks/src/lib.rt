//! The watermarks of a source that makes its own, as Flink's bounded out-of-orderness does.
#![tactic(auto)]

pub mod laws;
