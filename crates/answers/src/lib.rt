//! The words for what a reader or a check answers: the value that was asked for, or the fault of the first requirement
//! that is not met. They are definitions, laws and lemmas alone.
#![tactic(auto)]

pub mod laws;
