//! What two inputs have in common before a cut, where a job stops by the one and goes on by the other.
//!
//! What stands behind the cut may be different: entries may have come that were not there yet, and others may have been
//! put right. `specs/Agreement` says what has to be the same, and `laws` what is the same then.
#![tactic(auto)]

pub mod laws;
