//! The headline theorem: what the legs of a job deliver together, whatever their cuts and scales and in whatever order
//! their tasks made their steps.
//!
//! `specs/Lineage` says what legs one after another are, in the words of the public calls: each has ended, as a `World`
//! whose steps it accepted or as tasks on threads, or was given up with what it had sealed, and each but the first
//! starts from bytes that spell the savepoint that the one before left. `specs/Calls` says it of calls of
//! `job::job_leg`, from bytes to bytes. `specs/Changes` says both where the input changes behind the cut between two
//! legs. `specs/Dealing` says that nothing is lost where a start is dealt out to the tasks of a layout and put together
//! again.
#![tactic(auto)]

pub mod laws;
mod premises;

pub use premises::{leg_of, start_from};
