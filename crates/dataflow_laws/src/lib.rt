//! What the local steps of a job's tasks come to, whatever the order in which tasks make them.
//!
//! `specs/World` says what moves all tasks and rings of a leg make together, `Step` names the one that is asked for.
//! `laws` say of worlds that each is the end of a consistent history and that all come to an end, and of histories that
//! they deliver just what is due and leave the snapshot of their cut, leg after leg.
#![tactic(auto)]

pub mod laws;
mod step;

pub use step::Step;
