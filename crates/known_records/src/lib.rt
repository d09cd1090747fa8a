//! The records of an import that were before, by what stands in some of their fields (`import --once`).
#![tactic(auto)]

mod known;

pub use known::{KnownRecords, known_before};
