//! Whether a job can go on from a savepoint, with a plan and an input, and the start that its next leg has then.
//!
//! What a savepoint must meet stands in `specs/Requirements`, one word for each requirement and its fault. [`check`]
//! asks them in that order.
#![tactic(auto)]

mod checking;
mod copying;
mod entries;
mod partitions;
mod requirements;
mod saved;

pub use checking::check;
