//! All tasks of a leg and the rings between them in one state, and its steps, in one thread.
//!
//! The type `World` says that the state is the end of a consistent history: moves of the abstract world of
//! `dataflow_laws/specs/World` lead to it from the opening states, in the layout of its own plan, input, start and
//! stop.
#![tactic(auto)]

mod asked;
mod finish;
mod given;
pub mod laws;
mod rings;
mod sealing;
mod world;

pub use asked::tasks_asked;
pub use finish::{Finish, finish_of};
pub use given::{Begun, Given};
pub use sealing::{Sealed, sealed_of};
pub use world::World;
