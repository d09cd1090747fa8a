//! A leg of a job on threads: one for each task, joined by a ring for each edge of the layout.
//!
//! `wiring` makes the rings, `work` is what one thread does, `run` starts a thread for each task and waits for all,
//! `edges` settles the rings once both of their ends are back, and `leg` is the whole. Which steps fall together is the
//! system's choice: `specs/Works` says of each worker that it made one list of its task's local steps, and the law
//! `workers_are_at_end` that these lists are together a consistent history that has come to its end.
#![tactic(auto)]

mod edges;
mod ending;
mod ends;
mod gate;
mod jobs;
pub mod laws;
mod leg;
mod rings;
mod run;
mod stop;
mod waiting;
mod wiring;
mod work;

pub use core_steps::Finish;
pub use edges::settle_all;
pub use ending::{has_fault, tasks_of};
pub use gate::{Gate, OpenGate};
pub use jobs::{Done, Job};
pub use leg::{prepared, run_leg, run_leg_from};
pub use rings::{Receiver, Sender, ring, settle};
pub use run::run_all;
pub use stop::Stop;
pub use wiring::{jobs_of, wire};
pub use work::worker;
