//! Times without a zone, by the clocks of one.
#![tactic(auto)]

mod civil;
mod clocks;
mod local;
mod unit;

pub use clocks::{Clocks, Fold};
pub use local::time_of;
pub use unit::TimeUnit;
