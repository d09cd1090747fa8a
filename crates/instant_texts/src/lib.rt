//! Times that are finer than milliseconds. Nothing is rounded and nothing is allocated.
#![tactic(auto)]

mod fine;
mod parts;
mod seconds;
mod unit;

pub use fine::{held, instant};
pub use unit::FineUnit;
