//! The records of a batch dealt out by the groups of their keys.
#![tactic(auto)]

mod dealing;

pub use dealing::{pieces_of, places_of};
