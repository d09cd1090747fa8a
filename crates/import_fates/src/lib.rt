//! Where each record of a file goes: into the input, among those set aside as late or as there before, or among the bad
//! ones.
#![tactic(auto)]

mod counts;
mod fate;

pub use counts::FateCounts;
pub use fate::Fate;
