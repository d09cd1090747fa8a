//! Where an input can be cut: how far its partitions go, the first cut at which a watermark is reached, and the cut
//! that leaves each partition open.
#![tactic(auto)]

mod extent;
mod finding;
pub mod laws;

pub use extent::{Extent, Times, extents};
pub use finding::{first_cut, open_cut};
