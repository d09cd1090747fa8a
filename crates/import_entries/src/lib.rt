//! How the rows of a partition become entries: where an entry ends, which watermark stands before the next, and which
//! row is late.
#![tactic(auto)]

mod ends;
mod place;
mod progress;
mod rounding;
mod rule;

pub use ends::WindowEnds;
pub use place::{Place, PlaceFault};
pub use progress::Progress;
pub use rounding::rounded;
pub use rule::{Bound, EntryRule};
