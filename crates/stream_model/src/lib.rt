//! `Input`, and what it means: the entries of its partitions, their watermarks, the rows of a plan, and what is due at
//! a cut.
//!
//! An input has for each source its partitions, each a list of entries: rows, or a watermark. A cut has a count of
//! entries for each partition. `specs/Watermarks` says what the watermark is at a cut, `specs/PlanRows` which rows a
//! plan has on an input, which of them are due at a cut and what is left in the windows there, and `laws` how these
//! hang together.
#![tactic(auto)]

mod count;
mod entry;
mod input;
mod late;
pub mod laws;
mod watermark;

pub use count::is_few;
pub use entry::{Entry, Marked, Partition, Source};
pub use input::Input;
pub use late::{first_late, is_late_time};
pub use watermark::greatest_watermark;
