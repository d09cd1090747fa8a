//! The texts of cuts: the word that spells one, as it is read where a leg is to stop; the time that a word spells; and
//! how far the partitions of an input go.
#![tactic(auto)]

mod extents;
pub mod laws;
mod spelling;
mod times;

pub use extents::text_of_extents;
pub use spelling::{push_separator, text_of_cut};
pub use times::read_time;
