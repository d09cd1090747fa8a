//! What stands in the panes of a window operator, in little memory.
#![tactic(auto)]

mod packed;
mod packing;
mod part;

pub use packed::PackedParts;
pub use packing::Packing;
pub use part::Part;
