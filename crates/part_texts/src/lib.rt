//! The JSON text of an entry, and the texts of the parts of an input, as they are written.
#![tactic(auto)]

mod entries;
mod part;
mod parts;
mod records;

pub use entries::push_entry;
pub use part::PartText;
pub use parts::write_texts;
