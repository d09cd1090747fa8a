//! What an import writes beside the input, as CSV: records that are no rows of it, and the table of names.
#![tactic(auto)]

mod aside;
mod bad;
mod names;
mod text;
mod writer;

pub use aside::SetAside;
pub use bad::BadRecords;
pub use names::text_of_names;
