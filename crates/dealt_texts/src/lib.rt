//! The JSON texts of a partition of each part of an input, as the rows of the whole come: a row goes to the part that
//! owns its key.
#![tactic(auto)]

mod dealing;
mod each;
pub mod laws;
mod part;
mod texts;

pub use dealing::Dealing;
pub use part::PartText;
pub use texts::PartTexts;
