//! The program's command line: words in, a command done, and the status to end with.
#![tactic(auto)]

mod advice;
mod outcomes;
mod part_words;
mod reading;
mod statuses;
mod table_words;
mod words;

pub use outcomes::{Refusal, outcome};
pub use statuses::status;
