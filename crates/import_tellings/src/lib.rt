//! What is told of a record that gives no row: the code and the sentence of each refusal, with file, line and field.
#![tactic(auto)]

mod header;
mod telling;

pub use telling::{reason_of, refused_file, refused_names, refused_row};
