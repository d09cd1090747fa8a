//! Columns of an import that stand in a file, in place of a word.
#![tactic(auto)]

mod lines;
mod text;

pub use lines::columns_of_lines;
pub use text::{columns_text, names_file};
