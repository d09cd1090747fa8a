//! The command `import`: its words, the files that they name, and the input that is made of them.
#![tactic(auto)]

mod apart;
mod importing;
mod input_files;
mod keeping;
mod names;
mod words;
mod zoning;

pub use importing::import;
pub use words::ImportWords;
