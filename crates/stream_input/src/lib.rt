//! A job's input, read from a JSON text: one object from the uid of each source to a list of partitions,
//! where a partition is a list of entries and an entry is `{"rows":[[..],..]}` or `{"watermark":n}`.
//! What a text says, and what it must meet, `input_texts` defines.
//!
//! `tokens` reads a text that meets it in one pass, straight into batches. Of any other, `input_texts` finds the
//! fault and keeps nothing; what neither takes goes through a tree of the text and `building`.
#![tactic(auto)]

mod building;
mod cells;
pub mod laws;
mod reading;
mod tokens;

pub use reading::ReadInput;
pub use tokens::sources_in;
