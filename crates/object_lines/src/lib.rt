//! NDJSON: the JSON object of each line of a text, as the record of the texts of its members.
#![tactic(auto)]

mod fault;
mod lines;
mod member;
mod record;
mod room;
mod text;

pub use fault::{LineFault, MemberFault};
pub use lines::ObjectLines;
pub use record::fill_record;
