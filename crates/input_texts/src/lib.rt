//! What the JSON text of an input says, what it must meet, and whether it does.
//!
//! The text is one object from the uid of each source to a list of partitions, where a partition is a list
//! of entries and an entry is `{"rows":[[..],..]}` or `{"watermark":n}`. What it says is defined in
//! `specs/InputText` and `specs/Said`, what it must meet in `specs/Requirements`.
//!
//! [`check_text`] tells the first fault of a text and keeps nothing of it: `noting` goes through its
//! entries, `finding` through its sources. [`text_of_input`] keeps all that it says.
#![tactic(auto)]

mod fault;
mod finding;
mod noting;
mod numbers;
mod seen;
mod slots;
mod text;

pub use fault::InputFault;
pub use finding::check_text;
pub use numbers::{number_at, number_of};
pub use slots::{bound_of, empty_slots, place_of, put};
pub use text::{EntryText, SourceText, partitions_of, text_of_input};
