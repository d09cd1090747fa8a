//! Savepoints as values, and as bytes in one spelling.
//!
//! A savepoint names no subtask: it holds how far each partition was read, and what stands in the windows,
//! by key group. So it is good at every parallelism. Its layout is a value of `specs/Layout`, put together
//! field by field. This is the layout without an index, `WSP1`, which is read and no longer written; its fields
//! are those of the layout with an index, which `savepoint_index` has.
#![tactic(auto)]

mod decoding;
mod encoding;
mod entries;
mod fault;
mod fields;
mod groups;
mod numbers;
mod savepoint;

/// Laws of the layout that the contracts cite.
pub mod laws;

pub use decoding::{decode, read_front};
pub use encoding::{encode, put_entry_list, put_front};
pub use entries::{Entries, Entry};
pub use fault::SaveFault;
pub use groups::{entry_size, read_entry_list, read_group_number};
pub use numbers::Numbers;
pub use savepoint::{Contents, Front, SavedGroup, SavedPartition, SavedSource, Savepoint};
