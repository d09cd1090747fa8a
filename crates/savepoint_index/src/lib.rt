//! Savepoints in bytes with an index: the layout that is written, and each layout read.
//!
//! Behind the fields that the layout without an index has too stands an index: each key group's number, how
//! many entries it has, and where the first begins. So the entries of one key group are read without those of
//! the others. The layout is a value of `specs/Layout`, put together of the fields of `savepoint_codec`.
#![tactic(auto)]

mod decoding;
mod encoding;
mod group;
mod head;
mod heads;

/// Laws of the layouts that the contracts cite.
pub mod laws;

pub use decoding::decode;
pub use encoding::encode;
pub use group::decode_group;
