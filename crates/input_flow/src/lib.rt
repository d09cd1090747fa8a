//! What layouts, legs and their theorems speak of, made of an input as it is read: there is one meaning of a cut.
//!
//! `brought` is the watermark that an entry brings to the source that reads it; `laws` say that records, watermarks,
//! snapshots and due rows at a cut are the input's own.
#![tactic(auto)]

mod entry;
pub mod laws;

pub use entry::brought;
