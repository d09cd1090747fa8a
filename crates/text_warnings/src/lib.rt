//! What may stand in a text and is easily overlooked: a member that stands twice, of which the last counts, a
//! watermark of an input that is below one before it, and a partition whose watermarks never rise.
//!
//! It serves to warn a person of what a text does not mean. What a text says is decided by `json_parts` and
//! `serde_json`.
#![tactic(auto)]

mod mark;
mod open;
mod plain;
mod walk;
mod warning;

pub use plain::is_plain;
pub use warning::{TextKind, warn, warnings_of};
