//! Slices of time: time is cut where a window of the plan starts and where one ends, so that each window is made of
//! whole slices, however many windows a time lies in.
//!
//! `specs/Slices` says what a slice is, and `laws` that what a window comes to is what its slices come to, merged.
//! `Spans` holds what the records of each key come to in each slice, and `pane_total` what those of a window do.
#![tactic(auto)]

mod key_slices;
pub mod laws;
mod slices;
mod spans;

pub use key_slices::{Slice, Slices, start_above, start_below};
pub use slices::{back_to_start, slice_end, slice_of};
pub use spans::{Spans, add_in_span, add_to_slice, drop_spans, pane_total, slices_in, span_of};
