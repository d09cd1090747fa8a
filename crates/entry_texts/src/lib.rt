//! The JSON text of a partition's entries, row by row.
#![tactic(auto)]

mod partition;
mod writing;

pub use partition::{PartitionText, PutFault};
pub use writing::{end_partition, push_decimal, push_row, push_watermark_label, put_row};
