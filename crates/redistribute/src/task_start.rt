//! What a task begins with.

use packed_parts::PackedParts;
use plain_data::Items;

/// A partition of a source, and where a task begins to read it.
#[derive(Clone, Copy, Debug, PartialEq, Eq)]
pub struct PartitionStart {
    /// Its number in its source.
    pub partition: u32,
    /// How many of its entries were read.
    pub offset: u64,
    pub watermark: i64,
}

/// The part of a start that a task begins with.
#[derive(Debug, Drop)]
pub enum TaskStart {
    /// Of a source: the partitions that the task reads, ascending.
    Source(Items<PartitionStart>),
    Chain,
    /// Of the window: what stands in the panes of the task's key groups.
    Window(PackedParts),
    Sink,
}
