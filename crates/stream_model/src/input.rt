//! A job's bounded input: for each source its partitions, each a list of entries.

ghost use Rattle.std.specs.Prelude.{[], ◌≡◌, ◌<◌, ◌≤◌, length, option_copied, slice_get, slice_index_or};
ghost use Rattle.stream_model.specs.InputData.{IsInput, input_data_of, partition_at};
ghost use Rattle.stream_model.specs.Watermarks.{IsOrderly, partition_watermark};

use crate::entry::{Marked, Source};
use crate::watermark::greatest_watermark;
use plain_data::Items;
use std::marker::Model;

/// An input that meets every requirement of its format: for each source, in the order of its plan, its
/// partitions.
#[derive(Drop)]
pub struct Input {
    columns: u32,
    time: u32,
    sources: Items<Source>,
}

impl Model for Input {
    ghost use Rattle.stream_model.specs.InputData.{InputData, IsInput, input_data_of};
    ghost use Rattle.stream_model.specs.Watermarks.{IsOrderly};

    ghost Value = { InputData };

    ghost view = { λ i. input_data_of i.columns i.time i.sources };

    ghost invariant = { λ i. IsInput (input_data_of i.columns i.time i.sources) × IsOrderly i.time i.sources };
}

impl Input {
    /// An input of such sources, in the order of its plan. Records have so many columns, counted from 0, and their time
    /// stands in one of them. No record is at or below the watermark of its partition before it.
    pub fn new(columns: u32, time: u32, sources: Items<Source>) -> Input
        requires sound { IsInput (input_data_of columns time sources) }
        requires orderly { IsOrderly time sources }
        ensures { result ≡ input_data_of columns time sources }
    {
        Input {
            columns,
            time,
            sources,
        }
    }

    /// The sources, in the order of the plan.
    pub fn sources(&self) -> &[Source]
        ensures says { result.now ≡ self.now.sources }
        ensures sound { IsInput self.now }
        ensures orderly { IsOrderly self.now.time self.now.sources }
    {
        self.sources.as_slice()
    }

    /// How many entries a partition has.
    pub fn entries(&self, source: u32, partition: u32) -> u64
        requires source_in { source < length self.now.sources }
        requires partition_in { partition < length (slice_index_or self.now.sources source []) }
        ensures { result ≡ length (partition_at self.now.sources source partition) }
    {
        self.partition(source, partition).len() as u64
    }

    /// Entry n of a partition, counted from 0.
    pub fn entry(&self, source: u32, partition: u32, n: u64) -> Option<&Marked>
        requires source_in { source < length self.now.sources }
        requires partition_in { partition < length (slice_index_or self.now.sources source []) }
        ensures { option_copied result ≡ slice_get (partition_at self.now.sources source partition) n }
    {
        self.partition(source, partition).get(n as usize)
    }

    /// The watermark of a partition after its first n entries: no row from there on has a time of at
    /// most that. It is the greatest i64 at the end of the partition, and the least where no watermark
    /// came yet.
    pub fn watermark_at(&self, source: u32, partition: u32, n: u64) -> i64
        requires source_in { source < length self.now.sources }
        requires partition_in { partition < length (slice_index_or self.now.sources source []) }
        requires place_in { n ≤ length (partition_at self.now.sources source partition) }
        ensures { result ≡ partition_watermark (partition_at self.now.sources source partition) n }
    {
        let entries = self.partition(source, partition);
        let count = n as usize;
        if count == entries.len() {
            i64::MAX
        } else {
            greatest_watermark(&entries[..count])
        }
    }

    fn partition(&self, source: u32, partition: u32) -> &[Marked]
        requires source_in { source < length self.now.sources }
        requires partition_in { partition < length (slice_index_or self.now.sources source []) }
        ensures { result.now ≡ partition_at self.now.sources source partition }
    {
        let sources = self.sources();
        let partitions = sources[source as usize].as_slice();
        partitions[partition as usize].as_slice()
    }
}
