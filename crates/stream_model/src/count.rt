//! How many records there are.

ghost use Rattle.std.specs.Prelude.{◌≡◌, ◌+◌, ◌-◌, ◌^◌, nat_le, min, length};
ghost use Rattle.plan_model.specs.declared.limits.TheConstants.{MOST_RECORDS};
ghost use Rattle.stream_model.specs.InputData.{records_of_entry, records_in, records_in_source, all_records};

use crate::entry::{Entry, Marked, Partition, Source};
use plan_model::MOST_RECORDS;

/// Whether there are no more records than an input may have.
pub fn is_few(sources: &[Source]) -> bool
    ensures { result ≡ nat_le (length (all_records sources.now)) MOST_RECORDS }
{
    let mut total = 0;
    for source in sources {
        total = with_source(total, source.as_slice());
    }
    total <= MOST_RECORDS
}

fn with_source(count: u64, partitions: &[Partition]) -> u64
    ensures { result ≡ min (count + length (records_in_source partitions.now)) (2 ^ 64 - 1) }
{
    let mut total = count;
    for partition in partitions {
        total = with_partition(total, partition.as_slice());
    }
    total
}

fn with_partition(count: u64, entries: &[Marked]) -> u64
    ensures { result ≡ min (count + length (records_in entries.now)) (2 ^ 64 - 1) }
{
    let mut total = count;
    for entry in entries {
        total = total.saturating_add(records_of(entry));
    }
    total
}

fn records_of(marked: &Marked) -> u64
    ensures { result ≡ length (records_of_entry marked.now) }
{
    match &marked.entry {
        Entry::Rows(batch) => batch.len() as u64,
        Entry::Watermark(_) => 0,
    }
}
