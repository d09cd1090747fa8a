//! Records that come too late.

ghost use Rattle.std.specs.Prelude.{◌≡◌, ◌<◌, ◌≤◌, length};
ghost use Rattle.std.specs.List.{All, list_any};
ghost use Rattle.plain_data.specs.Record.{at};
ghost use Rattle.stream_model.specs.InputData.{records_of_entry, IsEntry};
ghost use Rattle.stream_model.specs.Late as lateness;
ghost use Rattle.plan_model.specs.declared.limits.TheConstants.{MOST_SOURCES, MOST_PARTITIONS};

use crate::entry::{Entry, Marked, Partition, Source};

/// The place of the first entry with a record that comes too late: of its source, then of its
/// partition, then its own.
pub fn first_late(columns: usize, time: usize, sources: &[Source]) -> Option<(u32, (u32, u64))>
    requires time_in { time < columns }
    requires sound { All (λ ps. All (λ es. All (IsEntry columns time) es) ps) sources.now }
    requires sources_few { length sources.now ≤ MOST_SOURCES }
    requires partitions_few { All (λ ps. length ps ≤ MOST_PARTITIONS) sources.now }
    ensures { result ≡ lateness.first_late time sources.now }
{
    for (place, source) in sources.iter().enumerate() {
        if let Some(found) = first_in_source(columns, time, source.as_slice()) {
            return Some((place as u32, found));
        }
    }
    None
}

fn first_in_source(columns: usize, time: usize, partitions: &[Partition]) -> Option<(u32, u64)>
    requires time_in { time < columns }
    requires sound { All (λ es. All (IsEntry columns time) es) partitions.now }
    requires few { length partitions.now ≤ MOST_PARTITIONS }
    ensures { result ≡ lateness.first_at (lateness.first_late_entry time) partitions.now }
{
    for (place, partition) in partitions.iter().enumerate() {
        if let Some(entry) = first_in_partition(columns, time, partition.as_slice()) {
            return Some((place as u32, entry));
        }
    }
    None
}

fn first_in_partition(columns: usize, time: usize, entries: &[Marked]) -> Option<u64>
    requires time_in { time < columns }
    requires sound { All (IsEntry columns time) entries.now }
    ensures { result ≡ lateness.first_late_entry time entries.now }
{
    let mut watermark = i64::MIN;
    for (place, marked) in entries.iter().enumerate() {
        if is_late(columns, time, watermark, marked) {
            return Some(place as u64);
        }
        watermark = marked.watermark_after(watermark);
    }
    None
}

/// Whether a record of the entry is late behind the watermark.
fn is_late(columns: usize, time: usize, watermark: i64, marked: &Marked) -> bool
    requires time_in { time < columns }
    requires sound { IsEntry columns time marked.now }
    ensures { result ≡ list_any (λ r. lateness.is_late_time watermark (at time r)) (records_of_entry marked.now) }
{
    match &marked.entry {
        Entry::Rows(batch) => has_late_time(batch.column(time), watermark),
        Entry::Watermark(_) => false,
    }
}

fn has_late_time(times: &[i64], watermark: i64) -> bool
    ensures { result ≡ list_any (lateness.is_late_time watermark) times.now }
{
    times.iter().any(|time| is_late_time(watermark, *time))
}

/// Whether a time is late behind a watermark: it is not above it.
pub fn is_late_time(watermark: i64, time: i64) -> bool
    ensures { result ≡ lateness.is_late_time watermark time }
{
    time <= watermark
}
