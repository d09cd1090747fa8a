//! What is saved of partitions, against their entries.

ghost use Rattle.std.specs.Prelude.{◌≡◌, ◌-◌, ◌^◌, min, length};
ghost use Rattle.std.specs.List.{list_all, fold, zip};
ghost use Rattle.stream_model.specs.Watermarks.{partition_watermark, merged_watermark, records_before};
ghost use Rattle.restore.specs.Saved.{cut_of};
ghost use Rattle.restore.specs.Reached as said;
ghost use Rattle.restore.specs.Requirements as required;

use legs::{first_entries, with_records};
use plain_data::Items;
use savepoint_codec::SavedPartition;
use stream_model::{Marked, Partition, Source, greatest_watermark};

/// The watermark of a partition after its first entries.
fn watermark_at(entries: &[Marked], count: u64) -> i64
    ensures { result ≡ partition_watermark entries.now count }
{
    if count == entries.len() as u64 {
        i64::MAX
    } else {
        greatest_watermark(first_entries(entries, count))
    }
}

fn are_within(saved: &[SavedPartition], partitions: &[Partition]) -> bool
    ensures { result ≡ list_all required.is_within (zip saved.now partitions.now) }
{
    saved.iter().zip(partitions).all(|(partition, entries)| partition.offset
        <= entries.len() as u64)
}

/// Whether no more entries of a partition were read than it has.
pub fn have_offsets(saved: &[Items<SavedPartition>], sources: &[Source]) -> bool
    ensures { result ≡ required.every_partition required.is_within saved.now sources.now }
{
    saved.iter().zip(sources).all(|(saved, partitions)| are_within(
        saved.as_slice(),
        partitions.as_slice(),
    ))
}

fn is_watermark(partition: &SavedPartition, entries: &[Marked]) -> bool
    ensures { result ≡ required.is_watermark (partition.now, entries.now) }
{
    partition.watermark == watermark_at(entries, partition.offset)
}

fn are_watermarks(saved: &[SavedPartition], partitions: &[Partition]) -> bool
    ensures { result ≡ list_all required.is_watermark (zip saved.now partitions.now) }
{
    saved.iter().zip(partitions).all(|(partition, entries)| is_watermark(
        partition,
        entries.as_slice(),
    ))
}

/// Whether each watermark is the one that the entries have brought that were read.
pub fn have_watermarks(saved: &[Items<SavedPartition>], sources: &[Source]) -> bool
    ensures { result ≡ required.every_partition required.is_watermark saved.now sources.now }
{
    saved.iter().zip(sources).all(|(saved, partitions)| are_watermarks(
        saved.as_slice(),
        partitions.as_slice(),
    ))
}

/// How far partitions were read: their least watermark, and how many records they have before it, as far as they can be
/// counted.
#[derive(Clone, Copy, Debug)]
pub struct Reached {
    pub watermark: i64,
    pub records: u64,
}

/// How far partitions were read, with one more.
fn with_partition(reached: Reached, saved: &SavedPartition, entries: &[Marked]) -> Reached
    ensures { result ≡ said.with_partition reached (saved.now, entries.now) }
{
    let watermark = watermark_at(entries, saved.offset);
    Reached {
        watermark: reached.watermark.min(watermark),
        records: with_records(reached.records, first_entries(entries, saved.offset)),
    }
}

/// How far partitions were read, with those of one more source.
fn with_source(reached: Reached, saved: &[SavedPartition], partitions: &[Partition]) -> Reached
    ensures { result ≡ fold said.with_partition reached (zip saved.now partitions.now) }
{
    saved
        .iter()
        .zip(partitions)
        .fold(reached, |reached, (partition, entries)| {
            with_partition(reached, partition, entries.as_slice())
        })
}

fn with_sources(reached: Reached, saved: &[Items<SavedPartition>], sources: &[Source]) -> Reached
    ensures { result ≡ fold (λ r x. fold said.with_partition r (zip x.0 x.1)) reached (zip saved.now sources.now) }
{
    saved
        .iter()
        .zip(sources)
        .fold(reached, |reached, (saved, partitions)| {
            with_source(reached, saved.as_slice(), partitions.as_slice())
        })
}

/// How far all partitions were read.
pub fn all_partitions(saved: &[Items<SavedPartition>], sources: &[Source]) -> Reached
    ensures watermark { result.watermark ≡ merged_watermark sources.now (cut_of saved.now) }
    ensures records { result.records ≡ min (length (records_before sources.now (cut_of saved.now))) (2 ^ 64 - 1) }
{
    let none = Reached {
        watermark: i64::MAX,
        records: 0,
    };
    with_sources(none, saved, sources)
}
