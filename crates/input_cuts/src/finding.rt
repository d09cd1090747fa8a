//! Cuts of an input.

ghost use Rattle.std.specs.Prelude.{◌≡◌, map, IfOk};
ghost use Rattle.input_cuts.specs.Cuts as said;

use legs::Cut;
use plain_data::Items;
use std::alloc::{AllocError, Global};
use stream_model::{Input, Marked, Partition, Source};

/// The least count of a partition's entries after which its watermark is at least this one.
fn first_count(watermark: i64, entries: &[Marked]) -> u64
    ensures { result ≡ said.first_count watermark entries.now }
{
    let mut before = i64::MIN;
    for (place, entry) in entries.iter().enumerate() {
        if before >= watermark {
            return place as u64;
        }
        before = entry.watermark_after(before);
    }
    entries.len() as u64
}

fn first_counts(alloc: Global, watermark: i64, source: &Source) -> Result<Vec<u64>, AllocError>
    ensures { IfOk result (λ counts. counts.items ≡ map (said.first_count watermark) source.now) }
{
    let mut counts = Vec::new(alloc);
    for partition in source.as_slice() {
        counts.push(first_count(watermark, partition.as_slice()))?;
    }
    Ok(counts)
}

/// The first cut of an input at which the least watermark of its partitions is at least this one: no cut with such a
/// watermark has a lower count of any partition. A partition's watermark is the greatest i64 at its end, so that there
/// is always one.
///
/// # Errors
///
/// Only where memory runs out.
pub fn first_cut(alloc: Global, input: &Input, watermark: i64) -> Result<Cut, AllocError>
    ensures { IfOk result (λ cut. cut.counts ≡ said.first_cut watermark input.now.sources) }
{
    let mut counts = Vec::new(alloc);
    for source in input.sources() {
        counts.push(Items::from_vec(first_counts(alloc, watermark, source)?))?;
    }
    let counts = Items::from_vec(counts);
    Ok(Cut { counts })
}

fn open_count(partition: &Partition) -> u64
    ensures { result ≡ said.open_count partition.now }
{
    partition.len().saturating_sub(1) as u64
}

fn open_counts(alloc: Global, source: &Source) -> Result<Vec<u64>, AllocError>
    ensures { IfOk result (λ counts. counts.items ≡ map said.open_count source.now) }
{
    let mut counts = Vec::new(alloc);
    for partition in source.as_slice() {
        counts.push(open_count(partition))?;
    }
    Ok(counts)
}

/// The last cut of an input before which every partition has an entry left to read, so that a leg which stops there can
/// go on once there are more entries behind. A partition without entries is at its end at once.
///
/// # Errors
///
/// Only where memory runs out.
pub fn open_cut(alloc: Global, input: &Input) -> Result<Cut, AllocError>
    ensures { IfOk result (λ cut. cut.counts ≡ said.open_cut input.now.sources) }
{
    let mut counts = Vec::new(alloc);
    for source in input.sources() {
        counts.push(Items::from_vec(open_counts(alloc, source)?))?;
    }
    let counts = Items::from_vec(counts);
    Ok(Cut { counts })
}
