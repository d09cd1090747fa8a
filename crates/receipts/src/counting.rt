//! How many records stand before a cut, and how many lines a text has.

ghost use Rattle.std.specs.Prelude.{◌≡◌, ◌-◌, ◌^◌, min, length};
ghost use Rattle.std.specs.List.{fold, zip};
ghost use Rattle.stream_model.specs.Watermarks.{records_before};
ghost use Rattle.receipts.specs.Counts as said;

use legs::{first_entries, with_records};
use plain_data::Items;
use stream_model::{Partition, Source};

/// So many records and those before the counts of a source's partitions.
fn with_source(count: u64, partitions: &[Partition], counts: &[u64]) -> u64
    ensures { result ≡ fold said.with_partition count (zip partitions.now counts.now) }
{
    partitions
        .iter()
        .zip(counts)
        .fold(count, |total, (entries, n)| {
            with_records(total, first_entries(entries.as_slice(), *n))
        })
}

fn with_sources(count: u64, sources: &[Source], cut: &[Items<u64>]) -> u64
    ensures { result ≡ fold (λ n x. fold said.with_partition n (zip x.0 x.1)) count (zip sources.now cut.now) }
{
    sources
        .iter()
        .zip(cut)
        .fold(count, |total, (partitions, counts)| {
            with_source(total, partitions.as_slice(), counts.as_slice())
        })
}

/// How many records stand before a cut, as far as they can be counted.
pub(crate) fn count_records(sources: &[Source], cut: &[Items<u64>]) -> u64
    ensures { result ≡ min (length (records_before sources.now cut.now)) (2 ^ 64 - 1) }
{
    with_sources(0, sources, cut)
}

/// How many line feeds bytes have.
pub(crate) fn count_lines(bytes: &[u8]) -> u64
    ensures { result ≡ said.lines_in bytes.now }
{
    bytes.iter().filter(|byte| **byte == b'\n').count() as u64
}
