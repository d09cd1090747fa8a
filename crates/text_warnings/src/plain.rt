//! Texts of inputs that were read, and in which nothing is easily overlooked.

ghost use Rattle.std.specs.Prelude.{◌≡◌, ◌+◌, ◌-◌, ◌*◌, ◌^◌, length, min, IsTrue};
ghost use Rattle.text_warnings.specs.Plain as plain;

use crate::mark::{Mark, Marks};
use stream_model::{Entry, Input, Partition, Source};

/// How many quotation marks a text has.
fn quotes_in(text: &[u8]) -> usize
    ensures { result ≡ plain.quotes_in text.now }
{
    text.iter().filter(|byte| **byte == b'"').count()
}

/// So many and the entries of partitions.
fn with_partitions(count: u64, partitions: &[Partition]) -> u64
    ensures { result ≡ min (count + length (plain.entries_in partitions.now)) (2 ^ 64 - 1) }
{
    let mut total = count;
    for partition in partitions {
        total = total.saturating_add(partition.len() as u64);
    }
    total
}

/// How many names the text of an input has that has no name twice.
fn names_in(sources: &[Source]) -> u64
    ensures { result ≡ min (plain.names_in sources.now) (2 ^ 64 - 1) }
{
    let mut total = sources.len() as u64;
    for source in sources {
        total = with_partitions(total, source.as_slice());
    }
    total
}

/// Whether nothing is told of the watermarks of a partition.
fn is_quiet(partition: &Partition) -> bool {
    let mut marks = Marks::new();
    for entry in partition.as_slice() {
        marks.begin_entry();
        if let Entry::Watermark(time) = &entry.entry {
            marks.see(Mark {
                offset: 0,
                time: *time,
            });
        }
        if marks.end_entry().is_some() {
            return false;
        }
    }
    marks.level().is_none()
}

fn are_quiet(partitions: &[Partition]) -> bool {
    partitions.iter().all(|partition| is_quiet(partition))
}

/// Whether a text, of which the input was read, has no more quotation marks than it needs, so that no name stands in it
/// twice, and nothing is told of the watermarks of a partition. [`warnings_of`](crate::warnings_of) then finds nothing
/// in it, and takes some five times as long to say so.
pub fn is_plain(text: &[u8], input: &Input) -> bool
    ensures { IsTrue result → plain.quotes_in text.now ≡ 2 * plain.names_in input.now.sources }
{
    let quotes = quotes_in(text) as u64;
    let sources = input.sources();
    quotes % 2 == 0
        && quotes / 2 == names_in(sources)
        && sources.iter().all(|source| are_quiet(source.as_slice()))
}
