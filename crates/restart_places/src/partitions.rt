//! How far a savepoint has read partitions, beside the entries that an input has of them.

ghost use Rattle.std.specs.Prelude.{◌≡◌, take};
ghost use Rattle.stream_model.specs.Watermarks.{partition_watermark};

use crate::saved::saved_under;
use plan_model::{Plan, SourceSpec};
use savepoint_codec::{Contents, SavedPartition};
use std::alloc::{AllocError, Global};
use std::fmt;
use stream_model::{Entry, Input, Marked, Partition, greatest_watermark};
use text_places::Findings;

/// What is asked of a partition.
#[derive(Clone, Copy)]
pub(crate) enum Test {
    /// That it has as many entries as were read.
    Offset,
    /// That it has the same watermark after them.
    Watermark,
}

/// A partition, by its source and its place there.
#[derive(Clone, Copy)]
struct Named<'s> {
    source: &'s SourceSpec,
    place: usize,
}

impl fmt::Display for Named<'_> {
    fn fmt<W: fmt::Write>(&self, f: &mut fmt::Formatter<W>) -> fmt::Result {
        let (uid, place) = (self.source.uid.as_str(), self.place);
        write!(f, "partition {place} of {uid:?}")
    }
}

/// A watermark, as a sentence says it.
#[derive(Clone, Copy)]
struct Mark(i64);

impl fmt::Display for Mark {
    fn fmt<W: fmt::Write>(&self, f: &mut fmt::Formatter<W>) -> fmt::Result {
        match self.0 {
            i64::MIN => f.write_str("no watermark"),
            time => write!(f, "the watermark {time}"),
        }
    }
}

/// The first entries of a partition.
fn first(entries: &[Marked], count: u64) -> &[Marked]
    ensures { result.now ≡ take count entries.now }
{
    &entries[..count.min(entries.len() as u64) as usize]
}

/// The watermark of a partition after its first entries.
fn watermark_at(entries: &[Marked], count: u64) -> i64
    ensures { result ≡ partition_watermark entries.now count }
{
    if count == entries.len() as u64 {
        i64::MAX
    } else {
        greatest_watermark(first(entries, count))
    }
}

/// Tells of a partition of which more entries were read than it has.
fn check_offset(
    alloc: Global,
    found: &mut Findings,
    named: Named<'_>,
    saved: SavedPartition,
    entries: &[Marked],
) -> Result<(), AllocError> {
    let (offset, count) = (saved.offset, entries.len());
    if offset <= count as u64 {
        return Ok(());
    }
    let sentence = format!(in alloc;
        "{offset} entries of {named} were read, and the input has {count}: it lacks what was read before, or was imported with more --rows"
    )?;
    found.tell(0, sentence)
}

/// The options of an import that the watermarks of a source hang on: it has no bound where the plan has one.
fn options_of(source: &SourceSpec) -> &'static str {
    match source.bound {
        Some(_) => "--rows",
        None => "--rows or --bound",
    }
}

/// Why a partition has another watermark than a savepoint says, where it goes on behind the entries that were read, or
/// ends there.
fn watermark_sentence(
    alloc: Global,
    named: Named<'_>,
    saved: SavedPartition,
    entries: &[Marked],
    mark: i64,
) -> Result<String, AllocError> {
    let offset = saved.offset;
    let before = Mark(saved.watermark);
    if saved.watermark == i64::MAX {
        return format!(in alloc;
            "{named} was read to its end after {offset} entries, so that its windows fired, and the input has more of it: a job that is to go on stops an entry before the end"
        );
    }
    if offset == entries.len() as u64 {
        return format!(in alloc;
            "{named} had {before} after {offset} entries, and more behind them, and in this input it ends there: the input was cut short"
        );
    }
    let (after, options) = (Mark(mark), options_of(named.source));
    format!(in alloc;
        "{named} had {before} after {offset} entries, and in this input it has {after}: other data, or imported with another {options}"
    )
}

/// Tells of a partition that has another watermark after the entries that were read.
fn check_watermark(
    alloc: Global,
    found: &mut Findings,
    named: Named<'_>,
    saved: SavedPartition,
    entries: &[Marked],
) -> Result<(), AllocError> {
    let mark = watermark_at(entries, saved.offset);
    if mark == saved.watermark {
        return Ok(());
    }
    let sentence = watermark_sentence(alloc, named, saved, entries, mark)?;
    found.tell(0, sentence)
}

fn check_partition(
    alloc: Global,
    found: &mut Findings,
    named: Named<'_>,
    saved: SavedPartition,
    entries: &[Marked],
    test: Test,
) -> Result<(), AllocError> {
    match test {
        Test::Offset => check_offset(alloc, found, named, saved, entries),
        Test::Watermark => check_watermark(alloc, found, named, saved, entries),
    }
}

fn check_source(
    alloc: Global,
    found: &mut Findings,
    source: &SourceSpec,
    saved: &[SavedPartition],
    partitions: &[Partition],
    test: Test,
) -> Result<(), AllocError> {
    for (place, (saved, entries)) in saved.iter().zip(partitions).enumerate() {
        let named = Named { source, place };
        check_partition(alloc, found, named, *saved, entries.as_slice(), test)?;
    }
    Ok(())
}

/// Tells of the partitions that do not pass a test.
pub(crate) fn check_partitions(
    alloc: Global,
    found: &mut Findings,
    plan: &Plan,
    input: &Input,
    contents: &Contents,
    test: Test,
) -> Result<(), AllocError> {
    for (spec, partitions) in plan.sources().iter().zip(input.sources()) {
        let saved = saved_under(contents.sources.as_slice(), spec.uid.as_str());
        check_source(alloc, found, spec, saved, partitions.as_slice(), test)?;
    }
    Ok(())
}

fn records_of(marked: &Marked) -> u64 {
    match &marked.entry {
        Entry::Rows(batch) => batch.len() as u64,
        Entry::Watermark(_) => 0,
    }
}

/// So many records and those of the entries of a source that were read, as far as they can be counted.
fn with_source(count: u64, saved: &[SavedPartition], partitions: &[Partition]) -> u64 {
    let mut total = count;
    for (saved, entries) in saved.iter().zip(partitions) {
        let read = first(entries.as_slice(), saved.offset).iter();
        total = read.map(records_of).fold(total, u64::saturating_add);
    }
    total
}

/// How many records the input has before a savepoint's cut, as far as they can be counted.
pub(crate) fn records_before(plan: &Plan, input: &Input, contents: &Contents) -> u64 {
    let mut total = 0;
    for (spec, partitions) in plan.sources().iter().zip(input.sources()) {
        let saved = saved_under(contents.sources.as_slice(), spec.uid.as_str());
        total = with_source(total, saved, partitions.as_slice());
    }
    total
}
