//! How far a partition goes.

ghost use Rattle.std.specs.Prelude.{◌≡◌, ◌<◌, ◌≤◌, length, map, IfOk};
ghost use Rattle.std.specs.List.{All, fold};
ghost use Rattle.plain_data.specs.Record.{column_of};
ghost use Rattle.stream_model.specs.InputData.{BelongsTo, IsEntry, records_in, records_of_entry};
ghost use Rattle.plan_model.specs.declared.limits.TheConstants.{MOST_RECORDS};
ghost use Rattle.input_cuts.specs.Extents as said;

use plain_data::Items;
use plan_model::Plan;
use std::alloc::{AllocError, Global};
use stream_model::{Entry, Input, Marked, Partition, Source, greatest_watermark};

/// The least and the greatest time of records.
#[derive(Clone, Copy, Debug, PartialEq, Eq)]
pub struct Times {
    pub least: i64,
    pub greatest: i64,
}

/// How many entries and records a partition has, the times of its records, and the greatest watermark that it brings:
/// the least i64 where it brings none.
#[derive(Clone, Copy, Debug, PartialEq, Eq)]
pub struct Extent {
    pub entries: u64,
    pub records: u64,
    pub times: Option<Times>,
    pub watermark: i64,
}

/// The times with one more.
fn with_time(times: Option<Times>, time: i64) -> Option<Times>
    ensures { result ≡ said.with_time times time }
{
    match times {
        None => Some(Times {
            least: time,
            greatest: time,
        }),
        Some(Times { least, greatest }) => Some(Times {
            least: least.min(time),
            greatest: greatest.max(time),
        }),
    }
}

fn with_times(times: Option<Times>, more: &[i64]) -> Option<Times>
    ensures { result ≡ fold said.with_time times more.now }
{
    let mut found = times;
    for time in more {
        found = with_time(found, *time);
    }
    found
}

/// The times with those of an entry's records.
fn with_entry(times: Option<Times>, columns: usize, time: usize, marked: &Marked) -> Option<Times>
    requires time_in { time < columns }
    requires sound { IsEntry columns time marked.now }
    ensures { result ≡ fold said.with_time times (column_of time (records_of_entry marked.now)) }
{
    match &marked.entry {
        Entry::Rows(batch) => with_times(times, batch.column(time)),
        Entry::Watermark(_) => times,
    }
}

fn times_of(columns: usize, time: usize, entries: &[Marked]) -> Option<Times>
    requires time_in { time < columns }
    requires sound { All (IsEntry columns time) entries.now }
    ensures { result ≡ said.times_of (column_of time (records_in entries.now)) }
{
    let mut times = None;
    for entry in entries {
        times = with_entry(times, columns, time, entry);
    }
    times
}

fn records_of(marked: &Marked) -> u64
    ensures { result ≡ length (records_of_entry marked.now) }
{
    match &marked.entry {
        Entry::Rows(batch) => batch.len() as u64,
        Entry::Watermark(_) => 0,
    }
}

fn count_of(entries: &[Marked]) -> u64
    requires { length (records_in entries.now) ≤ MOST_RECORDS }
    ensures { result ≡ length (records_in entries.now) }
{
    let mut count = 0;
    for entry in entries {
        count += records_of(entry);
    }
    count
}

fn extent_of(columns: usize, time: usize, entries: &[Marked]) -> Extent
    requires time_in { time < columns }
    requires sound { All (IsEntry columns time) entries.now }
    requires few { length (records_in entries.now) ≤ MOST_RECORDS }
    ensures { result ≡ said.extent_of time entries.now }
{
    Extent {
        entries: entries.len() as u64,
        records: count_of(entries),
        times: times_of(columns, time, entries),
        watermark: greatest_watermark(entries),
    }
}

fn extents_in(
    alloc: Global,
    columns: usize,
    time: usize,
    partitions: &[Partition],
) -> Result<Vec<Extent>, AllocError>
    requires time_in { time < columns }
    requires sound { All (λ es. All (IsEntry columns time) es) partitions.now }
    requires few { All (λ es. length (records_in es) ≤ MOST_RECORDS) partitions.now }
    ensures { IfOk result (λ extents. extents.items ≡ map (said.extent_of time) partitions.now) }
{
    let mut extents = Vec::new(alloc);
    for entries in partitions {
        extents.push(extent_of(columns, time, entries.as_slice()))?;
    }
    Ok(extents)
}

fn extents_of(
    alloc: Global,
    columns: usize,
    time: usize,
    sources: &[Source],
) -> Result<Items<Items<Extent>>, AllocError>
    requires time_in { time < columns }
    requires sound { All (λ ps. All (λ es. All (IsEntry columns time) es) ps) sources.now }
    requires few { All (λ ps. All (λ es. length (records_in es) ≤ MOST_RECORDS) ps) sources.now }
    ensures { IfOk result (λ extents. extents ≡ map (map (said.extent_of time)) sources.now) }
{
    let mut extents = Vec::new(alloc);
    for source in sources {
        let partitions = extents_in(alloc, columns, time, source.as_slice())?;
        extents.push(Items::from_vec(partitions))?;
    }
    Ok(Items::from_vec(extents))
}

/// How far each partition of each source goes, in the order of the plan by which the input was read.
///
/// # Errors
///
/// Only where memory runs out.
pub fn extents(
    alloc: Global,
    plan: &Plan,
    input: &Input,
) -> Result<Items<Items<Extent>>, AllocError>
    requires { BelongsTo plan.now input.now }
    ensures { IfOk result (λ extents. extents ≡ map (map (said.extent_of input.now.time)) input.now.sources) }
{
    let time = plan.window().time as usize;
    extents_of(alloc, plan.columns() as usize, time, input.sources())
}
