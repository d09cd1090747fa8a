//! An input read token by token, straight into batches. What is not read so is a [`Miss`]: a text with a
//! fault, above all.

ghost use Rattle.std.specs.Prelude.{◌≡◌, ◌<◌, ◌==◌, Some, None, length, map, position, bytes_eq, slice_set, option_and_then, IfOk, IfErr, OnOk};
ghost use Rattle.std.specs.List.{list_all, zip};
ghost use Rattle.serde_json.specs.Data.{Members, object};
ghost use Rattle.serde_json.specs.Read.{of_json, converted, read};
ghost use Rattle.json.specs.Json.{value};
ghost use Rattle.json_parts.specs.Parts.{list_text};
ghost use Rattle.json_tokens.specs.Ahead.{part};
ghost use Rattle.plan_model.specs.PlanData.{IsBound};
ghost use Rattle.input_texts.specs.InputText.{input_text};
ghost use Rattle.stream_input.specs.Fit.{fit_entry, is_mark, own_entry, IsSlots, IsRead};

use crate::cells::batch_at;
use columns::MOST_ROWS;
use input_texts::{bound_of, empty_slots, place_of, put};
use json_tokens::{MOST_DEPTH, Miss, Scanner, scan_rows};
use plain_data::Items;
use plan_model::{MOST_PARTITIONS, Plan, SourceSpec, is_time};
use std::alloc::Global;
use stream_model::{Entry, Marked, Partition, Source};

fn is_watermark(entry: &Entry) -> bool
    ensures { result ≡ is_mark entry.now }
{
    matches!(entry, Entry::Watermark(_))
}

/// The next value as an entry.
fn next_plain(
    alloc: Global,
    plan: &Plan,
    reader: &mut Scanner<'_>,
    cells: &mut Vec<i64>,
    depth: usize,
) -> Result<Entry, Miss>
    ensures said { IfOk result (λ e. part (fit_entry plan.now.columns plan.now.window.time) depth reader.old ≡ Some (e, reader.new)) }
    ensures shorter { OnOk result (length reader.new < length reader.old) }
{
    if depth == 0 {
        return Err(Miss::Other);
    }
    reader.open_object()?;
    let name = reader.next_name()?;
    if name == "rows".as_bytes() {
        let width = plan.columns() as usize;
        cells.clear();
        scan_rows(reader, cells, width, width * MOST_ROWS, depth - 1)?;
        reader.close_object()?;
        let batch = batch_at(alloc, cells, width, plan.window().time as usize)?;
        return Ok(Entry::Rows(batch));
    }
    if name == "watermark".as_bytes() {
        let time = reader.next_whole()?;
        reader.close_object()?;
        if !is_time(time) {
            return Err(Miss::Other);
        }
        return Ok(Entry::Watermark(time));
    }
    Err(Miss::Other)
}

/// The same with the watermark that it brings in a source with this bound. A source that makes its own has no other.
fn next_entry(
    alloc: Global,
    plan: &Plan,
    bound: Option<i64>,
    reader: &mut Scanner<'_>,
    cells: &mut Vec<i64>,
    depth: usize,
) -> Result<Marked, Miss>
    requires bounded { IsBound bound }
    ensures said { IfOk result (λ e. part (own_entry bound plan.now.columns plan.now.window.time) depth reader.old ≡ Some (e, reader.new)) }
    ensures shorter { OnOk result (length reader.new < length reader.old) }
{
    let entry = next_plain(alloc, plan, reader, cells, depth)?;
    let is_other = bound.is_some() & is_watermark(&entry);
    if is_other {
        return Err(Miss::Other);
    }
    let columns = plan.columns() as usize;
    let time = plan.window().time as usize;
    Ok(Marked::new(entry, bound, columns, time))
}

fn next_partition(
    alloc: Global,
    plan: &Plan,
    bound: Option<i64>,
    reader: &mut Scanner<'_>,
    cells: &mut Vec<i64>,
    depth: usize,
) -> Result<Partition, Miss>
    requires bounded { IsBound bound }
    ensures said { IfOk result (λ es. part (list_text (own_entry bound plan.now.columns plan.now.window.time)) depth reader.old ≡ Some (es, reader.new)) }
    ensures shorter { OnOk result (length reader.new < length reader.old) }
{
    if depth == 0 {
        return Err(Miss::Other);
    }
    reader.open_list()?;
    let mut entries = Vec::new(alloc);
    'entries: while !reader.take_end_array() {
        let entry = next_entry(alloc, plan, bound, reader, cells, depth - 1)?;
        entries.push(entry)?;
    }
    Ok(Items::from_vec(entries))
}

fn next_source(
    alloc: Global,
    plan: &Plan,
    bound: Option<i64>,
    reader: &mut Scanner<'_>,
    cells: &mut Vec<i64>,
    depth: usize,
) -> Result<Source, Miss>
    requires bounded { IsBound bound }
    ensures said { IfOk result (λ ps. part (list_text (list_text (own_entry bound plan.now.columns plan.now.window.time))) depth reader.old ≡ Some (ps, reader.new)) }
    ensures shorter { OnOk result (length reader.new < length reader.old) }
{
    if depth == 0 {
        return Err(Miss::Other);
    }
    reader.open_list()?;
    let mut partitions = Vec::new(alloc);
    'partitions: while !reader.take_end_array() {
        if MOST_PARTITIONS as usize <= partitions.len() {
            return Err(Miss::Other);
        }
        let partition = next_partition(alloc, plan, bound, reader, cells, depth - 1)?;
        partitions.push(partition)?;
    }
    Ok(Items::from_vec(partitions))
}

/// For each source of the plan its partitions, where the object has its uid, and no other name.
fn next_slots(
    alloc: Global,
    plan: &Plan,
    reader: &mut Scanner<'_>,
    cells: &mut Vec<i64>,
    depth: usize,
) -> Result<Vec<Option<Source>>, Miss>
    ensures { IfOk result (λ slots. (ms : Members) × (converted of_json (value depth reader.old) ≡ Some (object ms, reader.new)) × IsSlots plan.now ms slots.items) }
{
    if depth == 0 {
        return Err(Miss::Other);
    }
    let specs = plan.sources();
    let mut slots = empty_slots(alloc, specs)?;
    reader.open_object()?;
    'members: while let Some(name) = reader.next_key()? {
        let Some(place) = place_of(specs, name) else {
            return Err(Miss::Other);
        };
        let bound = bound_of(plan, name);
        let source = next_source(alloc, plan, bound, reader, cells, depth - 1)?;
        put(&mut slots, place, source);
    }
    Ok(slots)
}

fn filled(alloc: Global, slots: Vec<Option<Source>>) -> Result<Vec<Source>, Miss>
    ensures { IfOk result (λ found. slots.items ≡ map Some found.items) }
{
    let mut found = Vec::with_capacity(alloc, slots.len())?;
    for slot in slots {
        found.push(slot.ok_or(Miss::Other)?)?;
    }
    Ok(found)
}

fn have_counts(sources: &[Source], specs: &[SourceSpec]) -> bool
    ensures { result ≡ list_all (λ p. length p.0 == p.1.partitions) (zip sources.now specs.now) }
{
    sources
        .iter()
        .zip(specs)
        .all(|(source, spec)| source.len() == spec.partitions as usize)
}

/// The sources that a text says, in the order of the plan, where it has the form and the ranges that are
/// asked of it.
pub fn sources_in(alloc: Global, plan: &Plan, text: &str) -> Result<Items<Source>, Miss>
    ensures { IfOk result (λ sources. IsRead plan.now (option_and_then input_text (read text.now)) sources) }
{
    let mut reader = Scanner::new(text.as_bytes());
    let mut cells = Vec::new(alloc);
    let slots = next_slots(alloc, plan, &mut reader, &mut cells, MOST_DEPTH)?;
    reader.end()?;
    let sources = filled(alloc, slots)?;
    if !have_counts(&sources, plan.sources()) {
        return Err(Miss::Other);
    }
    Ok(Items::from_vec(sources))
}
