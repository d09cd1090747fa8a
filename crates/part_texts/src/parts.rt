//! The texts of all parts of an input, which grow side by side.

ghost use Rattle.std.specs.Prelude.{◌≡◌, ◌≤◌, [], codes, length, map, zip, OnOk};
ghost use Rattle.std.specs.List.{All, filter};
ghost use Rattle.stream_model.specs.InputData.{BelongsTo, IsEntry};
ghost use Rattle.stream_model.specs.Marks.{IsEntryOf};
ghost use Rattle.cut_texts.specs.Words.{before_part};
ghost use Rattle.input_parts.specs.Parts.{is_in_part, entry_of_rows, entry_kept, entries_left, part_of_input};
ghost use Rattle.part_texts.specs.InputTexts.{mark_entry, partition_text, partitions_text, source_text, sources_text, input_text};
ghost use Rattle.key_dealing.specs.Dealing.{rows_at, ArePlaces};
ghost use Rattle.part_texts.specs.PartTexts.{Each, Grow, with_words, with_text, with_entries};
ghost use Rattle.part_texts.specs.Streams.{states_of, places_at, Got};

use crate::part::PartText;
use columns::Batch;
use key_dealing::places_of;
use key_groups::{MaxParallelism, Parallelism};
use plan_model::{Plan, SourceSpec};
use std::alloc::Global;
use std::io;
use std::io::Write;
use stream_model::{Entry, Input, Marked, Partition, Source};

/// The key groups of a plan.
fn groups_of(plan: &Plan) -> MaxParallelism
    ensures { result ≡ plan.now.max }
{
    MaxParallelism::new(plan.max()).unwrap()
}

/// Puts the same words behind each text.
fn push_all<W: Write + Drop>(texts: &mut [PartText<W>], words: &str) -> io::Result<()>
    ensures { OnOk result (Each (λ place text. with_words words.now text) (states_of W.contents texts.old) (states_of W.contents texts.new)) }
{
    for place in 0..texts.len() {
        texts[place].push(words)?;
    }
    Ok(())
}

/// Puts a comma behind each text, but before the first of what has this place.
fn separate_all<W: Write + Drop>(texts: &mut [PartText<W>], place: usize) -> io::Result<()>
    ensures { OnOk result (Grow (λ i. before_part (codes ",") place) (states_of W.contents texts.old) (states_of W.contents texts.new)) }
{
    push_all(texts, if place == 0 { "" } else { "," })
}

/// Puts a watermark behind each text.
fn push_marks<W: Write + Drop>(texts: &mut [PartText<W>], time: i64) -> io::Result<()>
    ensures { OnOk result (Each (λ place text. with_text text (mark_entry time)) (states_of W.contents texts.old) (states_of W.contents texts.new)) }
{
    for place in 0..texts.len() {
        texts[place].push_mark(time)?;
    }
    Ok(())
}

/// Puts the rows at some places behind each text, those of the list at its place.
fn push_rows<W: Write + Drop>(
    alloc: Global,
    texts: &mut [PartText<W>],
    batch: &Batch,
    lists: &[Vec<usize>],
) -> io::Result<()>
    requires all { length lists.now ≡ length texts.old }
    requires inside { All (λ places. ArePlaces batch.now.rows places.items) lists.now }
    ensures { OnOk result (Each (λ place text. with_entries text (entry_of_rows batch.now.width (rows_at batch.now.rows (places_at lists.now place)))) (states_of W.contents texts.old) (states_of W.contents texts.new)) }
{
    for place in 0..texts.len() {
        texts[place].push_rows(alloc, batch, &lists[place])?;
    }
    Ok(())
}

/// Puts behind each text what its part has of some rows.
fn push_batch<W: Write + Drop>(
    alloc: Global,
    plan: &Plan,
    parts: Parallelism,
    texts: &mut [PartText<W>],
    batch: &Batch,
) -> io::Result<()>
    requires fits { parts ≤ plan.now.max }
    requires wide { batch.now.width ≡ plan.now.columns }
    requires all { length texts.old ≡ parts }
    ensures { OnOk result (Each (λ place text. with_entries text (entry_of_rows batch.now.width (filter (is_in_part plan.now parts place) batch.now.rows))) (states_of W.contents texts.old) (states_of W.contents texts.new)) }
{
    let lists = places_of(alloc, groups_of(plan), parts, plan.window().key, batch)?;
    push_rows(alloc, texts, batch, &lists)
}

/// Puts behind each text what its part has of an entry.
fn push_entry<W: Write + Drop>(
    alloc: Global,
    plan: &Plan,
    parts: Parallelism,
    texts: &mut [PartText<W>],
    entry: &Entry,
) -> io::Result<()>
    requires fits { parts ≤ plan.now.max }
    requires sound { IsEntryOf plan.now.columns plan.now.window.time entry.now }
    requires all { length texts.old ≡ parts }
    ensures { OnOk result (Each (λ place text. with_entries text (entry_kept (is_in_part plan.now parts place) entry.now)) (states_of W.contents texts.old) (states_of W.contents texts.new)) }
{
    match entry {
        Entry::Rows(batch) => push_batch(alloc, plan, parts, texts, batch),
        Entry::Watermark(time) => push_marks(texts, *time),
    }
}

fn push_entries<W: Write + Drop>(
    alloc: Global,
    plan: &Plan,
    parts: Parallelism,
    texts: &mut [PartText<W>],
    entries: &[Marked],
) -> io::Result<()>
    requires fits { parts ≤ plan.now.max }
    requires sound { All (IsEntry plan.now.columns plan.now.window.time) entries.now }
    requires all { length texts.old ≡ parts }
    ensures { OnOk result (Each (λ place text. with_entries text (entries_left (is_in_part plan.now parts place) entries.now)) (states_of W.contents texts.old) (states_of W.contents texts.new)) }
{
    for marked in entries {
        push_entry(alloc, plan, parts, texts, &marked.entry)?;
    }
    Ok(())
}

fn push_partition<W: Write + Drop>(
    alloc: Global,
    plan: &Plan,
    parts: Parallelism,
    texts: &mut [PartText<W>],
    entries: &[Marked],
) -> io::Result<()>
    requires fits { parts ≤ plan.now.max }
    requires sound { All (IsEntry plan.now.columns plan.now.window.time) entries.now }
    requires all { length texts.old ≡ parts }
    ensures { OnOk result (Grow (λ place. partition_text (entries_left (is_in_part plan.now parts place) entries.now)) (states_of W.contents texts.old) (states_of W.contents texts.new)) }
{
    push_all(texts, "[")?;
    push_entries(alloc, plan, parts, texts, entries)?;
    push_all(texts, "]")
}

fn push_partitions<W: Write + Drop>(
    alloc: Global,
    plan: &Plan,
    parts: Parallelism,
    texts: &mut [PartText<W>],
    partitions: &[Partition],
) -> io::Result<()>
    requires fits { parts ≤ plan.now.max }
    requires sound { All (λ entries. All (IsEntry plan.now.columns plan.now.window.time) entries) partitions.now }
    requires all { length texts.old ≡ parts }
    ensures { OnOk result (Grow (λ place. partitions_text (map (entries_left (is_in_part plan.now parts place)) partitions.now)) (states_of W.contents texts.old) (states_of W.contents texts.new)) }
{
    for (place, entries) in partitions.iter().enumerate() {
        separate_all(texts, place)?;
        push_partition(alloc, plan, parts, texts, entries.as_slice())?;
    }
    Ok(())
}

/// A source's name and its partitions.
fn push_source<W: Write + Drop>(
    alloc: Global,
    plan: &Plan,
    parts: Parallelism,
    texts: &mut [PartText<W>],
    spec: &SourceSpec,
    partitions: &[Partition],
) -> io::Result<()>
    requires fits { parts ≤ plan.now.max }
    requires sound { All (λ entries. All (IsEntry plan.now.columns plan.now.window.time) entries) partitions.now }
    requires all { length texts.old ≡ parts }
    ensures { OnOk result (Grow (λ place. source_text (spec.now, map (entries_left (is_in_part plan.now parts place)) partitions.now)) (states_of W.contents texts.old) (states_of W.contents texts.new)) }
{
    push_all(texts, "\"")?;
    push_all(texts, spec.uid.as_str())?;
    push_all(texts, "\":[")?;
    push_partitions(alloc, plan, parts, texts, partitions)?;
    push_all(texts, "]")
}

fn push_sources<W: Write + Drop>(
    alloc: Global,
    plan: &Plan,
    parts: Parallelism,
    texts: &mut [PartText<W>],
    specs: &[SourceSpec],
    sources: &[Source],
) -> io::Result<()>
    requires fits { parts ≤ plan.now.max }
    requires sound { All (λ partitions. All (λ entries. All (IsEntry plan.now.columns plan.now.window.time) entries) partitions) sources.now }
    requires alike { length specs.now ≡ length sources.now }
    requires all { length texts.old ≡ parts }
    ensures { OnOk result (Grow (λ place. sources_text (zip specs.now (map (map (entries_left (is_in_part plan.now parts place))) sources.now))) (states_of W.contents texts.old) (states_of W.contents texts.new)) }
{
    for place in 0..specs.len() {
        separate_all(texts, place)?;
        push_source(
            alloc,
            plan,
            parts,
            texts,
            &specs[place],
            sources[place].as_slice(),
        )?;
    }
    Ok(())
}

/// Puts the texts of an input's parts behind these.
fn push_input<W: Write + Drop>(
    alloc: Global,
    plan: &Plan,
    parts: Parallelism,
    texts: &mut [PartText<W>],
    input: &Input,
) -> io::Result<()>
    requires fits { parts ≤ plan.now.max }
    requires belongs { BelongsTo plan.now input.now }
    requires all { length texts.old ≡ parts }
    ensures { OnOk result (Grow (λ place. input_text plan.now (part_of_input plan.now parts place input.now)) (states_of W.contents texts.old) (states_of W.contents texts.new)) }
{
    push_all(texts, "{")?;
    push_sources(alloc, plan, parts, texts, plan.sources(), input.sources())?;
    push_all(texts, "}\n")
}

/// Writes of each text what its stream has not got yet.
fn finish_all<W: Write + Drop>(texts: &mut [PartText<W>]) -> io::Result<()>
    ensures { OnOk result (Got W.contents (λ place. []) texts.old texts.new) }
{
    for place in 0..texts.len() {
        texts[place].finish()?;
    }
    Ok(())
}

/// Writes the JSON texts of the parts of an input to their streams, so many, each at its place, counted from 0:
/// compact, the sources in the order of the plan, and a line feed. A part has the records whose keys' groups the
/// subtask at its place would own of an operator with so many, in their order, and all watermarks. A partition has the
/// entries that are left, which may be none.
///
/// The input is gone through once. There are no more parts than the plan has key groups, and the input was read by the
/// plan.
///
/// # Errors
///
/// Where a stream takes no more, or memory runs out. Some of the texts may have been written then.
pub fn write_texts<W: Write + Drop>(
    alloc: Global,
    plan: &Plan,
    parts: Parallelism,
    texts: &mut [PartText<W>],
    input: &Input,
) -> io::Result<()>
    requires fits { parts ≤ plan.now.max }
    requires belongs { BelongsTo plan.now input.now }
    requires all { length texts.old ≡ parts }
    ensures { OnOk result (Got W.contents (λ place. input_text plan.now (part_of_input plan.now parts place input.now)) texts.old texts.new) }
{
    push_input(alloc, plan, parts, texts, input)?;
    finish_all(texts)
}
