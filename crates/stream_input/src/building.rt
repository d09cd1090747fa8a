//! From what a text says to the entries of an input.

ghost use Rattle.std.specs.Prelude.{◌≡◌, ◌≤◌, ◌++◌, true, length, map, IfOk, OnOk};
ghost use Rattle.std.specs.List.{All};
ghost use Rattle.plain_data.specs.Record.{column_of as column_in};
ghost use Rattle.columns.specs.Table.{IsWidth, by_columns};
ghost use Rattle.columns.specs.declared.TheConstants.{MOST_ROWS};
ghost use Rattle.plan_model.specs.PlanData.{IsBound};
ghost use Rattle.input_texts.specs.Said as said;
ghost use Rattle.input_texts.specs.Requirements.{is_wide, is_sized, is_timely, has_width, has_rows, has_times};
ghost use Rattle.stream_input.specs.Marking.{IsMarking};

use columns::Batch;
use input_texts::{EntryText, SourceText, number_at, number_of, partitions_of};
use plain_data::Items;
use plan_model::{Plan, SourceSpec};
use std::alloc::{AllocError, Global};
use stream_model::{Entry, Marked, Partition, Source};

fn put_column(
    numbers: &mut Vec<i64>,
    rows: &[Items<Option<i64>>],
    column: usize,
) -> Result<(), AllocError>
    ensures { OnOk result (numbers.new.items ≡ numbers.old.items ++ column_in column (map said.record_of rows.now)) }
{
    for row in rows {
        numbers.push(number_at(row.as_slice(), column))?;
    }
    Ok(())
}

fn numbers_of(
    alloc: Global,
    rows: &[Items<Option<i64>>],
    columns: usize,
) -> Result<Vec<i64>, AllocError>
    requires width { IsWidth columns }
    requires few { length rows.now ≤ MOST_ROWS }
    ensures { IfOk result (λ numbers. numbers.items ≡ by_columns columns (map said.record_of rows.now)) }
{
    let mut numbers = Vec::with_capacity(alloc, columns * rows.len())?;
    for column in 0..columns {
        put_column(&mut numbers, rows, column)?;
    }
    Ok(numbers)
}

fn batch_of(alloc: Global, columns: usize, rows: &[Items<Option<i64>>]) -> Result<Batch, AllocError>
    requires width { IsWidth columns }
    requires wide { All (λ row. length row ≡ columns) rows.now }
    requires few { length rows.now ≤ MOST_ROWS }
    ensures { IfOk result (λ batch. batch ≡ record { width = columns; rows = map said.record_of rows.now }) }
{
    let numbers = numbers_of(alloc, rows, columns)?;
    Ok(Batch::from_numbers(numbers, columns, rows.len()))
}

fn entry_of(alloc: Global, columns: usize, text: &EntryText) -> Result<Entry, AllocError>
    requires width { IsWidth columns }
    requires wide { is_wide columns text.now ≡ true }
    requires sized { is_sized text.now ≡ true }
    ensures { IfOk result (λ entry. entry ≡ said.entry_of columns text.now) }
{
    match text {
        EntryText::Rows(rows) => Ok(Entry::Rows(batch_of(alloc, columns, rows.as_slice())?)),
        EntryText::Watermark(time) => Ok(Entry::Watermark(number_of(*time))),
    }
}

/// The columns of a plan, the column of the times, and the bound of one of its sources.
#[derive(Clone, Copy)]
struct Marking {
    columns: usize,
    time: usize,
    bound: Option<i64>,
}

fn marked_of(alloc: Global, marking: Marking, text: &EntryText) -> Result<Marked, AllocError>
    requires marks { IsMarking marking }
    requires wide { is_wide marking.columns text.now ≡ true }
    requires sized { is_sized text.now ≡ true }
    requires timely { is_timely marking.time text.now ≡ true }
    ensures { IfOk result (λ marked. marked ≡ said.marked_of marking.bound marking.columns marking.time text.now) }
{
    let entry = entry_of(alloc, marking.columns, text)?;
    Ok(Marked::new(entry, marking.bound, marking.columns, marking.time))
}

fn partition_of(
    alloc: Global,
    marking: Marking,
    texts: &[EntryText],
) -> Result<Partition, AllocError>
    requires marks { IsMarking marking }
    requires wide { All (λ e. is_wide marking.columns e ≡ true) texts.now }
    requires sized { All (λ e. is_sized e ≡ true) texts.now }
    requires timely { All (λ e. is_timely marking.time e ≡ true) texts.now }
    ensures { IfOk result (λ found. found ≡ map (said.marked_of marking.bound marking.columns marking.time) texts.now) }
{
    let mut entries = Vec::with_capacity(alloc, texts.len())?;
    for text in texts {
        entries.push(marked_of(alloc, marking, text)?)?;
    }
    Ok(Items::from_vec(entries))
}

fn source_of(
    alloc: Global,
    marking: Marking,
    texts: &[Items<EntryText>],
) -> Result<Source, AllocError>
    requires marks { IsMarking marking }
    requires wide { All (λ p. All (λ e. is_wide marking.columns e ≡ true) p) texts.now }
    requires sized { All (λ p. All (λ e. is_sized e ≡ true) p) texts.now }
    requires timely { All (λ p. All (λ e. is_timely marking.time e ≡ true) p) texts.now }
    ensures { IfOk result (λ found. found ≡ map (map (said.marked_of marking.bound marking.columns marking.time)) texts.now) }
{
    let mut partitions = Vec::with_capacity(alloc, texts.len())?;
    for text in texts {
        partitions.push(partition_of(alloc, marking, text.as_slice())?)?;
    }
    Ok(Items::from_vec(partitions))
}

/// The partitions of one source of the plan.
fn source_under(
    alloc: Global,
    plan: &Plan,
    text: &[SourceText],
    spec: &SourceSpec,
) -> Result<Source, AllocError>
    requires wide { has_width plan.now text.now ≡ true }
    requires sized { has_rows plan.now text.now ≡ true }
    requires timely { has_times plan.now text.now ≡ true }
    requires bounded { IsBound spec.now.bound }
    ensures { IfOk result (λ found. found ≡ map (map (said.marked_of spec.now.bound plan.now.columns plan.now.window.time)) (said.partitions_under spec.now.uid text.now)) }
{
    let marking = Marking {
        columns: plan.columns() as usize,
        time: plan.window().time as usize,
        bound: spec.bound,
    };
    source_of(alloc, marking, partitions_of(text, spec.uid.as_str()))
}

/// The partitions of each source, in the order of the plan.
pub fn sources_of(
    alloc: Global,
    plan: &Plan,
    text: &[SourceText],
) -> Result<Items<Source>, AllocError>
    requires wide { has_width plan.now text.now ≡ true }
    requires sized { has_rows plan.now text.now ≡ true }
    requires timely { has_times plan.now text.now ≡ true }
    ensures { IfOk result (λ found. found ≡ said.sources_of plan.now text.now) }
{
    let mut sources = Vec::new(alloc);
    for spec in plan.sources() {
        sources.push(source_under(alloc, plan, text, spec)?)?;
    }
    Ok(Items::from_vec(sources))
}
