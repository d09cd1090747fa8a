//! The entries of an input.

use columns::MOST_ROWS;
use json::Token;
use place_notes::{Notes, Owner, check_number, tell_other, whole_of};
use plan_model::is_time;
use std::alloc::{AllocError, Global};
use stream_model::is_late_time;
use text_places::{Part, Placed};

/// What is asked of each entry.
#[derive(Clone, Copy, PartialEq, Eq)]
pub(crate) enum Test {
    /// Rows of so many numbers.
    Width(usize),
    /// Whole numbers.
    Number,
    /// 1 to 4,096 rows.
    Rows,
    /// Times and watermarks in range. The times stand in this column.
    TimeRange(usize),
    /// No watermark, where the source makes its own.
    Kind(bool),
    /// No row whose time is at or below a watermark before it. The times stand in this column, and a source with a
    /// bound makes its own watermarks.
    Late { time: usize, bound: Option<i64> },
}

/// What an entry is.
#[derive(Clone, Copy)]
enum Entry<'v> {
    Rows(Placed<'v>),
    Watermark(Placed<'v>),
    Other,
}

/// The entry that a value is. It has one member; one that stands twice counts as one.
fn entry_of<'v>(parts: &[Part<'v>]) -> Entry<'v> {
    let Some(last) = parts.last() else {
        return Entry::Other;
    };
    if parts.iter().any(|part| part.name != last.name) {
        return Entry::Other;
    }
    match last.name {
        "rows" => Entry::Rows(last.value),
        "watermark" => Entry::Watermark(last.value),
        _ => Entry::Other,
    }
}

/// Tells of the rows that are no lists.
fn check_rows_form(notes: &mut Notes, rows: &Placed<'_>) -> Result<(), AllocError> {
    if !matches!(rows.token, Token::BeginArray) {
        return tell_other(notes, Owner::One("`rows`"), rows, "a list of rows");
    }
    let parts = rows.parts(notes.alloc())?;
    for (i, row) in parts.iter().enumerate() {
        if !matches!(row.value.token, Token::BeginArray) {
            tell_other(
                notes,
                Owner::Listed("row", i),
                &row.value,
                "a list of numbers",
            )?;
        }
    }
    Ok(())
}

/// Tells of an entry of another form.
fn check_entry_form(notes: &mut Notes, entry: &Placed<'_>, place: usize) -> Result<(), AllocError> {
    let owner = Owner::Listed("entry", place);
    if !matches!(entry.token, Token::BeginObject) {
        return tell_other(notes, owner, entry, "an object with `rows` or `watermark`");
    }
    match entry_of(&entry.parts(notes.alloc())?) {
        Entry::Rows(rows) => check_rows_form(notes, &rows),
        Entry::Watermark(_) => Ok(()),
        Entry::Other => {
            let sentence = format!(in notes.alloc();
                "{owner} has to have one member, `rows` or `watermark`"
            )?;
            notes.tell(entry.offset, sentence)
        }
    }
}

/// Tells of the entries of another form in a partition.
fn check_partition_form(
    notes: &mut Notes,
    partition: &Placed<'_>,
    place: usize,
) -> Result<(), AllocError> {
    if !matches!(partition.token, Token::BeginArray) {
        let owner = Owner::Listed("partition", place);
        return tell_other(notes, owner, partition, "a list of entries");
    }
    let entries = partition.parts(notes.alloc())?;
    for (i, entry) in entries.iter().enumerate() {
        check_entry_form(notes, &entry.value, i)?;
    }
    Ok(())
}

/// Tells of what in a source is of another form.
pub(crate) fn check_forms(notes: &mut Notes, source: &Part<'_>) -> Result<(), AllocError> {
    if !matches!(source.value.token, Token::BeginArray) {
        let owner = Owner::Named("source", source.name);
        return tell_other(notes, owner, &source.value, "a list of partitions");
    }
    let partitions = source.value.parts(notes.alloc())?;
    for (i, partition) in partitions.iter().enumerate() {
        check_partition_form(notes, &partition.value, i)?;
    }
    Ok(())
}

fn check_numbers(notes: &mut Notes, cells: &[Part<'_>]) -> Result<(), AllocError> {
    for (i, cell) in cells.iter().enumerate() {
        check_number(notes, Owner::Listed("column", i), &cell.value)?;
    }
    Ok(())
}

/// Tells of a row of another length.
fn tell_width(
    notes: &mut Notes,
    row: &Placed<'_>,
    count: usize,
    columns: usize,
) -> Result<(), AllocError> {
    let sentence = format!(in notes.alloc();
        "this row has {count} numbers, and the plan {columns} columns"
    )?;
    notes.tell(row.offset, sentence)
}

/// The number in a column of a row.
fn cell_of(cells: &[Part<'_>], column: usize) -> Option<i64> {
    cells.get(column).and_then(|cell| whole_of(&cell.value))
}

/// Tells of a time or a watermark that is out of range.
fn check_time(notes: &mut Notes, what: &str, value: &Placed<'_>) -> Result<(), AllocError> {
    match whole_of(value) {
        Some(time) if !is_time(time) => {
            let sentence = format!(in notes.alloc();
                "the {what} {time} is out of range: times are from -2^62 to 2^62 - 1"
            )?;
            notes.tell(value.offset, sentence)
        }
        _ => Ok(()),
    }
}

/// Tells of the time in a column of a row, where it is out of range.
fn check_row_time(notes: &mut Notes, cells: &[Part<'_>], column: usize) -> Result<(), AllocError> {
    match cells.get(column) {
        Some(cell) => check_time(notes, "time", &cell.value),
        None => Ok(()),
    }
}

/// Tells of a row whose time is at or below a watermark before it.
fn check_late(
    notes: &mut Notes,
    offset: usize,
    time: Option<i64>,
    before: Option<i64>,
) -> Result<(), AllocError> {
    match (time, before) {
        (Some(time), Some(watermark)) if is_late_time(watermark, time) => {
            let sentence = format!(in notes.alloc();
                "this row comes late: its time {time} is not above the watermark {watermark} before it"
            )?;
            notes.tell(offset, sentence)
        }
        _ => Ok(()),
    }
}

/// Tells of what in a row does not pass a test; `before` is the greatest watermark before it.
fn check_row(
    notes: &mut Notes,
    row: &Placed<'_>,
    test: Test,
    before: Option<i64>,
) -> Result<(), AllocError> {
    let cells = row.parts(notes.alloc())?;
    match test {
        Test::Width(columns) if cells.len() != columns => tell_width(
            notes,
            row,
            cells.len(),
            columns,
        ),
        Test::Number => check_numbers(notes, &cells),
        Test::TimeRange(time) => check_row_time(notes, &cells, time),
        Test::Late { time, .. } => check_late(notes, row.offset, cell_of(&cells, time), before),
        _ => Ok(()),
    }
}

/// Tells of an entry that has no row, or too many.
fn check_row_count(notes: &mut Notes, rows: &Placed<'_>, count: usize) -> Result<(), AllocError> {
    if 1 <= count && count <= MOST_ROWS {
        return Ok(());
    }
    let sentence = format!(in notes.alloc();
        "this entry has {count} rows, and has to have 1 to {MOST_ROWS}"
    )?;
    notes.tell(rows.offset, sentence)
}

fn check_each_row(
    notes: &mut Notes,
    rows: &[Part<'_>],
    test: Test,
    before: Option<i64>,
) -> Result<(), AllocError> {
    for row in rows {
        check_row(notes, &row.value, test, before)?;
    }
    Ok(())
}

fn check_rows(
    notes: &mut Notes,
    rows: &Placed<'_>,
    test: Test,
    before: Option<i64>,
) -> Result<(), AllocError> {
    let parts = rows.parts(notes.alloc())?;
    match test {
        Test::Rows => check_row_count(notes, rows, parts.len()),
        _ => check_each_row(notes, &parts, test, before),
    }
}

/// Tells of a watermark in a source that makes its own.
fn tell_kind(notes: &mut Notes, value: &Placed<'_>) -> Result<(), AllocError> {
    let sentence = format!(in notes.alloc();
        "a watermark stands here, and the plan lets this source make its own"
    )?;
    notes.tell(value.offset, sentence)
}

fn check_watermark(notes: &mut Notes, value: &Placed<'_>, test: Test) -> Result<(), AllocError> {
    match test {
        Test::Number => check_number(notes, Owner::One("a watermark"), value),
        Test::TimeRange(_) => check_time(notes, "watermark", value),
        Test::Kind(true) => tell_kind(notes, value),
        _ => Ok(()),
    }
}

/// The greatest time of rows.
fn greatest_time(alloc: Global, rows: &Placed<'_>, time: usize) -> Result<Option<i64>, AllocError> {
    let parts = rows.parts(alloc)?;
    let mut greatest = None;
    for row in &parts {
        let cells = row.value.parts(alloc)?;
        greatest = greatest.max(cell_of(&cells, time));
    }
    Ok(greatest)
}

/// The watermark that a source with this bound makes behind a time.
fn made(time: Option<i64>, bound: i64) -> Option<i64> {
    let time = time?;
    Some(time.saturating_sub(bound).saturating_sub(1))
}

/// The greatest watermark once an entry has been read.
fn watermark_after(
    alloc: Global,
    before: Option<i64>,
    entry: Entry<'_>,
    test: Test,
) -> Result<Option<i64>, AllocError> {
    match (entry, test) {
        (
            Entry::Rows(rows),
            Test::Late {
                time,
                bound: Some(bound),
            },
        ) => Ok(before.max(made(greatest_time(alloc, &rows, time)?, bound))),
        (Entry::Watermark(value), _) => Ok(before.max(whole_of(&value))),
        _ => Ok(before),
    }
}

/// Tells of what in an entry does not pass a test.
fn check_entry(
    notes: &mut Notes,
    entry: Entry<'_>,
    test: Test,
    before: Option<i64>,
) -> Result<(), AllocError> {
    match entry {
        Entry::Rows(rows) => check_rows(notes, &rows, test, before),
        Entry::Watermark(value) => check_watermark(notes, &value, test),
        Entry::Other => Ok(()),
    }
}

/// The entry that stands in a part.
fn entry_at<'v>(alloc: Global, part: &Part<'v>) -> Result<Entry<'v>, AllocError> {
    let parts = part.value.parts(alloc)?;
    Ok(entry_of(&parts))
}

fn check_partition(
    notes: &mut Notes,
    partition: &Placed<'_>,
    test: Test,
) -> Result<(), AllocError> {
    let entries = partition.parts(notes.alloc())?;
    let mut before = None;
    for part in &entries {
        let entry = entry_at(notes.alloc(), part)?;
        check_entry(notes, entry, test, before)?;
        before = watermark_after(notes.alloc(), before, entry, test)?;
    }
    Ok(())
}

/// Tells of what in the entries of a source does not pass a test.
pub(crate) fn check_entries(
    notes: &mut Notes,
    source: &Placed<'_>,
    test: Test,
) -> Result<(), AllocError> {
    let partitions = source.parts(notes.alloc())?;
    for partition in &partitions {
        check_partition(notes, &partition.value, test)?;
    }
    Ok(())
}
