//! The text of an entry: compact JSON, row by row.

ghost use Rattle.std.specs.Prelude.{◌≡◌, ◌<◌, ◌≤◌, ◌+◌, ◌*◌, ◌++◌, length, OnOk, string_bytes};
ghost use Rattle.part_texts.specs.InputTexts.{records_text, rows_entry, mark_name, mark_entry, entry_text};

use crate::records::{put_records, room_of};
use columns::Batch;
use job_texts::push_decimal;
use std::alloc::AllocError;
use std::str::from_utf8_unchecked;
use stream_model::Entry;

/// The most room that is kept for the rows of the next entry.
const MOST_KEPT: usize = 65536;

/// The rows, with commas between them, by way of room for them.
fn push_line(text: &mut String, line: &mut [u8], batch: &Batch) -> Result<(), AllocError>
    requires some { 0 < length batch.now.rows }
    requires room { length batch.now.rows * (21 * batch.now.width + 2) ≤ length line.old }
    ensures { OnOk result (string_bytes text.new ≡ string_bytes text.old ++ records_text batch.now.width batch.now.rows) }
{
    let start = put_records(line, batch);
    text.push_str(unsafe { from_utf8_unchecked(&line[start..]) })
}

/// The rows, with commas between them, by way of room that is kept, or of more where they need it.
fn push_records(text: &mut String, line: &mut Vec<u8>, batch: &Batch) -> Result<(), AllocError>
    ensures { OnOk result (string_bytes text.new ≡ string_bytes text.old ++ records_text batch.now.width batch.now.rows) }
{
    if batch.is_empty() {
        return Ok(());
    }
    let room = room_of(batch);
    if room > MOST_KEPT {
        let mut line = vec![in *text.allocator(); 0u8; room]?;
        return push_line(text, &mut line, batch);
    }
    if line.len() < room {
        *line = vec![in *text.allocator(); 0u8; MOST_KEPT]?;
    }
    push_line(text, line, batch)
}

/// Puts the text of an entry of rows behind a text.
fn push_rows(text: &mut String, line: &mut Vec<u8>, batch: &Batch) -> Result<(), AllocError>
    ensures { OnOk result (string_bytes text.new ≡ string_bytes text.old ++ rows_entry batch.now) }
{
    text.push_str("{\"rows\":[")?;
    push_records(text, line, batch)?;
    text.push_str("]}")
}

#[tactic(auto, unfolding(crate::specs::InputTexts::mark_name))]
fn push_mark_name(text: &mut String) -> Result<(), AllocError>
    ensures { OnOk result (string_bytes text.new ≡ string_bytes text.old ++ mark_name) }
{
    text.push_str("{\"watermark\":")
}

/// Puts the text of a watermark behind a text.
fn push_mark(text: &mut String, time: i64) -> Result<(), AllocError>
    ensures { OnOk result (string_bytes text.new ≡ string_bytes text.old ++ mark_entry time) }
{
    push_mark_name(text)?;
    push_decimal(text, time)?;
    text.push_str("}")
}

/// Puts the text of an entry behind a text: its rows or its watermark as compact JSON.
///
/// # Errors
///
/// Only where memory runs out.
pub fn push_entry(text: &mut String, entry: &Entry) -> Result<(), AllocError>
    ensures { OnOk result (string_bytes text.new ≡ string_bytes text.old ++ entry_text entry.now) }
{
    match entry {
        Entry::Rows(batch) => {
            let mut room = Vec::new(*text.allocator());
            push_rows(text, &mut room, batch)
        }
        Entry::Watermark(time) => push_mark(text, *time),
    }
}
