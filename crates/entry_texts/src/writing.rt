//! Rows, each behind what its place asks for.

ghost use Rattle.std.specs.Prelude.{◌≡◌, ◌<◌, ◌++◌, ◌∷◌, length, OnOk, string_bytes};
ghost use Rattle.std.specs.List.{flat_map};
ghost use Rattle.std.specs.Fmt.{signed_decimal};
ghost use Rattle.entry_texts.specs.EntryTexts.{comma_number, row_text, watermark_label, watermark_text, mark_text, begin_text, lead_text, end_text};

use import_entries::Place;
use itoa::Buffer;
use std::alloc::AllocError;

/// Puts a number behind a text.
///
/// # Errors
///
/// Only where memory runs out.
pub fn push_decimal(text: &mut String, number: i64) -> Result<(), AllocError>
    ensures { OnOk result (string_bytes text.new ≡ string_bytes text.old ++ signed_decimal number) }
{
    let mut buffer = Buffer::new();
    text.push_str(buffer.format(number))
}

fn push_comma_number(text: &mut String, number: i64) -> Result<(), AllocError>
    ensures { OnOk result (string_bytes text.new ≡ string_bytes text.old ++ comma_number number) }
{
    text.push_str(",")?;
    push_decimal(text, number)
}

/// Each number behind a comma.
fn push_others(text: &mut String, numbers: &[i64]) -> Result<(), AllocError>
    ensures { OnOk result (string_bytes text.new ≡ string_bytes text.old ++ flat_map comma_number numbers.now) }
{
    for number in numbers {
        push_comma_number(text, *number)?;
    }
    Ok(())
}

/// Puts a row behind a text: its first number and the others, as a list.
///
/// # Errors
///
/// Only where memory runs out.
pub fn push_row(text: &mut String, first: i64, others: &[i64]) -> Result<(), AllocError>
    ensures { OnOk result (string_bytes text.new ≡ string_bytes text.old ++ row_text first others.now) }
{
    text.push_str("[")?;
    push_decimal(text, first)?;
    push_others(text, others)?;
    text.push_str("]")
}

/// Puts what stands before the time of a watermark behind a text.
///
/// # Errors
///
/// Only where memory runs out.
#[tactic(auto, unfolding(crate::specs::EntryTexts::watermark_label))]
pub fn push_watermark_label(text: &mut String) -> Result<(), AllocError>
    ensures { OnOk result (string_bytes text.new ≡ string_bytes text.old ++ watermark_label) }
{
    text.push_str("{\"watermark\":")
}

/// A watermark and a comma.
fn push_watermark(text: &mut String, mark: i64) -> Result<(), AllocError>
    ensures { OnOk result (string_bytes text.new ≡ string_bytes text.old ++ watermark_text mark) }
{
    push_watermark_label(text)?;
    push_decimal(text, mark)?;
    text.push_str("},")
}

fn push_mark(text: &mut String, mark: Option<i64>) -> Result<(), AllocError>
    ensures { OnOk result (string_bytes text.new ≡ string_bytes text.old ++ mark_text mark) }
{
    match mark {
        Some(mark) => push_watermark(text, mark),
        None => Ok(()),
    }
}

/// What stands before the first row of an entry.
fn push_begin(text: &mut String, mark: Option<i64>, is_first: bool) -> Result<(), AllocError>
    ensures { OnOk result (string_bytes text.new ≡ string_bytes text.old ++ begin_text is_first mark) }
{
    text.push_str(if is_first { "[" } else { "]}," })?;
    push_mark(text, mark)?;
    text.push_str("{\"rows\":[")
}

/// Writes a row, its first number and the others, at its place in a partition; `is_first` where no row of the partition
/// stands before it.
///
/// # Errors
///
/// Only where memory runs out.
pub fn put_row(
    text: &mut String,
    place: Place,
    is_first: bool,
    first: i64,
    others: &[i64],
) -> Result<(), AllocError>
    ensures { OnOk result (string_bytes text.new ≡ string_bytes text.old ++ lead_text is_first place ++ row_text first others.now) }
{
    match place {
        Place::Joins => text.push_str(",")?,
        Place::Begins(mark) => push_begin(text, mark, is_first)?,
    }
    push_row(text, first, others)
}

/// Ends a partition; `is_empty` where it has no row.
///
/// # Errors
///
/// Only where memory runs out.
pub fn end_partition(text: &mut String, is_empty: bool) -> Result<(), AllocError>
    ensures { OnOk result (string_bytes text.new ≡ string_bytes text.old ++ end_text is_empty) }
{
    text.push_str(if is_empty { "[]" } else { "]}]" })
}
