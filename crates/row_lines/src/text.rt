//! The texts of numbers and of rows.

ghost use Rattle.std.specs.Prelude.{◌≡◌, ◌++◌, ◌∷◌, OnOk, string_bytes};
ghost use Rattle.std.specs.List.{flat_map};
ghost use Rattle.row_lines.specs.Text.{spaced, head_of, line_of};

use itoa::{Buffer, Integer};
use plan_model::{Numbers, Row};
use std::alloc::AllocError;

/// Puts a number in decimal behind a text.
///
/// # Errors
///
/// Only where memory runs out.
pub fn push_decimal<I: Integer>(text: &mut String, number: I) -> Result<(), AllocError>
    ensures { OnOk result (string_bytes text.new ≡ string_bytes text.old ++ I.text number) }
{
    let mut buffer = Buffer::new();
    text.push_str(buffer.format(number))
}

/// Puts a space and a number in decimal behind a text.
///
/// # Errors
///
/// Only where memory runs out.
pub fn push_spaced<I: Integer>(text: &mut String, number: I) -> Result<(), AllocError>
    ensures { OnOk result (string_bytes text.new ≡ string_bytes text.old ++ 32 ∷ I.text number) }
{
    text.push_str(" ")?;
    push_decimal(text, number)
}

/// Puts the start, the end and the key of a row behind a text.
///
/// # Errors
///
/// Only where memory runs out.
pub fn push_head(text: &mut String, row: &Row) -> Result<(), AllocError>
    ensures { OnOk result (string_bytes text.new ≡ string_bytes text.old ++ head_of row.now) }
{
    push_decimal(text, row.start)?;
    push_spaced(text, row.end)?;
    push_spaced(text, row.key)
}

/// A space and the number in decimal for each number, in order.
fn push_numbers(text: &mut String, numbers: &Numbers) -> Result<(), AllocError>
    ensures { OnOk result (string_bytes text.new ≡ string_bytes text.old ++ flat_map spaced numbers.now) }
{
    for index in 0..numbers.len() {
        push_spaced(text, numbers.get(index).unwrap())?;
    }
    Ok(())
}

/// Puts the line of a row behind a text, with its line feed.
///
/// # Errors
///
/// Only where memory runs out.
pub fn push_line(text: &mut String, row: &Row) -> Result<(), AllocError>
    ensures { OnOk result (string_bytes text.new ≡ string_bytes text.old ++ line_of row.now) }
{
    push_head(text, row)?;
    push_numbers(text, &row.values)?;
    text.push_str("\n")
}
