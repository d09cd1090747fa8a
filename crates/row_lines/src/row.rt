//! The row of a line.

ghost use Rattle.std.specs.Prelude.{◌≡◌, IfOk};
ghost use Rattle.row_lines.specs.Numbers.{GivesNumbers};
ghost use Rattle.row_lines.specs.Rows.{GivesRow, GivesRowOf};

use crate::number::number_of;
use arrayvec::ArrayVec;
use plan_model::{MOST_AGGREGATES, Numbers, Row};
use std::alloc::{AllocError, Global};

/// The most numbers of a row: its start, its end, its key, and those of its aggregates.
const MOST_NUMBERS: usize = 3 + MOST_AGGREGATES;

/// The numbers that stand in a text with single spaces between, if there are no more than a row can have.
fn numbers_of(text: &[u8]) -> Option<ArrayVec<i128, MOST_NUMBERS>>
    ensures { GivesNumbers text.now result }
{
    let mut numbers = ArrayVec::new();
    for part in text.split(|byte| *byte == b' ') {
        let Some(number) = number_of(part) else {
            return None;
        };
        if numbers.is_full() {
            return None;
        }
        numbers.push(number);
    }
    Some(numbers)
}

/// The numbers of aggregates.
fn values_of(alloc: Global, numbers: &[i128]) -> Result<Numbers, AllocError>
    ensures { IfOk result (λ values. values ≡ numbers.now) }
{
    let mut values = Numbers::new();
    for number in numbers {
        values.push(alloc, *number)?;
    }
    Ok(values)
}

/// The row of numbers: the first three have 64 bits, and there are others.
fn row_of(alloc: Global, numbers: &[i128]) -> Result<Option<Row>, AllocError>
    ensures { IfOk result (GivesRowOf numbers.now) }
{
    let [start, end, key, values @ ..] = numbers else {
        return Ok(None);
    };
    let (Ok(start), Ok(end), Ok(key)) = (
        i64::try_from(*start),
        i64::try_from(*end),
        i64::try_from(*key),
    ) else {
        return Ok(None);
    };
    if values.is_empty() {
        return Ok(None);
    }
    Ok(Some(Row {
        start,
        end,
        key,
        values: values_of(alloc, values)?,
    }))
}

/// The row whose line this is, without its line feed, or `None` where no row has this line.
///
/// # Errors
///
/// Only where memory runs out.
pub fn read_row(alloc: Global, line: &[u8]) -> Result<Option<Row>, AllocError>
    ensures { IfOk result (GivesRow line.now) }
{
    match numbers_of(line) {
        Some(numbers) => row_of(alloc, numbers.as_slice()),
        None => Ok(None),
    }
}
