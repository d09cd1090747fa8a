//! Rows that the sink collects.

ghost use Rattle.std.specs.Prelude.{◌≡◌, ◌++◌, take, IfOk, OnOk, OnErr};

use plain_data::Items;
use plan_model::{Numbers, Row};
use std::alloc::{AllocError, Global};

/// Puts rows after those that are there; where there are none, no row is copied. Where no memory is to be had, nothing
/// has changed.
pub(crate) fn collect(rows: &mut Vec<Row>, more: Items<Row>) -> Result<(), AllocError>
    ensures collected { OnOk result (rows.new.items ≡ rows.old.items ++ more) }
    ensures kept { OnErr result (rows.new.items ≡ rows.old.items) }
{
    let more = more.into_vec();
    if rows.is_empty() {
        *rows = more;
        return Ok(());
    }
    rows.reserve(more.len())?;
    for row in more {
        rows.push_reserved(row);
    }
    Ok(())
}

/// The numbers of a row again.
fn numbers_of(alloc: Global, values: &Numbers) -> Result<Numbers, AllocError>
    ensures { IfOk result (λ numbers. numbers ≡ values.now) }
{
    let mut numbers = Numbers::new();
    for place in 0..values.len() {
        if let Some(number) = values.get(place) {
            numbers.push(alloc, number)?;
        }
    }
    Ok(numbers)
}

/// A row again.
fn copied(alloc: Global, row: &Row) -> Result<Row, AllocError>
    ensures { IfOk result (λ copy. copy ≡ row.now) }
{
    Ok(Row {
        start: row.start,
        end: row.end,
        key: row.key,
        values: numbers_of(alloc, &row.values)?,
    })
}

/// The first rows again, so many of them, or all where there are fewer.
pub(crate) fn first_rows(alloc: Global, rows: &[Row], count: u64) -> Result<Vec<Row>, AllocError>
    ensures { IfOk result (λ first. first.items ≡ take count rows.now) }
{
    let count = rows.len().min(count as usize);
    let mut first = Vec::with_capacity(alloc, count)?;
    for row in &rows[..count] {
        first.push(copied(alloc, row)?)?;
    }
    Ok(first)
}
