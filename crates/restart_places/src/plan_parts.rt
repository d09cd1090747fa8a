//! What of a plan is another than when a savepoint was made.

use byte_fields::{FieldFault, read_bytes, read_i64, read_u8, read_u16};
use plan_model::Plan;
use plan_record::Recorded;
use savepoint_codec::Contents;
use std::alloc::{AllocError, Global};
use text_places::Findings;

/// The numbers of a plan's record but for its key groups, in its order.
const NUMBERS: [&str; 6] = [
    "`columns`",
    "`time`",
    "`key`",
    "`size` of the window",
    "`slide` of the window",
    "`offset` of the window, less whole slides,",
];

/// The bytes of a condition in a plan's record: one for its column, one for how it compares, and eight for its number.
const CONDITION_BYTES: usize = 10;

/// The bytes of an aggregate there: one for its function, and one for its column.
const AGGREGATE_BYTES: usize = 2;

/// The bytes of a bound there: one for the place of its source, and eight for it.
const BOUND_BYTES: usize = 9;

/// A plan's record: its numbers, the bytes of its lists of conditions of filters, of aggregates and of conditions of
/// having, and those of the bounds of its sources, which are none where no source has one.
#[derive(Clone, Copy)]
struct Parts<'r> {
    numbers: [i64; 6],
    filters: &'r [u8],
    aggregates: &'r [u8],
    having: &'r [u8],
    bounds: &'r [u8],
}

/// The numbers, and the bytes behind them.
fn numbers_in(bytes: &[u8]) -> Result<([i64; 6], &[u8]), FieldFault> {
    let (columns, rest) = read_u8(bytes)?;
    let (_, rest) = read_u16(rest)?;
    let (time, rest) = read_u8(rest)?;
    let (key, rest) = read_u8(rest)?;
    let (size, rest) = read_i64(rest)?;
    let (slide, rest) = read_i64(rest)?;
    let (offset, rest) = read_i64(rest)?;
    let numbers = [
        i64::from(columns),
        i64::from(time),
        i64::from(key),
        size,
        slide,
        offset,
    ];
    Ok((numbers, rest))
}

/// The bytes behind a text, which has its length in a byte before it.
fn behind_text(bytes: &[u8]) -> Result<&[u8], FieldFault> {
    let (length, rest) = read_u8(bytes)?;
    let (_, behind) = read_bytes(usize::from(length), rest)?;
    Ok(behind)
}

/// The bytes behind a list of texts, which has their number in a byte before it.
fn behind_texts(bytes: &[u8]) -> Result<&[u8], FieldFault> {
    let (count, mut rest) = read_u8(bytes)?;
    for _ in 0..count {
        rest = behind_text(rest)?;
    }
    Ok(rest)
}

/// The bytes of a list of conditions, which has their number in a byte before it, and those behind it.
fn conditions_in(bytes: &[u8]) -> Result<(&[u8], &[u8]), FieldFault> {
    let (count, rest) = read_u8(bytes)?;
    read_bytes(usize::from(count) * CONDITION_BYTES, rest)
}

/// The same of a list of aggregates.
fn aggregates_in(bytes: &[u8]) -> Result<(&[u8], &[u8]), FieldFault> {
    let (count, rest) = read_u8(bytes)?;
    read_bytes(usize::from(count) * AGGREGATE_BYTES, rest)
}

/// The bytes of the bounds of sources, which have their number in a byte before them, where there are any. Nothing
/// stands behind them.
fn bounds_in(bytes: &[u8]) -> Result<&[u8], FieldFault> {
    if bytes.is_empty() {
        return Ok(bytes);
    }
    let (count, rest) = read_u8(bytes)?;
    let (bounds, behind) = read_bytes(usize::from(count) * BOUND_BYTES, rest)?;
    if bounds.is_empty() || !behind.is_empty() {
        return Err(FieldFault::Range);
    }
    Ok(bounds)
}

fn parts_of(bytes: &[u8]) -> Result<Parts<'_>, FieldFault> {
    let (numbers, rest) = numbers_in(bytes)?;
    let rest = behind_texts(rest)?;
    let (filters, rest) = conditions_in(rest)?;
    let (aggregates, rest) = aggregates_in(rest)?;
    let (having, rest) = conditions_in(rest)?;
    let bounds = bounds_in(rest)?;
    Ok(Parts {
        numbers,
        filters,
        aggregates,
        having,
        bounds,
    })
}

/// Tells of a number that is another one.
fn check_number(
    alloc: Global,
    found: &mut Findings,
    name: &str,
    saved: i64,
    planned: i64,
) -> Result<(), AllocError> {
    if saved == planned {
        return Ok(());
    }
    let sentence = format!(in alloc;
        "{name} was {saved} when the savepoint was made, and is {planned} in the plan: a job goes on with the plan that it began with"
    )?;
    found.tell(0, sentence)
}

/// Tells of a list that is another one.
fn check_list(
    alloc: Global,
    found: &mut Findings,
    name: &str,
    saved: &[u8],
    planned: &[u8],
) -> Result<(), AllocError> {
    if saved == planned {
        return Ok(());
    }
    let sentence = format!(in alloc;
        "the plan has other {name} than when the savepoint was made: a job goes on with the plan that it began with"
    )?;
    found.tell(0, sentence)
}

/// Tells of the parts that are others.
fn check_parts(
    alloc: Global,
    found: &mut Findings,
    saved: &Parts<'_>,
    planned: &Parts<'_>,
) -> Result<(), AllocError> {
    let numbers = saved.numbers.iter().zip(planned.numbers.iter());
    for (name, (saved, planned)) in NUMBERS.iter().zip(numbers) {
        check_number(alloc, found, name, *saved, *planned)?;
    }
    check_list(
        alloc,
        found,
        "conditions of filters",
        saved.filters,
        planned.filters,
    )?;
    check_list(
        alloc,
        found,
        "aggregates",
        saved.aggregates,
        planned.aggregates,
    )?;
    check_list(
        alloc,
        found,
        "conditions of `having`",
        saved.having,
        planned.having,
    )?;
    check_list(
        alloc,
        found,
        "bounds of `watermarks`",
        saved.bounds,
        planned.bounds,
    )
}

/// Tells of what of a plan is another than when the savepoint was made.
pub(crate) fn check_plan(
    alloc: Global,
    found: &mut Findings,
    plan: &Plan,
    contents: &Contents,
) -> Result<(), AllocError> {
    let record = plan.record(alloc)?;
    match (parts_of(contents.plan_record.as_slice()), parts_of(&record)) {
        (Ok(saved), Ok(planned)) => check_parts(alloc, found, &saved, &planned),
        _ => Ok(()),
    }
}
