//! Numbers that are outside their limits, and columns.

ghost use Rattle.place_notes.specs.Notes.{TellsMore};

use key_groups::MOST_GROUPS;
use place_notes::{
    Member, Notes, Owner, Range, check_range, items_of, member_of, tell_value, whole_of,
};
use plain_data::MOST_COLUMNS;
use plan_model::{GREATEST_BOUND, MOST_PARTITIONS};
use std::alloc::{AllocError, Global};
use std::fmt;
use text_places::{Part, Placed};

/// The columns from 0 to a last one.
#[derive(Clone, Copy)]
struct Columns {
    last: i64,
}

impl fmt::Display for Columns {
    fn fmt<W: fmt::Write>(&self, f: &mut fmt::Formatter<W>) -> fmt::Result {
        let last = self.last;
        write!(f, "columns are counted from 0 to {last}")
    }
}

/// Tells of a number that names no column.
fn check_column(notes: &mut Notes, member: Member<'_, '_>, columns: i64) -> Result<(), AllocError>
    ensures { TellsMore notes.old notes.new }
{
    let last = columns.saturating_sub(1);
    let range = Range {
        least: 0,
        most: last,
    };
    match member_of(notes.alloc(), member.object, member.name)? {
        Some(value) if !range.has(whole_of(&value)) => tell_value(
            notes,
            member.owner,
            member.name,
            &value,
            Columns { last },
        ),
        _ => Ok(()),
    }
}

/// Tells of the columns of the objects in a list.
fn check_columns_of(
    notes: &mut Notes,
    noun: &'static str,
    items: &[Part<'_>],
    columns: i64,
) -> Result<(), AllocError>
    ensures { TellsMore notes.old notes.new }
{
    for (i, item) in items.iter().enumerate() {
        let member = Member {
            owner: Owner::Listed(noun, i),
            object: &item.value,
            name: "column",
        };
        check_column(notes, member, columns)?;
    }
    Ok(())
}

/// A member of the plan itself.
fn of_plan<'m>(plan: &'m Placed<'m>, name: &'static str) -> Member<'static, 'm> {
    Member {
        owner: Owner::One("the plan"),
        object: plan,
        name,
    }
}

/// How many columns a plan may have.
fn column_counts() -> Range {
    Range {
        least: 1,
        most: i64::from(MOST_COLUMNS),
    }
}

/// The number of columns of a plan, if it may have so many.
fn columns_of(alloc: Global, plan: &Placed<'_>) -> Result<Option<i64>, AllocError> {
    let columns = member_of(alloc, plan, "columns")?.and_then(|value| whole_of(&value));
    Ok(if column_counts().has(columns) {
        columns
    } else {
        None
    })
}

/// Tells of a number of columns that is not 1 to 16.
pub(crate) fn check_columns(notes: &mut Notes, plan: &Placed<'_>) -> Result<(), AllocError>
    ensures { TellsMore notes.old notes.new }
{
    check_range(notes, of_plan(plan, "columns"), column_counts())
}

fn check_filter_columns(
    notes: &mut Notes,
    plan: &Placed<'_>,
    columns: i64,
) -> Result<(), AllocError>
    ensures { TellsMore notes.old notes.new }
{
    let filters = items_of(notes.alloc(), plan, "filters")?;
    check_columns_of(notes, "filter", &filters, columns)
}

fn check_aggregate_columns(
    notes: &mut Notes,
    plan: &Placed<'_>,
    columns: i64,
) -> Result<(), AllocError>
    ensures { TellsMore notes.old notes.new }
{
    let Some(window) = member_of(notes.alloc(), plan, "window")? else {
        return Ok(());
    };
    let aggregates = items_of(notes.alloc(), &window, "aggregates")?;
    check_columns_of(notes, "aggregate", &aggregates, columns)
}

/// Tells of numbers that name no column.
pub(crate) fn check_column_indices(notes: &mut Notes, plan: &Placed<'_>) -> Result<(), AllocError>
    ensures { TellsMore notes.old notes.new }
{
    let Some(columns) = columns_of(notes.alloc(), plan)? else {
        return Ok(());
    };
    check_column(notes, of_plan(plan, "time"), columns)?;
    check_column(notes, of_plan(plan, "key"), columns)?;
    check_filter_columns(notes, plan, columns)?;
    check_aggregate_columns(notes, plan, columns)
}

/// Tells of a number of key groups that is not 1 to 32768.
pub(crate) fn check_max(notes: &mut Notes, plan: &Placed<'_>) -> Result<(), AllocError>
    ensures { TellsMore notes.old notes.new }
{
    let most = i64::from(MOST_GROUPS);
    check_range(
        notes,
        of_plan(plan, "maxParallelism"),
        Range { least: 1, most },
    )
}

/// Tells of sources that have not 1 to 64 partitions.
pub(crate) fn check_partitions(notes: &mut Notes, plan: &Placed<'_>) -> Result<(), AllocError>
    ensures { TellsMore notes.old notes.new }
{
    let most = i64::from(MOST_PARTITIONS);
    let sources = items_of(notes.alloc(), plan, "sources")?;
    for (i, source) in sources.iter().enumerate() {
        let member = Member {
            owner: Owner::Listed("source", i),
            object: &source.value,
            name: "partitions",
        };
        check_range(notes, member, Range { least: 1, most })?;
    }
    Ok(())
}

/// Tells of bounds of watermarks that are not 0 to 2^40.
pub(crate) fn check_bounds(notes: &mut Notes, plan: &Placed<'_>) -> Result<(), AllocError>
    ensures { TellsMore notes.old notes.new }
{
    let range = Range {
        least: 0,
        most: GREATEST_BOUND,
    };
    let sources = items_of(notes.alloc(), plan, "sources")?;
    for (i, source) in sources.iter().enumerate() {
        if let Some(watermarks) = member_of(notes.alloc(), &source.value, "watermarks")? {
            let member = Member {
                owner: Owner::Listed("the `watermarks` of source", i),
                object: &watermarks,
                name: "bound",
            };
            check_range(notes, member, range)?;
        }
    }
    Ok(())
}
