//! Lists that are too long or too short, and conditions on aggregates.

ghost use Rattle.place_notes.specs.Notes.{TellsMore};

use json::Token;
use place_notes::{Member, Notes, Owner, items_of, member_of, tell_value, whole_of};
use plan_model::{MOST_AGGREGATES, MOST_CONDITIONS, MOST_SOURCES};
use std::alloc::{AllocError, Global};
use std::fmt;
use text_places::Placed;

/// A list: its name, what its items are, and how many there may be.
#[derive(Clone, Copy)]
struct Counted {
    name: &'static str,
    noun: &'static str,
    least: usize,
    most: usize,
}

const SOURCES: Counted = Counted {
    name: "sources",
    noun: "sources",
    least: 1,
    most: MOST_SOURCES,
};

const FILTERS: Counted = Counted {
    name: "filters",
    noun: "filters",
    least: 0,
    most: MOST_CONDITIONS,
};

const HAVING: Counted = Counted {
    name: "having",
    noun: "having conditions",
    least: 0,
    most: MOST_CONDITIONS,
};

const AGGREGATES: Counted = Counted {
    name: "aggregates",
    noun: "aggregates",
    least: 1,
    most: MOST_AGGREGATES,
};

/// Tells of how many items a list has.
fn tell_count(
    notes: &mut Notes,
    offset: usize,
    count: usize,
    wanted: Counted,
) -> Result<(), AllocError>
    ensures { TellsMore notes.old notes.new }
{
    let (noun, least, most) = (wanted.noun, wanted.least, wanted.most);
    let sentence = format!(in notes.alloc();
        "there are {count} {noun}, and there have to be {least} to {most}"
    )?;
    notes.tell(offset, sentence)
}

/// How many items a list has.
fn count_of(alloc: Global, list: &Placed<'_>) -> Result<usize, AllocError> {
    Ok(list.parts(alloc)?.len())
}

/// Tells of a list under a name that has fewer or more items than it may have.
fn check_list(notes: &mut Notes, object: &Placed<'_>, wanted: Counted) -> Result<(), AllocError>
    ensures { TellsMore notes.old notes.new }
{
    let Some(list) = member_of(notes.alloc(), object, wanted.name)? else {
        return Ok(());
    };
    let count = count_of(notes.alloc(), &list)?;
    if wanted.least <= count && count <= wanted.most {
        return Ok(());
    }
    tell_count(notes, list.offset, count, wanted)
}

/// Tells of sources that are not 1 to 8.
pub(crate) fn check_sources(notes: &mut Notes, plan: &Placed<'_>) -> Result<(), AllocError>
    ensures { TellsMore notes.old notes.new }
{
    check_list(notes, plan, SOURCES)
}

/// Tells of more than 32 filters, and more than 32 having conditions.
pub(crate) fn check_conditions(notes: &mut Notes, plan: &Placed<'_>) -> Result<(), AllocError>
    ensures { TellsMore notes.old notes.new }
{
    check_list(notes, plan, FILTERS)?;
    match member_of(notes.alloc(), plan, "window")? {
        Some(window) => check_list(notes, &window, HAVING),
        None => Ok(()),
    }
}

/// The aggregates of a window, so many.
#[derive(Clone, Copy)]
struct Aggregates {
    count: usize,
}

impl fmt::Display for Aggregates {
    fn fmt<W: fmt::Write>(&self, f: &mut fmt::Formatter<W>) -> fmt::Result {
        let count = self.count;
        write!(f, "{count} aggregates are counted from 0")
    }
}

/// Whether a number names one of so many aggregates.
fn is_named(number: Option<i64>, count: usize) -> bool {
    matches!(number, Some(n) if usize::try_from(n).is_ok_and(|n| n < count))
}

/// Tells of a having condition that names no aggregate.
fn check_having(notes: &mut Notes, member: Member<'_, '_>, count: usize) -> Result<(), AllocError>
    ensures { TellsMore notes.old notes.new }
{
    match member_of(notes.alloc(), member.object, member.name)? {
        Some(value) if !is_named(whole_of(&value), count) => tell_value(
            notes,
            member.owner,
            member.name,
            &value,
            Aggregates { count },
        ),
        _ => Ok(()),
    }
}

/// How many aggregates a window has, if it has a list of them.
fn aggregates_of(alloc: Global, window: &Placed<'_>) -> Result<Option<usize>, AllocError> {
    match member_of(alloc, window, "aggregates")? {
        Some(list) if matches!(list.token, Token::BeginArray) => Ok(Some(count_of(alloc, &list)?)),
        _ => Ok(None),
    }
}

/// Tells of the having conditions of a window that name none of its aggregates.
fn check_havings(notes: &mut Notes, window: &Placed<'_>) -> Result<(), AllocError>
    ensures { TellsMore notes.old notes.new }
{
    let Some(count) = aggregates_of(notes.alloc(), window)? else {
        return Ok(());
    };
    let having = items_of(notes.alloc(), window, "having")?;
    for (i, item) in having.iter().enumerate() {
        let member = Member {
            owner: Owner::Listed("having condition", i),
            object: &item.value,
            name: "aggregate",
        };
        check_having(notes, member, count)?;
    }
    Ok(())
}

/// Tells of aggregates that are not 1 to 8, and of having conditions that name none of them.
pub(crate) fn check_aggregates(notes: &mut Notes, plan: &Placed<'_>) -> Result<(), AllocError>
    ensures { TellsMore notes.old notes.new }
{
    let Some(window) = member_of(notes.alloc(), plan, "window")? else {
        return Ok(());
    };
    check_list(notes, &window, AGGREGATES)?;
    check_havings(notes, &window)
}
