//! Members that are missing, unknown or of another form.

ghost use Rattle.place_notes.specs.Notes.{TellsMore};

use crate::kinds::Kind;
use place_notes::{Notes, Owner, check_object, check_objects, items_of, member_of, text_of};
use std::alloc::{AllocError, Global};
use text_places::{Part, Placed};

/// The kind of an aggregate: a count has no column.
fn aggregate_kind(alloc: Global, aggregate: &Placed<'_>) -> Result<Kind, AllocError> {
    let function = member_of(alloc, aggregate, "fn")?;
    match function.and_then(|value| text_of(&value)) {
        Some("count") => Ok(Kind::Count),
        _ => Ok(Kind::Aggregate),
    }
}

fn check_aggregates(notes: &mut Notes, items: &[Part<'_>]) -> Result<(), AllocError>
    ensures { TellsMore notes.old notes.new }
{
    for (i, item) in items.iter().enumerate() {
        let shape = aggregate_kind(notes.alloc(), &item.value)?.shape();
        check_object(notes, Owner::Listed("aggregate", i), &item.value, shape)?;
    }
    Ok(())
}

/// Tells of the objects in the list of an object under a name.
fn check_listed(
    notes: &mut Notes,
    object: &Placed<'_>,
    name: &str,
    noun: &'static str,
    kind: Kind,
) -> Result<(), AllocError>
    ensures { TellsMore notes.old notes.new }
{
    let items = items_of(notes.alloc(), object, name)?;
    check_objects(notes, noun, &items, kind.shape())
}

/// Tells of the watermarks of the sources in a list.
fn check_watermarks(notes: &mut Notes, sources: &[Part<'_>]) -> Result<(), AllocError>
    ensures { TellsMore notes.old notes.new }
{
    let shape = Kind::Watermarks.shape();
    for (i, source) in sources.iter().enumerate() {
        if let Some(watermarks) = member_of(notes.alloc(), &source.value, "watermarks")? {
            let owner = Owner::Listed("the `watermarks` of source", i);
            check_object(notes, owner, &watermarks, shape)?;
        }
    }
    Ok(())
}

/// Tells of the sources, and of the watermarks of each.
fn check_sources(notes: &mut Notes, plan: &Placed<'_>) -> Result<(), AllocError>
    ensures { TellsMore notes.old notes.new }
{
    let sources = items_of(notes.alloc(), plan, "sources")?;
    check_objects(notes, "source", &sources, Kind::Source.shape())?;
    check_watermarks(notes, &sources)
}

fn check_window(notes: &mut Notes, window: &Placed<'_>) -> Result<(), AllocError>
    ensures { TellsMore notes.old notes.new }
{
    check_object(
        notes,
        Owner::One("the window"),
        window,
        Kind::Window.shape(),
    )?;
    let aggregates = items_of(notes.alloc(), window, "aggregates")?;
    check_aggregates(notes, &aggregates)?;
    check_listed(notes, window, "having", "having condition", Kind::Having)
}

/// Tells of the members that are missing, unknown or of another form.
pub(crate) fn check_shape(notes: &mut Notes, plan: &Placed<'_>) -> Result<(), AllocError>
    ensures { TellsMore notes.old notes.new }
{
    check_object(notes, Owner::One("the plan"), plan, Kind::Plan.shape())?;
    check_sources(notes, plan)?;
    check_listed(notes, plan, "filters", "filter", Kind::Filter)?;
    match member_of(notes.alloc(), plan, "window")? {
        Some(window) => check_window(notes, &window),
        None => Ok(()),
    }
}
