//! Uids.

ghost use Rattle.place_notes.specs.Notes.{TellsMore};

use place_notes::{Notes, items_of, member_of, text_of};
use plan_model::is_uid;
use std::alloc::{AllocError, Global};
use std::collections::BTreeSet;
use text_places::{Part, Placed};

/// A uid, and where it stands.
#[derive(Clone, Copy)]
struct PlacedUid<'v> {
    text: &'v str,
    offset: usize,
}

/// The uid of an object, if it has one.
fn uid_of<'v>(alloc: Global, object: &Placed<'v>) -> Result<Option<PlacedUid<'v>>, AllocError> {
    let Some(value) = member_of(alloc, object, "uid")? else {
        return Ok(None);
    };
    let offset = value.offset;
    Ok(text_of(&value).map(|text| PlacedUid { text, offset }))
}

/// Puts the uid of an object after those that are there.
fn put_uid<'v>(
    alloc: Global,
    uids: &mut Vec<PlacedUid<'v>>,
    object: &Placed<'v>,
) -> Result<(), AllocError> {
    if let Some(uid) = uid_of(alloc, object)? {
        uids.push(uid)?;
    }
    Ok(())
}

fn put_uids<'v>(
    alloc: Global,
    uids: &mut Vec<PlacedUid<'v>>,
    items: &[Part<'v>],
) -> Result<(), AllocError> {
    for item in items {
        put_uid(alloc, uids, &item.value)?;
    }
    Ok(())
}

/// Puts the uids of a list of a plan after those that are there.
fn put_listed<'v>(
    alloc: Global,
    uids: &mut Vec<PlacedUid<'v>>,
    plan: &Placed<'v>,
    name: &str,
) -> Result<(), AllocError> {
    let items = items_of(alloc, plan, name)?;
    put_uids(alloc, uids, &items)
}

/// The uids of a plan, in its order: sources, filters, window.
fn uids_of<'v>(alloc: Global, plan: &Placed<'v>) -> Result<Vec<PlacedUid<'v>>, AllocError> {
    let mut uids = Vec::new(alloc);
    put_listed(alloc, &mut uids, plan, "sources")?;
    put_listed(alloc, &mut uids, plan, "filters")?;
    if let Some(window) = member_of(alloc, plan, "window")? {
        put_uid(alloc, &mut uids, &window)?;
    }
    Ok(uids)
}

fn tell_no_uid(notes: &mut Notes, uid: PlacedUid<'_>) -> Result<(), AllocError>
    ensures { TellsMore notes.old notes.new }
{
    let text = uid.text;
    let sentence = format!(in notes.alloc();
        "{text:?} is no uid: 1 to 64 characters of a-z, 0-9 and hyphen"
    )?;
    notes.tell(uid.offset, sentence)
}

/// Tells of texts that are no uid.
pub(crate) fn check_uids(notes: &mut Notes, plan: &Placed<'_>) -> Result<(), AllocError>
    ensures { TellsMore notes.old notes.new }
{
    let uids = uids_of(notes.alloc(), plan)?;
    for uid in &uids {
        if !is_uid(uid.text) {
            tell_no_uid(notes, *uid)?;
        }
    }
    Ok(())
}

fn tell_twice(notes: &mut Notes, uid: PlacedUid<'_>) -> Result<(), AllocError>
    ensures { TellsMore notes.old notes.new }
{
    let text = uid.text;
    let sentence = format!(in notes.alloc(); "{text:?} is the uid of another operator too")?;
    notes.tell(uid.offset, sentence)
}

fn tell_repeated(notes: &mut Notes, uids: &[PlacedUid<'_>]) -> Result<(), AllocError>
    ensures { TellsMore notes.old notes.new }
{
    let mut seen = BTreeSet::new(notes.alloc());
    for uid in uids {
        if !seen.insert(uid.text)? {
            tell_twice(notes, *uid)?;
        }
    }
    Ok(())
}

/// Tells of uids that stand before in the plan.
pub(crate) fn check_uids_twice(notes: &mut Notes, plan: &Placed<'_>) -> Result<(), AllocError>
    ensures { TellsMore notes.old notes.new }
{
    let uids = uids_of(notes.alloc(), plan)?;
    tell_repeated(notes, &uids)
}
