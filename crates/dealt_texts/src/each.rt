//! The texts of all parts, each taken the same step.

ghost use Rattle.std.specs.Prelude.{◌≡◌, ◌<◌, ◌==◌, length, replicate, OnOk, IfOk};
ghost use Rattle.entry_texts.specs.Partitions.{Row};
ghost use Rattle.dealt_texts.specs.Parts.{nothing, closed, with_marks, whole};
ghost use Rattle.dealt_texts.specs.Steps.{Each, placed, dealt};

use crate::part::PartText;
use import_entries::Place;
use std::alloc::{AllocError, Global};

/// So many texts without an entry.
pub(crate) fn empty_texts(alloc: Global, parts: usize) -> Result<Vec<PartText>, AllocError>
    ensures { IfOk result (λ texts. texts.items ≡ replicate parts nothing) }
{
    let mut texts = Vec::with_capacity(alloc, parts)?;
    for _place in 0..parts {
        texts.push(PartText::new(alloc))?;
    }
    Ok(texts)
}

/// Has an entry begin in each part, behind a watermark or none.
fn begin_all(texts: &mut [PartText], mark: Option<i64>) -> Result<(), AllocError>
    ensures { OnOk result (Each (λ i part. with_marks mark (closed part)) texts.old texts.new) }
{
    for place in 0..texts.len() {
        texts[place].begin(mark)?;
    }
    Ok(())
}

/// Puts into each part what stands between entries where a row has this place in the whole.
pub(crate) fn place_all(texts: &mut [PartText], place: Place) -> Result<(), AllocError>
    ensures { OnOk result (Each (λ i part. placed place part) texts.old texts.new) }
{
    match place {
        Place::Joins => Ok(()),
        Place::Begins(mark) => begin_all(texts, mark),
    }
}

/// Puts a row into the part at a place, if there is one.
pub(crate) fn push_at(
    texts: &mut [PartText],
    owner: usize,
    first: i64,
    others: &[i64],
) -> Result<(), AllocError>
    ensures { (row : Row) → row.first ≡ first → row.others ≡ others.now → owner < length texts.old → OnOk result (Each (λ i part. dealt (owner == i) row part) texts.old texts.new) }
{
    if owner >= texts.len() {
        return Ok(());
    }
    texts[owner].push_row(first, others)
}

/// Ends the partition in each part.
pub(crate) fn end_all(texts: &mut [PartText]) -> Result<(), AllocError>
    ensures { OnOk result (Each (λ i part. whole part) texts.old texts.new) }
{
    for place in 0..texts.len() {
        texts[place].end()?;
    }
    Ok(())
}
