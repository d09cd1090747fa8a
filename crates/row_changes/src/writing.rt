//! What changed, line by line.

ghost use Rattle.std.specs.Prelude.{◌≡◌, ◌++◌, [], Ok, IfOk, OnOk, string_bytes};
ghost use Rattle.std.specs.Io.KnownBytes.{Appends};
ghost use Rattle.row_lines.specs.Sequences.{IsNext};
ghost use Rattle.row_changes.specs.Merging.{WritesChanges};

use crate::change::{push_both, push_gone, push_new};
use crate::fault::ChangesFault;
use crate::order::{First, first_of};
use plan_model::Row;
use row_lines::{RowLines, RowsFault};
use std::alloc::Global;
use std::io::{Read, Write};

/// From how many bytes on a text is written.
const CHUNK: usize = 65536;

fn old_fault<R: Read + Drop>(olds: &RowLines<R>, fault: RowsFault) -> ChangesFault {
    match fault {
        RowsFault::Memory => ChangesFault::Memory,
        fault => ChangesFault::Old(fault, olds.line_number()),
    }
}

fn new_fault<R: Read + Drop>(news: &RowLines<R>, fault: RowsFault) -> ChangesFault {
    match fault {
        RowsFault::Memory => ChangesFault::Memory,
        fault => ChangesFault::New(fault, news.line_number()),
    }
}

/// The next row of the old text.
fn next_old<R: Read + Drop>(olds: &mut RowLines<R>) -> Result<Option<Row>, ChangesFault>
    ensures { IfOk result (λ row. IsNext R.remaining olds.old olds.new (Ok row)) }
{
    match olds.advance() {
        Ok(row) => Ok(row),
        Err(fault) => Err(old_fault(olds, fault)),
    }
}

/// The next row of the new text.
fn next_new<R: Read + Drop>(news: &mut RowLines<R>) -> Result<Option<Row>, ChangesFault>
    ensures { IfOk result (λ row. IsNext R.remaining news.old news.new (Ok row)) }
{
    match news.advance() {
        Ok(row) => Ok(row),
        Err(fault) => Err(new_fault(news, fault)),
    }
}

/// Writes a text, and empties it.
fn write_text<W: Write>(out: &mut W, text: &mut String) -> Result<(), ChangesFault>
    ensures written { OnOk result (Appends (W.contents out.old) (W.contents out.new) (string_bytes text.old)) }
    ensures empty { OnOk result (string_bytes text.new ≡ []) }
{
    if out.write_all(text.as_bytes()).is_err() {
        return Err(ChangesFault::Write);
    }
    text.clear();
    Ok(())
}

/// Two texts of rows, each with its next row at hand.
#[derive(Drop)]
struct Pair<R, S> {
    olds: RowLines<R>,
    news: RowLines<S>,
    old_row: Option<Row>,
    new_row: Option<Row>,
}

impl<R: Read + Drop, S: Read + Drop> Pair<R, S> {
    ghost use Rattle.std.specs.Prelude.{◌≡◌, ◌++◌, Option, None, true, false, IsSome, IfOk, OnOk, string_bytes};
    ghost use Rattle.std.specs.Option.{option_to_list};
    ghost use Rattle.plan_model.specs.declared.spec.Pane.{Pane as PaneValue};
    ghost use Rattle.row_changes.specs.Changes.{change_of, text_of_changes};
    ghost use Rattle.row_changes.specs.Merging.{Begins, PassesOld, PassesNew, PassesBoth, AreBehind, Steps, NothingLeft};

    /// The first rows of two texts. Those of the new one have as many numbers as the old one's.
    fn new(alloc: Global, old: R, new: S) -> Result<Pair<R, S>, ChangesFault>
        ensures rows { IfOk result (Begins R.remaining S.remaining (R.remaining old) (S.remaining new)) }
        ensures behind { IfOk result (AreBehind None) }
    {
        let mut olds = RowLines::new(alloc, old, None)?;
        let old_row = next_old(&mut olds)?;
        let mut news = RowLines::new(alloc, new, olds.width())?;
        let new_row = next_new(&mut news)?;
        Ok(Pair {
            olds,
            news,
            old_row,
            new_row,
        })
    }

    /// Puts the line of the old row behind a text, and goes on to the next one.
    fn pass_old(&mut self, text: &mut String) -> Result<(), ChangesFault>
        ensures text { OnOk result (string_bytes text.new ≡ string_bytes text.old ++ text_of_changes (option_to_list (change_of self.old.old_row None))) }
        ensures passes { OnOk result (PassesOld R.remaining self.old self.new) }
    {
        if let Some(row) = &self.old_row {
            push_gone(text, row)?;
        }
        self.old_row = next_old(&mut self.olds)?;
        Ok(())
    }

    /// The same with the new row.
    fn pass_new(&mut self, text: &mut String) -> Result<(), ChangesFault>
        ensures text { OnOk result (string_bytes text.new ≡ string_bytes text.old ++ text_of_changes (option_to_list (change_of None self.old.new_row))) }
        ensures passes { OnOk result (PassesNew S.remaining self.old self.new) }
    {
        if let Some(row) = &self.new_row {
            push_new(text, row)?;
        }
        self.new_row = next_new(&mut self.news)?;
        Ok(())
    }

    /// The same with both rows.
    fn pass_both(&mut self, text: &mut String) -> Result<(), ChangesFault>
        requires olds { IsSome self.old.old_row }
        requires news { IsSome self.old.new_row }
        ensures text { OnOk result (string_bytes text.new ≡ string_bytes text.old ++ text_of_changes (option_to_list (change_of self.old.old_row self.old.new_row))) }
        ensures passes { OnOk result (PassesBoth R.remaining S.remaining self.old self.new) }
    {
        if let (Some(old), Some(new)) = (&self.old_row, &self.new_row) {
            push_both(text, old, new)?;
        }
        self.old_row = next_old(&mut self.olds)?;
        self.new_row = next_new(&mut self.news)?;
        Ok(())
    }

    /// Puts the lines of what comes first behind a text and goes on behind it, or tells that there is nothing.
    fn advance(&mut self, text: &mut String) -> Result<bool, ChangesFault>
        ensures steps { (last : Option PaneValue) → AreBehind last self.old → IfOk result (λ more. more ≡ true
            → Steps R.remaining S.remaining last self.old self.new (string_bytes text.old) (string_bytes text.new)) }
        ensures ends { IfOk result (λ more. more ≡ false → NothingLeft self.old × (string_bytes text.new ≡ string_bytes text.old)) }
    {
        match first_of(self.old_row.as_ref(), self.new_row.as_ref()) {
            First::None => return Ok(false),
            First::Old => self.pass_old(text)?,
            First::New => self.pass_new(text)?,
            First::Both => self.pass_both(text)?,
        }
        Ok(true)
    }
}

/// Writes what changed between two texts of rows: a line for each start and key at which one text has a row and the
/// other has none, or one with another end or other numbers, in their order.
///
/// # Errors
///
/// `Old` and `New` with the line at which a text is none of rows in order with as many numbers as the first; `Write`;
/// `Memory`. What comes before may have been written then.
pub fn write_changes<R: Read + Drop, S: Read + Drop, W: Write>(
    alloc: Global,
    old: R,
    new: S,
    out: &mut W,
) -> Result<(), ChangesFault>
    ensures { OnOk result (WritesChanges (R.remaining old) (S.remaining new) (W.contents out.old) (W.contents out.new)) }
{
    let mut pair = Pair::new(alloc, old, new)?;
    let mut text = String::new(alloc);
    for _ in 0..u64::MAX {
        if !pair.advance(&mut text)? {
            write_text(out, &mut text)?;
            return Ok(());
        }
        if text.len() >= CHUNK {
            write_text(out, &mut text)?;
        }
    }
    Err(ChangesFault::Write)
}
