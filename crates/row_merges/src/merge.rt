//! Texts of rows, gone through together.

ghost use Rattle.std.specs.Prelude.{◌≡◌, ◌⊎◌, [], None, Some, false, OnOk, IfErr, IfSome};
ghost use Rattle.std.specs.Ordering.{is_gt};
ghost use Rattle.std.specs.Io.KnownBytes.{Appends};
ghost use Rattle.plan_model.specs.Rows.{pane_cmp};

use crate::fault::{MergeFault, fault_at};
use crate::head::Head;
use plan_model::Pane;
use row_lines::{RowPlace, admit};
use std::alloc::Global;
use std::io::{Read, Write};

/// From how many bytes on a text is written.
const CHUNK: usize = 65536;

/// Writes a text, and empties it.
fn write_text<W: Write>(out: &mut W, text: &mut Vec<u8>) -> Result<(), MergeFault>
    ensures written { OnOk result (Appends (W.contents out.old) (W.contents out.new) text.old.items) }
    ensures empty { OnOk result (text.new.items ≡ []) }
    ensures refused { IfErr result (λ told. told ≡ MergeFault.Write) }
{
    if out.write_all(text.as_slice()).is_err() {
        return Err(MergeFault::Write);
    }
    text.clear();
    Ok(())
}

/// A place among texts, and where its row stands.
type At = (usize, Pane);

/// The one whose row stands first: a place that was found, if one was, or another one, if it has a row.
fn earlier(found: Option<At>, place: usize, pane: Option<Pane>) -> Option<At>
    ensures none { result ≡ None → (found ≡ None) × (pane ≡ None) }
    ensures some { IfSome result (λ at. (found ≡ Some at) ⊎ ((at.0 ≡ place) × (pane ≡ Some at.1))) }
    ensures least { IfSome result (λ at. IfSome found (λ other. is_gt (pane_cmp at.1 other.1) ≡ false) × IfSome pane (λ p. is_gt (pane_cmp at.1 p) ≡ false)) }
{
    match (found, pane) {
        (found, None) => found,
        (None, Some(pane)) => Some((place, pane)),
        (Some((other, first)), Some(pane)) => Some(if pane < first {
            (place, pane)
        } else {
            (other, first)
        }),
    }
}

/// Texts of rows, which are written as one.
#[derive(Drop)]
pub struct Merge<R> {
    alloc: Global,
    heads: Vec<Head<R>>,
    /// How many numbers each row has, and where the last one stood, once one was passed.
    width: Option<usize>,
    last: Option<Pane>,
}

impl<R: Read + Drop> Merge<R> {
    ghost use Rattle.std.specs.Prelude.{◌≡◌, ◌<◌, ◌++◌, ℕ, List, [], ◌∷◌, Option, None, true, false, length, IfOk, IfErr, IfSome, OnOk};
    ghost use Rattle.std.specs.List.{All};
    ghost use Rattle.row_merges.specs.Merges.{HoldsTexts, MergesRows, AreAllBehind, HasRowAt, IsFirst, IsAdmitted, Steps, NothingLeft};
    ghost use Rattle.row_merges.specs.Refusals.{RefusesRow, RefusesAt, IsOfText};

    /// No texts.
    pub fn new(alloc: Global) -> Merge<R>
        ensures { HoldsTexts R.remaining [] result }
    {
        Merge {
            alloc,
            heads: Vec::new(alloc),
            width: None,
            last: None,
        }
    }

    /// Takes one text more, and reads its first row.
    ///
    /// # Errors
    ///
    /// `Text` with the place of this text, where it has no row in front; `Memory`.
    pub fn add(&mut self, text: R) -> Result<(), MergeFault>
        ensures { OnOk result ((texts : List (Option (List ℕ))) → HoldsTexts R.remaining texts self.old → HoldsTexts R.remaining (texts ++ R.remaining text ∷ []) self.new) }
    {
        let head = Head::new(self.alloc, text, self.heads.len())?;
        self.heads.push(head)?;
        Ok(())
    }

    /// The place of the text whose row stands first, if there is a row.
    fn first(&self) -> Option<usize>
        ensures some { IfSome result (HasRowAt self.now.heads.items) }
        ensures least { IfSome result (IsFirst self.now.heads.items) }
        ensures none { result ≡ None → NothingLeft self.now }
    {
        let mut found = None;
        for place in 0..self.heads.len() {
            let head: &Head<R> = &self.heads[place];
            found = earlier(found, place, head.pane());
        }
        match found {
            Some((place, _)) => Some(place),
            None => None,
        }
    }

    /// Refuses the row at hand of the text at a place where it has another number of numbers than those before, or is
    /// not behind the last one. Tells how many numbers it has, and where it stands.
    fn admit(&self, place: usize) -> Result<RowPlace, MergeFault>
        requires { HasRowAt self.now.heads.items place }
        ensures admitted { IfOk result (IsAdmitted self.now place) }
        ensures refused { IfErr result (RefusesRow self.now place) }
    {
        let head: &Head<R> = &self.heads[place];
        let row = head.row.unwrap();
        match admit(self.width, self.last, row) {
            Ok(()) => Ok(row),
            Err(fault) => Err(fault_at(place, head.rows.line_number(), fault)),
        }
    }

    /// Puts the line of the row at hand of the text at a place behind a text, and goes on behind it.
    fn pass(&mut self, place: usize, text: &mut Vec<u8>) -> Result<(), MergeFault>
        requires { HasRowAt self.old.heads.items place }
        ensures steps { OnOk result (AreAllBehind self.old → Steps R.remaining self.old self.new text.old.items text.new.items) }
        ensures count { OnOk result (length self.new.heads.items ≡ length self.old.heads.items) }
        ensures refused { IfErr result (RefusesAt R.remaining self.old place) }
    {
        let row = self.admit(place)?;
        let head: &mut Head<R> = &mut self.heads[place];
        head.pass(place, text)?;
        self.width = Some(row.width);
        self.last = Some(row.pane);
        Ok(())
    }

    /// Puts the line of what comes first behind a text and goes on behind it, or tells that there is nothing.
    fn advance(&mut self, text: &mut Vec<u8>) -> Result<bool, MergeFault>
        ensures steps { IfOk result (λ more. more ≡ true → AreAllBehind self.old → Steps R.remaining self.old self.new text.old.items text.new.items) }
        ensures ends { IfOk result (λ more. more ≡ false → NothingLeft self.old × (text.new.items ≡ text.old.items)) }
        ensures count { OnOk result (length self.new.heads.items ≡ length self.old.heads.items) }
        ensures refused { IfErr result (λ told. (place : ℕ) × HasRowAt self.old.heads.items place × IsFirst self.old.heads.items place × RefusesAt R.remaining self.old place told) }
    {
        let Some(place) = self.first() else {
            return Ok(false);
        };
        self.pass(place, text)?;
        Ok(true)
    }

    /// Writes the rows of all texts, in the order of start and key.
    ///
    /// # Errors
    ///
    /// `Text` with the place of a text and the line at which it is none of rows in order with as many numbers as those
    /// before, or has a row at the start and key of another text's; `Write`; `Memory`. What comes before may have been
    /// written then.
    pub fn write<W: Write>(self, out: &mut W) -> Result<(), MergeFault>
        ensures rows { OnOk result ((texts : List (Option (List ℕ))) → HoldsTexts R.remaining texts self → MergesRows texts (W.contents out.old) (W.contents out.new)) }
        ensures refused { IfErr result (IsOfText (length self.heads.items)) }
    {
        let mut merge = self;
        let mut text = Vec::new(merge.alloc);
        for _ in 0..u64::MAX {
            if !merge.advance(&mut text)? {
                write_text(out, &mut text)?;
                return Ok(());
            }
            if text.len() >= CHUNK {
                write_text(out, &mut text)?;
            }
        }
        Err(MergeFault::Write)
    }
}
