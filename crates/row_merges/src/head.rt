//! A text of rows with its next row at hand.

ghost use Rattle.std.specs.Prelude.{Ok, IfOk, IfErr};
ghost use Rattle.row_lines.specs.Sequences.{IsNextPlace};
ghost use Rattle.row_merges.specs.Refusals.{RefusesNext};

use crate::fault::{MergeFault, fault_at};
use plan_model::Pane;
use row_lines::{RowLines, RowPlace};
use std::alloc::Global;
use std::io::Read;

/// Where the next row of the text at a place stands.
fn next_row<R: Read + Drop>(
    rows: &mut RowLines<R>,
    place: usize,
) -> Result<Option<RowPlace>, MergeFault>
    ensures next { IfOk result (λ row. IsNextPlace R.remaining rows.old rows.new (Ok row)) }
    ensures refused { IfErr result (RefusesNext R.remaining rows.old rows.new place) }
{
    match rows.advance_place() {
        Ok(row) => Ok(row),
        Err(fault) => Err(fault_at(place, rows.line_number(), fault)),
    }
}

/// A text of rows with its next row at hand: where it stands, while its text is the line that was read last.
#[derive(Drop)]
pub(crate) struct Head<R> {
    pub(crate) rows: RowLines<R>,
    pub(crate) row: Option<RowPlace>,
}

impl<R: Read + Drop> Head<R> {
    ghost use Rattle.std.specs.Prelude.{◌≡◌, ◌++◌, Ok, IfOk, IfErr, OnOk, option_map};
    ghost use Rattle.row_lines.specs.Sequences.{IsNextPlace};
    ghost use Rattle.row_merges.specs.Merges.{IsOpened, line_at_hand, pane_in};
    ghost use Rattle.row_merges.specs.Refusals.{RefusesNext};

    /// A text, the one at this place, before its first row.
    pub(crate) fn new(alloc: Global, text: R, place: usize) -> Result<Head<R>, MergeFault>
        ensures { IfOk result (IsOpened R.remaining (R.remaining text)) }
    {
        let mut rows = RowLines::new(alloc, text, None)?;
        let row = next_row(&mut rows, place)?;
        Ok(Head { rows, row })
    }

    /// Where the row at hand stands, if there is one.
    pub(crate) fn pane(&self) -> Option<Pane>
        ensures { result ≡ option_map pane_in self.now.row }
    {
        match self.row {
            Some(row) => Some(row.pane),
            None => None,
        }
    }

    /// Puts the line of the row at hand behind a text, as it was read, and goes on to the next one.
    pub(crate) fn pass(&mut self, place: usize, text: &mut Vec<u8>) -> Result<(), MergeFault>
        ensures text { OnOk result (text.new.items ≡ text.old.items ++ line_at_hand self.old) }
        ensures next { OnOk result (IsNextPlace R.remaining self.old.rows self.new.rows (Ok self.new.row)) }
        ensures refused { IfErr result (RefusesNext R.remaining self.old.rows self.new.rows place) }
    {
        if self.row.is_some() {
            text.extend_from_slice(self.rows.line())?;
            text.push(b'\n')?;
        }
        self.row = next_row(&mut self.rows, place)?;
        Ok(())
    }
}
