//! The rows of a text, one after the other.

ghost use Rattle.row_lines.specs.Sequences.{IsReadFault};

use crate::front::Front;
use crate::lines::{Lines, ReadFault, Step};
use crate::order::admit;
use crate::place::{RowPlace, front_place, place_of};
use crate::row::read_row;
use plan_model::{Pane, Row};
use std::alloc::{AllocError, Global};
use std::io::Read;

/// Why there is no next row.
#[derive(Clone, Copy, Debug, PartialEq, Eq)]
pub enum RowsFault {
    /// The text cannot be read.
    Read,
    /// The next line is that of no row with so many numbers as the rows before.
    Line,
    /// The next row is not behind the one before, by its start and then its key.
    Order,
    /// No memory was to be had.
    Memory,
}

impl From<AllocError> for RowsFault {
    ghost use Rattle.std.specs.Prelude.{◌≡◌};
    ghost use Rattle.row_lines.specs.declared.rows.RowsFault.TheVariants.{Memory};

    ghost from_gives = { λ _ e. e ≡ Memory };

    fn from(_e: AllocError) -> RowsFault {
        RowsFault::Memory
    }
}

/// What comes of a text that cannot be read on.
fn read_fault(fault: ReadFault) -> RowsFault
    ensures { IsReadFault result }
{
    match fault {
        ReadFault::Read => RowsFault::Read,
        ReadFault::Memory => RowsFault::Memory,
    }
}

/// The rows of what a reader gives, each behind the one before by start and then key, and all with so many numbers as
/// the first.
#[derive(Drop)]
pub struct RowLines<R> {
    alloc: Global,
    lines: Lines<R>,
    width: Option<usize>,
    last: Option<Pane>,
    /// The front of a line before, where there is one: it mostly is that of the next line too.
    front: Option<Front>,
    number: u64,
}

impl<R: Read + Drop> RowLines<R> {
    ghost use Rattle.std.specs.Prelude.{◌≡◌, None, IfOk, IfSome};
    ghost use Rattle.row_lines.specs.Lines.{line_in};
    ghost use Rattle.row_lines.specs.Sequences.{rows_left, line_number, width_of, last_of, lines_of, IsNext, IsNextLine, IsNextPlace, IsCounted, IsLineCounted, IsPlaceCounted, IsPlaceRead, GivesPlaceRead, IsAsBefore, MayTake, Takes};

    /// The rows of all that a reader gives. Each has `width` numbers of aggregates, where that is told.
    ///
    /// # Errors
    ///
    /// Only where memory runs out.
    pub fn new(alloc: Global, input: R, width: Option<usize>) -> Result<RowLines<R>, AllocError>
        ensures left { IfOk result (λ rows. rows_left R.remaining rows ≡ R.remaining input) }
        ensures width { IfOk result (λ rows. width_of rows ≡ width) }
        ensures last { IfOk result (λ rows. last_of rows ≡ None) }
        ensures number { IfOk result (λ rows. line_number rows ≡ 0) }
    {
        Ok(RowLines {
            alloc,
            lines: Lines::new(alloc, input)?,
            width,
            last: None,
            front: None,
            number: 0,
        })
    }

    /// The line that was looked at last, counted from 1, or 0.
    pub fn line_number(&self) -> u64
        ensures { result ≡ line_number self.now }
    {
        self.number
    }

    /// How many numbers of aggregates each row has, where that is known.
    pub fn width(&self) -> Option<usize>
        ensures { result ≡ width_of self.now }
    {
        self.width
    }

    /// The line that was looked at last, without its line feed.
    pub fn line(&self) -> &[u8]
        ensures { result.now ≡ line_in (lines_of self.now) }
    {
        self.lines.line()
    }

    /// Takes a row at a place for the last one, if it may stand there.
    fn take(&mut self, place: RowPlace) -> Result<(), RowsFault>
        ensures takes { MayTake self.old self.new place result }
        ensures lines { lines_of self.new ≡ lines_of self.old }
        ensures number { line_number self.new ≡ line_number self.old }
    {
        admit(self.width, self.last, place)?;
        self.width = Some(place.width);
        self.last = Some(place.pane);
        Ok(())
    }

    /// The row of the line.
    fn take_row(&mut self) -> Result<Row, RowsFault>
        ensures takes { Takes self.old self.new result }
        ensures lines { lines_of self.new ≡ lines_of self.old }
        ensures number { line_number self.new ≡ line_number self.old }
    {
        let Some(row) = read_row(self.alloc, self.lines.line())? else {
            return Err(RowsFault::Line);
        };
        self.take(place_of(&row))?;
        Ok(row)
    }

    /// Goes on to the next line, which is counted, and tells whether there is one.
    fn next_line(&mut self) -> Result<bool, RowsFault>
        ensures next { IsNextLine R.remaining self.old self.new result }
        ensures number { IsLineCounted self.old self.new result }
    {
        match self.lines.advance() {
            Ok(Step::End) => return Ok(false),
            Ok(Step::NoLine) => {
                self.number = self.number.saturating_add(1);
                return Err(RowsFault::Line);
            }
            Ok(Step::Line) => self.number = self.number.saturating_add(1),
            Err(fault) => return Err(read_fault(fault)),
        }
        Ok(true)
    }

    /// Goes on to the next row, if there is one.
    ///
    /// # Errors
    ///
    /// `Line`, then `Order`; `Read`; `Memory`.
    pub fn advance(&mut self) -> Result<Option<Row>, RowsFault>
        ensures next { IsNext R.remaining self.old self.new result }
        ensures number { IsCounted self.old self.new result }
    {
        if !self.next_line()? {
            return Ok(None);
        }
        Ok(Some(self.take_row()?))
    }

    /// Goes on to the next line, if all of it was read before, and tells where its row stands. Of other lines, and of
    /// rows with a number of more than 18 digits, there is no telling.
    fn next_held(&mut self) -> Option<RowPlace>
        ensures read { IfSome result (IsPlaceRead R.remaining self.old self.new) }
        ensures none { result ≡ None → IsAsBefore self.old self.new }
    {
        let held = self.lines.held();
        let (place, rest) = front_place(&mut self.front, held)?;
        let end = held.len() - rest.len() - 1;
        self.lines.take_line(end);
        self.number = self.number.saturating_add(1);
        Some(place)
    }

    /// Goes on to the next line, if there is one, and tells where its row stands.
    fn next_read(&mut self) -> Result<Option<RowPlace>, RowsFault>
        ensures read { GivesPlaceRead R.remaining self.old self.new result }
        ensures number { IsPlaceCounted self.old self.new result }
    {
        if !self.next_line()? {
            return Ok(None);
        }
        match read_row(self.alloc, self.lines.line())? {
            Some(row) => Ok(Some(place_of(&row))),
            None => Err(RowsFault::Line),
        }
    }

    /// The same of any line.
    fn next_place(&mut self) -> Result<Option<RowPlace>, RowsFault>
        ensures read { GivesPlaceRead R.remaining self.old self.new result }
        ensures number { IsPlaceCounted self.old self.new result }
    {
        match self.next_held() {
            Some(place) => Ok(Some(place)),
            None => self.next_read(),
        }
    }

    /// Goes on to the next row, if there is one, and tells no more of it than its place. Its text is then the `line`.
    ///
    /// # Errors
    ///
    /// `Line`, then `Order`; `Read`; `Memory`.
    pub fn advance_place(&mut self) -> Result<Option<RowPlace>, RowsFault>
        ensures next { IsNextPlace R.remaining self.old self.new result }
        ensures number { IsPlaceCounted self.old self.new result }
    {
        let Some(place) = self.next_place()? else {
            return Ok(None);
        };
        self.take(place)?;
        Ok(Some(place))
    }
}
