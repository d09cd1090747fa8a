//! The records of a CSV text.

ghost use Rattle.std.specs.Prelude.{◌≡◌, ℕ, List, [], false, None, Some, IfOk};
ghost use Rattle.asked_fields.specs.declared.asked.AskedField.{AskedField};
ghost use Rattle.csv.specs.Reading.{strip_bom};
ghost use Rattle.csv.specs.declared.parser.State.TheVariants.{StartRecord};
ghost use Rattle.imports.specs.Separators.{separator_of};
ghost use Rattle.imports.specs.Reading.{Rest, Csv, RowsStandAt, AdvancesRow, ChecksWidth, taken_in};

use crate::fault::RowFault;
use crate::picking::{Pick, fill_picked};
use crate::reader::CsvReader;
use crate::separator::Separator;
use crate::watched::Watched;
use csv::ByteRecord;
use std::alloc::Global;
use std::io::Read;

/// The records of a CSV text, one after the other. The first is the header.
#[derive(Drop)]
pub struct CsvRows<R> {
    reader: CsvReader<Watched<R>>,
    record: ByteRecord,
    width: Option<usize>,
    picked: ByteRecord,
    joined: Vec<u8>,
    is_picked: bool,
}

/// How many line feeds stand in the fields of a record.
fn line_feeds(record: &ByteRecord) -> u64 {
    let mut count = 0u64;
    for field in record.into_iter() {
        count = count.saturating_add(field.iter().filter(|b| **b == b'\n').count() as u64);
    }
    count
}

/// Whether the last field of a record ends in a line feed, as it does where a quotation mark is open at the end of a
/// text.
fn ends_line(record: &ByteRecord) -> bool {
    let last = record.len().saturating_sub(1);
    record.get(last).unwrap_or(b"").ends_with(b"\n")
}

impl<R: Read + Drop> CsvRows<R> {
    /// The records of what a reader gives: fields with commas between, in double quotes or not.
    ///
    /// # Errors
    ///
    /// `Memory`.
    pub fn new(alloc: Global, input: R) -> Result<CsvRows<R>, RowFault>
        ensures { (text : List ℕ) → R.remaining input ≡ Some text → IfOk result (λ rows. RowsStandAt R.remaining rows (Csv 44 None StartRecord (strip_bom text))) }
    {
        CsvRows::separated(alloc, input, Separator::COMMA)
    }

    /// The same with another separator in place of commas.
    ///
    /// # Errors
    ///
    /// `Memory`.
    pub fn separated(alloc: Global, input: R, separator: Separator) -> Result<CsvRows<R>, RowFault>
        ensures { (text : List ℕ) → R.remaining input ≡ Some text → IfOk result (λ rows. RowsStandAt R.remaining rows (Csv (separator_of separator) None StartRecord (strip_bom text))) }
    {
        Ok(CsvRows {
            reader: CsvReader::new(alloc, Watched::new(alloc, input), separator)?,
            record: ByteRecord::new(alloc),
            width: None,
            picked: ByteRecord::new(alloc),
            joined: Vec::new(alloc),
            is_picked: false,
        })
    }

    /// Goes on to the next record, and tells whether there is one. Lines without a character are passed over.
    ///
    /// # Errors
    ///
    /// `Read`; `Width` where it has another number of fields than the first record; `Memory`.
    pub(crate) fn advance(&mut self) -> Result<bool, RowFault>
        ensures row { (asked : List AskedField) (rest : Rest) → RowsStandAt R.remaining self.old rest → AdvancesRow R.remaining asked [] rest self.new result }
        ensures kept { self.new.is_picked ≡ false }
    {
        self.is_picked = false;
        self.reader.source().watch_from(self.reader.next_byte());
        if !self.reader.read(&mut self.record)? {
            return Ok(false);
        }
        self.check_width()
    }

    fn check_width(&mut self) -> Result<bool, RowFault>
        ensures { ChecksWidth self.old self.new result }
    {
        let width = self.record.len();
        match self.width {
            Some(wanted) if wanted != width => Err(RowFault::Width(width, wanted)),
            Some(_) => Ok(true),
            None => {
                self.width = Some(width);
                Ok(true)
            }
        }
    }

    /// Goes on to the next record, and makes one of the texts of columns where these do not all stand in it as they
    /// are.
    ///
    /// # Errors
    ///
    /// `Read`; `Width`; `Memory`.
    pub(crate) fn advance_picked(&mut self, picks: &[Pick]) -> Result<bool, RowFault>
        ensures { (asked : List AskedField) (rest : Rest) → RowsStandAt R.remaining self.old rest → AdvancesRow R.remaining asked picks.now rest self.new result }
    {
        match self.advance() {
            Ok(true) => {}
            Ok(false) => return Ok(false),
            Err(fault) => return Err(fault),
        }
        if picks.is_empty() {
            return Ok(true);
        }
        fill_picked(&mut self.picked, &mut self.joined, picks, &self.record)?;
        self.is_picked = true;
        Ok(true)
    }

    /// The record of the texts of columns, or the row itself where it has them.
    pub(crate) fn taken(&self) -> &ByteRecord
        ensures { result.now ≡ taken_in self.now }
    {
        if self.is_picked {
            &self.picked
        } else {
            &self.record
        }
    }

    /// The row, as it stands in the text.
    pub fn record(&self) -> &ByteRecord
        ensures { result.now ≡ self.now.«record» }
    {
        &self.record
    }

    /// The line at which the record begins, counted from 1.
    pub fn line(&self) -> u64 {
        let searched_from = match self.record.position() {
            Some(position) => position.line(),
            None => 1,
        };
        searched_from.saturating_add(self.reader.source().lines())
    }

    /// How many lines there are up to where the next record is looked for, the last without a line feed among them.
    pub(crate) fn lines(&self) -> u64 {
        let ended = self.reader.next_line().saturating_sub(1);
        ended.saturating_add(u64::from(self.reader.source().is_within_line()))
    }

    /// The line at which the record ends.
    pub(crate) fn last_line(&self) -> u64 {
        let lines = line_feeds(&self.record);
        self.line()
            .saturating_add(lines.saturating_sub(u64::from(ends_line(&self.record))))
    }
}
