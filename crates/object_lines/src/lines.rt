//! The lines of a text.

ghost use Rattle.std.specs.Prelude.{◌≡◌, ℕ, List, Some, IfOk, IfErr};
ghost use Rattle.csv.specs.Records.{fields_of};
ghost use Rattle.object_lines.specs.Lines.{is_space, is_blank, without_last, bare_line, line_said, lines_said, line_in, lines_left, StepsLine, FillsLine, IsOfText, AdvancesLine};

use crate::fault::LineFault;
use crate::room::Room;
use crate::text::fill_from_text;
use asked_fields::AskedField;
use csv::ByteRecord;
use std::alloc::Global;
use std::io;
use std::io::{BufRead, BufReader, ErrorKind, Read};

/// The records of a text, one after the other: of each line, which is a JSON object, the texts of the fields that are
/// asked for.
#[derive(Drop)]
pub struct ObjectLines<R> {
    alloc: Global,
    reader: BufReader<R>,
    line: Vec<u8>,
    joined: Vec<u8>,
    room: Room,
    record: ByteRecord,
    number: u64,
}

/// What comes of an error of reading.
fn read_fault(error: &io::Error) -> LineFault
    ensures { IsOfText result }
{
    match error.kind() {
        ErrorKind::OutOfMemory => LineFault::Memory,
        _ => LineFault::Read,
    }
}

/// Whether a byte is white space of JSON.
fn is_space(byte: u8) -> bool
    ensures { result ≡ is_space byte }
{
    matches!(byte, b' ' | b'\t' | b'\r' | b'\n')
}

/// Whether a line is blank.
fn is_blank(line: &[u8]) -> bool
    ensures { result ≡ is_blank line.now }
{
    line.iter().all(|byte| is_space(*byte))
}

/// A line without the byte order mark that the first may begin with.
fn without_mark(line: &[u8], number: u64) -> &[u8]
    ensures { result.now ≡ line_said number line.now }
{
    if number > 1 {
        return line;
    }
    match line.strip_prefix(b"\xef\xbb\xbf") {
        Some(rest) => rest,
        None => line,
    }
}

/// A text without a byte that it may end with.
fn without_last(text: &[u8], byte: u8) -> &[u8]
    ensures { result.now ≡ without_last byte text.now }
{
    match text {
        [front @ .., last] if *last == byte => front,
        _ => text,
    }
}

impl<R: Read + Drop> ObjectLines<R> {
    /// The records of what a reader gives.
    ///
    /// # Errors
    ///
    /// `Memory`.
    pub fn new(alloc: Global, input: R) -> Result<ObjectLines<R>, LineFault>
        ensures { (text : List ℕ) → R.remaining input ≡ Some text → IfOk result (λ lines. lines_left R.remaining lines ≡ Some (lines_said 0 text)) }
    {
        match BufReader::new(alloc, input) {
            Ok(reader) => Ok(ObjectLines {
                alloc,
                reader,
                line: Vec::new(alloc),
                joined: Vec::new(alloc),
                room: Room::new(alloc)?,
                record: ByteRecord::new(alloc),
                number: 0,
            }),
            Err(error) => Err(read_fault(&error)),
        }
    }

    /// Goes on to the next line, and tells whether there is one.
    fn next_line(&mut self) -> Result<bool, LineFault>
        ensures fault { IfErr result (λ fault. IsOfText fault) }
        ensures steps { (left : List (List ℕ)) → lines_left R.remaining self.old ≡ Some left → IfOk result (λ is_there. StepsLine R.remaining left self.new is_there) }
    {
        self.line.clear();
        match self.reader.read_until(b'\n', &mut self.line) {
            Ok(0) => Ok(false),
            Ok(_) => {
                self.number = self.number.saturating_add(1);
                Ok(true)
            }
            Err(error) => Err(read_fault(&error)),
        }
    }

    /// Makes the record of the line, and tells whether there is one: a blank line has none.
    fn fill(&mut self, asked: &[AskedField<'_>]) -> Result<bool, LineFault>
        ensures line { line_in self.new ≡ line_in self.old }
        ensures left { lines_left R.remaining self.new ≡ lines_left R.remaining self.old }
        ensures fills { FillsLine asked.now (line_in self.old) (fields_of self.new.record) result }
    {
        let text = without_mark(&self.line, self.number);
        if is_blank(text) {
            return Ok(false);
        }
        fill_from_text(
            self.alloc,
            &mut self.record,
            asked,
            text,
            &mut self.joined,
            self.room.scratch(),
        )?;
        Ok(true)
    }

    /// Goes on to the next line that is not blank, and tells whether there is one.
    ///
    /// # Errors
    ///
    /// `Read`; those of [`fill_record`](crate::fill_record), `NoObject` also where the line is no JSON text.
    pub fn advance(&mut self, asked: &[AskedField<'_>]) -> Result<bool, LineFault>
        ensures { (left : List (List ℕ)) → lines_left R.remaining self.old ≡ Some left → AdvancesLine R.remaining asked.now left self.new result }
    {
        for _ in 0..u64::MAX {
            if !self.next_line()? {
                return Ok(false);
            }
            match self.fill(asked) {
                Ok(true) => return Ok(true),
                Ok(false) => {}
                Err(fault) => return Err(fault),
            }
        }
        Err(LineFault::Read)
    }

    /// The record.
    pub fn record(&self) -> &ByteRecord
        ensures { result.now ≡ self.now.record }
    {
        &self.record
    }

    /// The text of the line, without a byte order mark and what ends it.
    pub fn text(&self) -> &[u8]
        ensures { result.now ≡ bare_line (line_in self.now) }
    {
        let line = without_mark(&self.line, self.number);
        without_last(without_last(line, b'\n'), b'\r')
    }

    /// The line of the record, counted from 1.
    pub fn line(&self) -> u64 {
        self.number
    }
}
