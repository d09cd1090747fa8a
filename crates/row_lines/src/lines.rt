//! The lines of a text, with no more of it in memory than what is read at once, and a line.

ghost use Rattle.std.specs.Prelude.{◌≡◌, ◌<◌, ◌≤◌, length, take, vec_len, IfOk};
ghost use Rattle.std.specs.Io.KnownBytes.{Consumes, IsAtEnd};

use memchr::memchr;
use std::alloc::{AllocError, Global};
use std::io;
use std::io::{ErrorKind, Read};

/// More bytes than the longest line of a row has: three numbers of 64 bits and eight of 128, each with what stands
/// behind it.
pub const LONGEST_LINE: usize = 3 * 21 + 8 * 41;

/// How many bytes are asked for at once.
const CHUNK: usize = 65536;

/// What is found where a line is looked for.
#[derive(Clone, Copy, Debug, PartialEq, Eq)]
pub(crate) enum Step {
    /// A line.
    Line,
    /// No line that ends within the most bytes that a row's line has.
    NoLine,
    /// Nothing is left.
    End,
}

/// Why no line is looked for.
#[derive(Clone, Copy, Debug, PartialEq, Eq)]
pub(crate) enum ReadFault {
    /// The text cannot be read.
    Read,
    /// No memory was to be had.
    Memory,
}

impl From<AllocError> for ReadFault {
    ghost use Rattle.std.specs.Prelude.{◌≡◌};
    ghost use Rattle.row_lines.specs.declared.lines.ReadFault.TheVariants.{Memory};

    ghost from_gives = { λ _ e. e ≡ Memory };

    fn from(_e: AllocError) -> ReadFault {
        ReadFault::Memory
    }
}

/// The lines of what a reader gives, one after the other.
#[derive(Drop)]
pub(crate) struct Lines<R> {
    alloc: Global,
    input: R,
    /// What was read and is held: the line, from `start` up to `end` with its line feed, and what stands behind it.
    held: Vec<u8>,
    start: usize,
    end: usize,
    /// What is read into.
    chunk: Vec<u8>,
    ghost ordered: { start ≤ end },
    ghost inside: { end ≤ vec_len held },
    ghost room: { 0 < vec_len chunk },
}

/// What comes of an error of reading, or `None` where the reading is tried again.
fn read_fault(error: &io::Error) -> Option<ReadFault> {
    match error.kind() {
        ErrorKind::Interrupted => None,
        ErrorKind::OutOfMemory => Some(ReadFault::Memory),
        _ => Some(ReadFault::Read),
    }
}

/// So many zeros.
fn zeros(alloc: Global, count: usize) -> Result<Vec<u8>, AllocError>
    ensures { IfOk result (λ zeros. vec_len zeros ≡ count) }
{
    vec![in alloc; 0; count]
}

/// Reads what comes next into a chunk, and tells how many bytes that is: none only at the end.
fn read_chunk<R: Read>(input: &mut R, chunk: &mut [u8]) -> Result<usize, ReadFault>
    ensures within { IfOk result (λ count. count ≤ length chunk.new) }
    ensures bytes { IfOk result (λ count. Consumes (R.remaining input.old) (R.remaining input.new) (take count chunk.new)) }
    ensures end { IfOk result (λ count. count ≡ 0 → 0 < length chunk.old → IsAtEnd (R.remaining input.new)) }
{
    for _ in 0..u64::MAX {
        match input.read(chunk) {
            Ok(count) => return Ok(count),
            Err(error) => {
                if let Some(fault) = read_fault(&error) {
                    return Err(fault);
                }
            }
        }
    }
    Err(ReadFault::Read)
}

impl<R: Read + Drop> Lines<R> {
    ghost use Rattle.std.specs.Prelude.{◌≡◌, false, length, take, Some, IfOk, OnOk};
    ghost use Rattle.std.specs.Io.KnownBytes.{Keeps, IsAtEnd};
    ghost use Rattle.row_lines.specs.Lines.{lines_left, lines_rest, held_of, line_in, IsStep, IsPlace};

    /// The lines of all that a reader gives.
    ///
    /// # Errors
    ///
    /// Only where memory runs out.
    pub(crate) fn new(alloc: Global, input: R) -> Result<Lines<R>, AllocError>
        ensures { IfOk result (λ lines. lines_left R.remaining lines ≡ R.remaining input) }
    {
        Ok(Lines {
            alloc,
            input,
            held: Vec::new(alloc),
            start: 0,
            end: 0,
            chunk: zeros(alloc, CHUNK)?,
        })
    }

    /// The line, without its line feed.
    pub(crate) fn line(&self) -> &[u8]
        ensures { result.now ≡ line_in self.now }
    {
        let line = &self.held[self.start..self.end];
        match line.split_last() {
            Some((_, line)) => line,
            None => line,
        }
    }

    /// What is held behind the line.
    pub(crate) fn held(&self) -> &[u8]
        ensures { result.now ≡ held_of self.now }
    {
        &self.held[self.end..]
    }

    /// The place behind the line at which the first line feed stands, within the most bytes of a line.
    fn place(&self) -> Option<usize>
        ensures { IsPlace (take LONGEST_LINE (held_of self.now)) result }
    {
        let held = self.held();
        memchr(b'\n', &held[..held.len().min(LONGEST_LINE)])
    }

    /// How many bytes are held behind the line.
    fn count(&self) -> usize
        ensures { result ≡ length (held_of self.now) }
    {
        self.held().len()
    }

    /// Reads on behind what is held, and tells whether there was anything.
    fn fill(&mut self) -> Result<bool, ReadFault>
        ensures keeps { OnOk result (Keeps (lines_left R.remaining self.old) (lines_left R.remaining self.new)) }
        ensures end { IfOk result (λ more. more ≡ false → IsAtEnd (lines_rest R.remaining self.new)) }
        ensures same { IfOk result (λ more. more ≡ false → held_of self.new ≡ held_of self.old) }
    {
        let count = read_chunk(&mut self.input, &mut self.chunk)?;
        let mut held = Vec::from_slice(self.alloc, &self.held[self.end..])?;
        held.extend_from_slice(&self.chunk[..count])?;
        self.start = 0;
        self.end = 0;
        self.held = held;
        Ok(count > 0)
    }

    /// Goes on to the line that ends at a place behind this one.
    pub(crate) fn take_line(&mut self, place: usize)
        requires { IsPlace (take LONGEST_LINE (held_of self.old)) (Some place) }
        ensures line { line_in self.new ≡ take place (held_of self.old) }
        ensures step { IsStep Step.Line (lines_left R.remaining self.old) (lines_left R.remaining self.new) (line_in self.new) }
    {
        let start = self.end;
        self.end = start + (place + 1);
        self.start = start;
    }

    /// Goes on to the next line, and tells what is there.
    ///
    /// # Errors
    ///
    /// `Read`; `Memory`.
    pub(crate) fn advance(&mut self) -> Result<Step, ReadFault>
        ensures { IfOk result (λ step. IsStep step (lines_left R.remaining self.old) (lines_left R.remaining self.new) (line_in self.new)) }
    {
        for _ in 0..u64::MAX {
            if let Some(place) = self.place() {
                self.take_line(place);
                return Ok(Step::Line);
            }
            if self.count() >= LONGEST_LINE {
                return Ok(Step::NoLine);
            }
            if !self.fill()? {
                return Ok(if self.count() == 0 {
                    Step::End
                } else {
                    Step::NoLine
                });
            }
        }
        Err(ReadFault::Read)
    }
}
