//! The text of one part, as it grows.

ghost use Rattle.std.specs.Prelude.{◌≡◌, ◌<◌, ◌≤◌, ◌*◌, ◌+◌, [], false, length, IfOk, OnOk};
ghost use Rattle.std.specs.Fmt.{signed_decimal};
ghost use Rattle.std.specs.Io.KnownBytes.{Appends, append_known};
ghost use Rattle.std.specs.List.{All};
ghost use Rattle.columns.specs.Parts.{with_rows};
ghost use Rattle.input_parts.specs.Parts.{entry_of_rows};
ghost use Rattle.key_dealing.specs.Dealing.{rows_at};
ghost use Rattle.part_texts.specs.InputTexts.{mark_name, mark_entry, records_text, rows_entry};
ghost use Rattle.part_texts.specs.PartTexts.{with_words, before_entry, with_text, with_entries, Takes};
ghost use Rattle.part_texts.specs.Streams.{stream_of, kept_of, state_of, text_of};

use crate::records::{put_records_at, room_of_row};
use columns::Batch;
use itoa::Buffer;
use std::alloc::{AllocError, Global};
use std::io;
use std::io::Write;

/// How much text is kept before it is written.
const MOST_TEXT: usize = 65536;

/// A part of an input, of which the text goes to a stream as it grows.
#[derive(Drop)]
pub struct PartText<W: Write + Drop> {
    out: W,
    /// The text that the stream has not got yet.
    text: Vec<u8>,
    /// Room for the rows of an entry, once there was one, which is kept for the next.
    room: Vec<u8>,
    /// Whether no entry of the partition that is being written stands in it yet.
    is_first: bool,
}

/// The most room that is kept for the rows of the next entry.
const MOST_ROOM: usize = 131_072;

/// Puts bytes behind a text that is kept for a stream, which gets all of it where it is much.
fn put_behind<W: Write>(out: &mut W, text: &mut Vec<u8>, bytes: &[u8]) -> io::Result<()>
    ensures { OnOk result (Appends (append_known (W.contents out.old) text.old.items) (append_known (W.contents out.new) text.new.items) bytes.now) }
{
    text.extend_from_slice(bytes)?;
    if text.len() >= MOST_TEXT {
        out.write_all(text)?;
        text.clear();
    }
    Ok(())
}

/// The rows at some places, with commas between them, behind such a text, by way of room for them.
fn put_line<W: Write>(
    out: &mut W,
    text: &mut Vec<u8>,
    line: &mut [u8],
    batch: &Batch,
    places: &[usize],
) -> io::Result<()>
    requires some { 0 < length places.now }
    requires inside { All (λ place. place < length batch.now.rows) places.now }
    requires room { length places.now * (21 * batch.now.width + 2) ≤ length line.old }
    ensures { OnOk result (Appends (append_known (W.contents out.old) text.old.items) (append_known (W.contents out.new) text.new.items) (records_text batch.now.width (rows_at batch.now.rows places.now))) }
{
    let start = put_records_at(line, batch, places);
    put_behind(out, text, &line[start..])
}

impl<W: Write + Drop> PartText<W> {
    /// The text of a part without a byte yet, for a stream.
    ///
    /// # Errors
    ///
    /// Only where memory runs out.
    pub fn new(alloc: Global, out: W) -> io::Result<PartText<W>>
        ensures stream { IfOk result (λ part. stream_of part ≡ out) }
        ensures nothing { IfOk result (λ part. kept_of part ≡ []) }
    {
        Ok(PartText {
            out,
            text: Vec::with_capacity(alloc, 2 * MOST_TEXT)?,
            room: Vec::new(alloc),
            is_first: true,
        })
    }

    /// The stream.
    pub fn stream(&self) -> &W
        ensures { result.now ≡ stream_of self.now }
    {
        &self.out
    }

    /// Puts words behind it.
    fn put(&mut self, words: &str) -> io::Result<()>
        ensures first { self.new.is_first ≡ self.old.is_first }
        ensures appends { OnOk result (Appends (text_of W.contents self.old) (text_of W.contents self.new) words.now) }
    {
        put_behind(&mut self.out, &mut self.text, words.as_bytes())
    }

    /// Puts words that stand around entries behind it.
    pub(crate) fn push(&mut self, words: &str) -> io::Result<()>
        ensures { OnOk result (Takes (with_words words.now) (state_of W.contents self.old) (state_of W.contents self.new)) }
    {
        self.put(words)?;
        self.is_first = true;
        Ok(())
    }

    /// The comma before an entry that is not the first one.
    fn separate(&mut self) -> io::Result<()>
        ensures first { OnOk result (self.new.is_first ≡ false) }
        ensures appends { OnOk result (Appends (text_of W.contents self.old) (text_of W.contents self.new) (before_entry self.old.is_first)) }
    {
        if !self.is_first {
            self.put(",")?;
        }
        self.is_first = false;
        Ok(())
    }

    #[tactic(auto, unfolding(crate::specs::InputTexts::mark_name))]
    fn put_mark_name(&mut self) -> io::Result<()>
        ensures first { self.new.is_first ≡ self.old.is_first }
        ensures appends { OnOk result (Appends (text_of W.contents self.old) (text_of W.contents self.new) mark_name) }
    {
        self.put("{\"watermark\":")
    }

    fn put_number(&mut self, number: i64) -> io::Result<()>
        ensures first { self.new.is_first ≡ self.old.is_first }
        ensures appends { OnOk result (Appends (text_of W.contents self.old) (text_of W.contents self.new) (signed_decimal number)) }
    {
        let mut digits = Buffer::new();
        self.put(digits.format(number))
    }

    /// Puts a watermark behind it.
    pub(crate) fn push_mark(&mut self, time: i64) -> io::Result<()>
        ensures { OnOk result (Takes (λ p. with_text p (mark_entry time)) (state_of W.contents self.old) (state_of W.contents self.new)) }
    {
        self.separate()?;
        self.put_mark_name()?;
        self.put_number(time)?;
        self.put("}")
    }

    /// Puts the rows at some places behind it, with commas between them, by way of room that is kept, or of more where
    /// they need it.
    fn put_rows(&mut self, alloc: Global, batch: &Batch, places: &[usize]) -> io::Result<()>
        requires some { 0 < length places.now }
        requires inside { All (λ place. place < length batch.now.rows) places.now }
        ensures first { self.new.is_first ≡ self.old.is_first }
        ensures appends { OnOk result (Appends (text_of W.contents self.old) (text_of W.contents self.new) (records_text batch.now.width (rows_at batch.now.rows places.now))) }
    {
        let room = places
            .len()
            .checked_mul(room_of_row(batch))
            .ok_or(AllocError)?;
        if room > MOST_ROOM {
            let mut line = vec![in alloc; 0u8; room]?;
            return put_line(&mut self.out, &mut self.text, &mut line, batch, places);
        }
        if self.room.len() < room {
            self.room = vec![in alloc; 0u8; MOST_ROOM]?;
        }
        put_line(&mut self.out, &mut self.text, &mut self.room, batch, places)
    }

    /// Puts an entry of the rows at some places behind it.
    fn push_some(&mut self, alloc: Global, batch: &Batch, places: &[usize]) -> io::Result<()>
        requires some { 0 < length places.now }
        requires inside { All (λ place. place < length batch.now.rows) places.now }
        ensures { OnOk result (Takes (λ p. with_text p (rows_entry (with_rows batch.now (rows_at batch.now.rows places.now)))) (state_of W.contents self.old) (state_of W.contents self.new)) }
    {
        self.separate()?;
        self.put("{\"rows\":[")?;
        self.put_rows(alloc, batch, places)?;
        self.put("]}")
    }

    /// The same, if there are any.
    #[tactic(auto, using(crate::proofs::Steps::no_rows, crate::proofs::Steps::some_rows))]
    pub(crate) fn push_rows(
        &mut self,
        alloc: Global,
        batch: &Batch,
        places: &[usize],
    ) -> io::Result<()>
        requires { All (λ place. place < length batch.now.rows) places.now }
        ensures { OnOk result (Takes (λ p. with_entries p (entry_of_rows batch.now.width (rows_at batch.now.rows places.now))) (state_of W.contents self.old) (state_of W.contents self.new)) }
    {
        if places.is_empty() {
            return Ok(());
        }
        self.push_some(alloc, batch, places)
    }

    /// Writes the text that the stream has not got yet.
    pub(crate) fn finish(&mut self) -> io::Result<()>
        ensures { OnOk result (Appends (text_of W.contents self.old) (W.contents (stream_of self.new)) []) }
    {
        self.out.write_all(&self.text)?;
        self.text.clear();
        Ok(())
    }
}
