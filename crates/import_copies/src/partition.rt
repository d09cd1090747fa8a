//! The text of a partition, as it is written to its streams.

ghost use Rattle.std.specs.Prelude.{◌≡◌, ◌<◌, ℕ, List, Option, IfOk, OnOk, length, map};
ghost use Rattle.std.specs.Io.KnownBytes.{Appends};
ghost use Rattle.dealt_texts.specs.Steps.{text_at};
ghost use Rattle.dealt_texts.specs.Texts.{rule_of as parts_rule, dealing_of as parts_dealing, texts_of};
ghost use Rattle.entry_texts.specs.Partitions.{Row, rule_of as whole_rule, text_of, times_of};
ghost use Rattle.import_entries.specs.Entries.{place_fault};
ghost use Rattle.import_fates.specs.Fates.{fate_by_place, rows_put};
ghost use Rattle.import_copies.specs.Outcomes.{fate_of};
ghost use Rattle.import_copies.specs.Rows.{said_of};
ghost use Rattle.import_copies.specs.Streams.{WritesRows, WritesWhole, WritesParts, WritesPartition, DealsPartition, WritesAll, rule_of, dealing_of, stream_at};

use crate::outcome::Outcome;
use crate::row::GoodRow;
use crate::row_texts::RowTexts;
use dealt_texts::PartTexts;
use entry_texts::{PartitionText, PutFault};
use import_entries::PlaceFault;
use imports::RowFault;
use std::io::Write;

/// How much text is kept before it is written.
const MOST_TEXT: usize = 65536;

/// Writes bytes to the stream at a place.
fn write_at<W: Write>(outs: &mut [W], place: usize, bytes: &[u8]) -> Result<(), RowFault>
    ensures here { OnOk result (Appends (stream_at (map W.contents outs.old) place) (stream_at (map W.contents outs.new) place) bytes.now) }
    ensures others { OnOk result ((i : ℕ) → (i ≡ place → ⊥) → stream_at (map W.contents outs.new) i ≡ stream_at (map W.contents outs.old) i) }
{
    if place >= outs.len() {
        return Err(RowFault::Write);
    }
    match outs[place].write_all(bytes) {
        Ok(()) => Ok(()),
        Err(_) => Err(RowFault::Write),
    }
}

/// Writes the text that a partition keeps.
fn write_text<W: Write>(partition: &mut PartitionText, outs: &mut [W]) -> Result<(), RowFault>
    ensures rule { whole_rule partition.new ≡ whole_rule partition.old }
    ensures appends { OnOk result (Appends (stream_at (map W.contents outs.old) 0) (stream_at (map W.contents outs.new) 0) (text_of partition.old)) }
    ensures writes { (rows : List Row) (start : Option (List ℕ)) → WritesWhole rows start (stream_at (map W.contents outs.old) 0) partition.old
        → OnOk result (WritesWhole rows start (stream_at (map W.contents outs.new) 0) partition.new) }
{
    write_at(outs, 0, partition.text().as_bytes())?;
    partition.clear_text();
    Ok(())
}

/// Writes the text that a partition keeps, where it is much.
fn write_much_text<W: Write>(partition: &mut PartitionText, outs: &mut [W]) -> Result<(), RowFault>
    ensures rule { whole_rule partition.new ≡ whole_rule partition.old }
    ensures writes { (rows : List Row) (start : Option (List ℕ)) → WritesWhole rows start (stream_at (map W.contents outs.old) 0) partition.old
        → OnOk result (WritesWhole rows start (stream_at (map W.contents outs.new) 0) partition.new) }
{
    if partition.text().len() < MOST_TEXT {
        return Ok(());
    }
    write_text(partition, outs)
}

/// Writes the text that a part at a place keeps, where it is much, to the stream at that place.
fn write_part<W: Write>(parts: &mut PartTexts, place: usize, outs: &mut [W]) -> Result<(), RowFault>
    ensures rule { parts_rule parts.new ≡ parts_rule parts.old }
    ensures dealing { parts_dealing parts.new ≡ parts_dealing parts.old }
    ensures writes { (rows : List Row) (start : List (Option (List ℕ))) → WritesParts rows start (map W.contents outs.old) parts.old
        → OnOk result (WritesParts rows start (map W.contents outs.new) parts.new) }
{
    if place >= parts.texts().len() || parts.texts()[place].text().len() < MOST_TEXT {
        return Ok(());
    }
    write_at(outs, place, parts.texts()[place].text().as_bytes())?;
    parts.clear_text(place);
    Ok(())
}

/// Writes the texts that parts keep, where they are much, of those that the last row made longer.
fn write_much_parts<W: Write>(parts: &mut PartTexts, outs: &mut [W]) -> Result<(), RowFault>
    ensures rule { parts_rule parts.new ≡ parts_rule parts.old }
    ensures dealing { parts_dealing parts.new ≡ parts_dealing parts.old }
    ensures writes { (rows : List Row) (start : List (Option (List ℕ))) → WritesParts rows start (map W.contents outs.old) parts.old
        → OnOk result (WritesParts rows start (map W.contents outs.new) parts.new) }
{
    let (from, to) = parts.grown();
    for place in from..to {
        write_part(parts, place, outs)?;
    }
    Ok(())
}

/// Writes the text that a partition keeps, where it is much.
pub(crate) fn write_much<W: Write>(partition: &mut RowTexts, outs: &mut [W]) -> Result<(), RowFault>
    ensures rule { rule_of partition.new ≡ rule_of partition.old }
    ensures dealing { dealing_of partition.new ≡ dealing_of partition.old }
    ensures writes { (rows : List Row) (start : List (Option (List ℕ))) → WritesRows rows start (map W.contents outs.old) partition.old
        → OnOk result (WritesRows rows start (map W.contents outs.new) partition.new) }
{
    match partition {
        RowTexts::Whole(whole) => write_much_text(whole, outs),
        RowTexts::Parts(parts) => write_much_parts(parts, outs),
    }
}

/// Puts a row into a partition, if it is not late.
///
/// # Errors
///
/// `Memory`.
pub(crate) fn put(partition: &mut RowTexts, row: GoodRow<'_>) -> Result<Outcome, RowFault>
    ensures rule { rule_of partition.new ≡ rule_of partition.old }
    ensures dealing { dealing_of partition.new ≡ dealing_of partition.old }
    ensures fate { (rows : List Row) (start : List (Option (List ℕ))) (now : List (Option (List ℕ))) → WritesRows rows start now partition.old
        → IfOk result (λ outcome. fate_of outcome ≡ fate_by_place (place_fault (rule_of partition.old).most_rows (rule_of partition.old).bound (times_of rows) row.entry.time)) }
    ensures puts { (rows : List Row) (start : List (Option (List ℕ))) (now : List (Option (List ℕ))) → WritesRows rows start now partition.old
        → IfOk result (λ outcome. WritesRows (rows_put (fate_of outcome) (said_of row.entry) rows) start now partition.new) }
{
    match partition.put(row) {
        Ok(()) => Ok(Outcome::Written),
        Err(PutFault::Place(PlaceFault::Late(time, mark))) => Ok(Outcome::Late(time, mark)),
        Err(PutFault::Place(PlaceFault::Range)) => {
            Ok(Outcome::Bad(RowFault::Place(PlaceFault::Range)))
        }
        Err(PutFault::Memory) => Err(RowFault::Memory),
    }
}

/// Ends a partition, and writes the text that it keeps.
fn end_whole<W: Write>(partition: &mut PartitionText, outs: &mut [W]) -> Result<(), RowFault>
    ensures { (rows : List Row) (start : Option (List ℕ)) → WritesWhole rows start (stream_at (map W.contents outs.old) 0) partition.old
        → OnOk result (WritesPartition (whole_rule partition.old) rows start (stream_at (map W.contents outs.new) 0)) }
{
    partition.end()?;
    write_text(partition, outs)
}

/// Writes the texts that parts keep, each to the stream at its place.
fn write_parts<W: Write>(parts: &PartTexts, outs: &mut [W]) -> Result<(), RowFault>
    ensures { OnOk result ((i : ℕ) → i < length (texts_of parts.now) → Appends (stream_at (map W.contents outs.old) i) (stream_at (map W.contents outs.new) i) (text_at (texts_of parts.now) i).text) }
{
    for place in 0..parts.texts().len() {
        write_at(outs, place, parts.texts()[place].text().as_bytes())?;
    }
    Ok(())
}

/// Ends a partition in each part, and writes the texts that they keep.
fn end_parts<W: Write>(parts: &mut PartTexts, outs: &mut [W]) -> Result<(), RowFault>
    ensures { (rows : List Row) (start : List (Option (List ℕ))) → WritesParts rows start (map W.contents outs.old) parts.old
        → OnOk result (DealsPartition (parts_rule parts.old) (parts_dealing parts.old) rows start (map W.contents outs.new)) }
{
    parts.end()?;
    write_parts(parts, outs)
}

/// Ends a partition, and writes the text that it keeps.
///
/// # Errors
///
/// `Write`; `Memory`.
pub(crate) fn write_end<W: Write>(partition: &mut RowTexts, outs: &mut [W]) -> Result<(), RowFault>
    ensures { (rows : List Row) (start : List (Option (List ℕ))) → WritesRows rows start (map W.contents outs.old) partition.old
        → OnOk result (WritesAll (rule_of partition.old) (dealing_of partition.old) rows start (map W.contents outs.new)) }
{
    match partition {
        RowTexts::Whole(whole) => end_whole(whole, outs),
        RowTexts::Parts(parts) => end_parts(parts, outs),
    }
}
