//! A record, from the file to where it goes.

ghost use Rattle.std.specs.Prelude.{◌≡◌, ℕ, List, Option, IfOk};
ghost use Rattle.entry_texts.specs.Partitions.{Row};
ghost use Rattle.import_copies.specs.Copies.{Takes, TakesNext};
ghost use Rattle.imports.specs.Reading.{Rest, StandsAt};
ghost use Rattle.import_copies.specs.Asking.{asked_of};
ghost use Rattle.import_copies.specs.Files.{ReadsRow};
ghost use Rattle.known_records.specs.Known.{keys_in, columns_in};
ghost use Rattle.csv.specs.Records.{fields_of};
ghost use Rattle.import_copies.specs.Rows.{good_of, rule_in, MakesRow};
ghost use Rattle.import_copies.specs.Streams.{WritesRows, rule_of, dealing_of};

use crate::outcome::{Outcome, is_final};
use crate::partition::put;
use crate::row::{GoodRow, good_row};
use crate::row_texts::RowTexts;
use asked_fields::AskedField;
use csv::ByteRecord;
use decimal_texts::DecimalPoint;
use import_columns::Column;
use imports::{Pick, Records, RowFault, RowNumbers, RowRule, fill_row};
use known_records::{KnownRecords, known_before};
use name_table::NameTable;
use std::io::Read;

/// A file whose records are taken.
#[derive(Clone, Copy)]
pub(crate) struct Source<'s> {
    /// Its name.
    pub(crate) file: &'s str,
    /// What each number of a row is.
    pub(crate) columns: &'s [Column<'s>],
    /// The fields that they ask for.
    pub(crate) fields: &'s [AskedField<'s>],
    /// Where the texts of these stand in a row of CSV, where they do not all stand in it as they are.
    pub(crate) picks: &'s [Pick],
    /// Where these texts stand in a record.
    pub(crate) places: &'s [usize],
    /// What stands for the point of decimals.
    pub(crate) point: DecimalPoint,
    /// Which of the columns is the time.
    pub(crate) time: usize,
}

impl<'s> Source<'s> {
    /// How the numbers of a row come of a record.
    fn row_rule(&self) -> RowRule<'s>
        ensures { result ≡ rule_in self.now }
    {
        RowRule {
            columns: self.columns,
            places: self.places,
            point: self.point,
        }
    }
}

/// The row of a record.
///
/// # Errors
///
/// Why it gives none; `Memory`.
fn row_of<'n>(
    record: &ByteRecord,
    source: &Source<'_>,
    names: &mut NameTable,
    numbers: &'n mut RowNumbers,
) -> Result<GoodRow<'n>, RowFault>
    ensures { MakesRow (rule_in source.now) source.now.time (fields_of record.now) result }
{
    fill_row(numbers, names, source.row_rule(), record)?;
    good_row(numbers.numbers(), source.time)
}

/// The row of the next record, if there is a record.
///
/// # Errors
///
/// Why the record gives none, or why there can be no further one.
fn next_row<'n, R: Read + Drop>(
    rows: &mut Records<R>,
    source: Source<'_>,
    names: &mut NameTable,
    numbers: &'n mut RowNumbers,
) -> Result<Option<GoodRow<'n>>, RowFault>
    ensures { (rest : Rest) → StandsAt R.remaining rows.old rest → ReadsRow R.remaining source.entry rest rows.new result }
{
    if !rows.advance(source.fields, source.picks)? {
        return Ok(None);
    }
    let row = row_of(rows.record(), &source, names, numbers)?;
    Ok(Some(row))
}

/// Puts the row of a record into a partition, if no record before is the same and it is not late.
///
/// # Errors
///
/// `Memory`.
fn place_row(
    row: GoodRow<'_>,
    fields: &ByteRecord,
    places: &[usize],
    known: &mut Option<KnownRecords>,
    partition: &mut RowTexts,
) -> Result<Outcome, RowFault>
    ensures rule { rule_of partition.new ≡ rule_of partition.old }
    ensures dealing { dealing_of partition.new ≡ dealing_of partition.old }
    ensures columns { columns_in known.new ≡ columns_in known.old }
    ensures takes { (rows : List Row) (start : List (Option (List ℕ))) (now : List (Option (List ℕ))) → WritesRows rows start now partition.old
        → IfOk result (λ outcome. Takes (keys_in known.old) rows start now known.new partition.new outcome (good_of known.old places.now (fields_of fields.now) row.entry)) }
{
    match known_before(known, places, fields)? {
        Some(place) => Ok(Outcome::Twice(place)),
        None => put(partition, row),
    }
}

/// Takes the next record, and tells what comes of it, if there is one.
///
/// # Errors
///
/// Why there can be no further one: any fault but that of a record; `Memory`.
pub(crate) fn take_record<R: Read + Drop>(
    rows: &mut Records<R>,
    source: Source<'_>,
    names: &mut NameTable,
    numbers: &mut RowNumbers,
    known: &mut Option<KnownRecords>,
    partition: &mut RowTexts,
) -> Result<Option<Outcome>, RowFault>
    ensures rule { rule_of partition.new ≡ rule_of partition.old }
    ensures dealing { dealing_of partition.new ≡ dealing_of partition.old }
    ensures columns { columns_in known.new ≡ columns_in known.old }
    ensures takes { (before : List Row) (start : List (Option (List ℕ))) (now : List (Option (List ℕ))) → WritesRows before start now partition.old
        → IfOk result (λ outcome. TakesNext R.remaining (asked_of source.entry known.old) rows.old rows.new (keys_in known.old) before start now known.new partition.new outcome) }
{
    match next_row(rows, source, names, numbers) {
        Ok(Some(row)) => {
            let outcome = place_row(row, rows.record(), source.places, known, partition)?;
            Ok(Some(outcome))
        }
        Ok(None) => Ok(None),
        Err(fault) if is_final(fault) => Err(fault),
        Err(fault) => Ok(Some(Outcome::Bad(fault))),
    }
}
