//! From a record to the numbers of a row.

ghost use Rattle.std.specs.Prelude.{◌≡◌, [], Err, IfOk};
ghost use Rattle.csv.specs.Records.{fields_of};
ghost use Rattle.import_columns.specs.Values.{IsNumberOf, read_text};
ghost use Rattle.imports.specs.Rows.{IsNameOf, GivesNumber, FillsRow, place_said};

use crate::fault::RowFault;
use crate::picking::text_at;
use asked_fields::Joint;
use csv::ByteRecord;
use decimal_texts::{DecimalPoint, swap_points};
use field_values::FieldFault;
use import_columns::{Column, ColumnKind, ValueKind, has_point, number_of};
use name_table::NameTable;
use std::alloc::{AllocError, Global};
use std::str;

/// How the numbers of a row come of a record.
#[derive(Clone, Copy)]
pub struct RowRule<'r> {
    /// What each number is.
    pub columns: &'r [Column<'r>],
    /// Where their texts stand.
    pub places: &'r [usize],
    /// What stands for the point of decimals.
    pub point: DecimalPoint,
}

/// The numbers of a row, and room for a text that is read by other points.
#[derive(Drop)]
pub struct RowNumbers {
    pub(crate) numbers: Vec<i64>,
    pointed: Vec<u8>,
}

impl RowNumbers {
    /// No numbers yet.
    pub fn new(alloc: Global) -> RowNumbers {
        RowNumbers {
            numbers: Vec::new(alloc),
            pointed: Vec::new(alloc),
        }
    }

    /// The numbers of the row that was filled last, in the order of the columns.
    pub fn numbers(&self) -> &[i64]
        ensures { result.now ≡ self.now.numbers.items }
    {
        self.numbers.as_slice()
    }
}

/// The number of a name, which is not empty.
fn name_number(
    names: &mut NameTable,
    text: &[u8],
    column: usize,
    place: usize,
) -> Result<i64, RowFault>
    ensures { IsNameOf names.old text.now column place names.new result }
{
    if text.is_empty() {
        return Err(RowFault::Value(column, place, FieldFault::EmptyName));
    }
    let Ok(name) = str::from_utf8(text) else {
        return Err(RowFault::NoText(column));
    };
    Ok(names.number_of(name)? as i64)
}

/// The number of a text that has what stands for a point.
fn pointed_number(
    pointed: &mut Vec<u8>,
    joint: Option<Joint>,
    kind: &ValueKind<'_>,
    point: DecimalPoint,
    text: &[u8],
) -> Result<Result<i64, FieldFault>, AllocError>
    ensures { IfOk result (IsNumberOf joint kind.now (read_text point kind.now text.now)) }
{
    match point {
        DecimalPoint::Comma if has_point(kind) => {
            swap_points(pointed, text)?;
            Ok(number_of(joint, kind, pointed))
        }
        _ => Ok(number_of(joint, kind, text)),
    }
}

/// The number that the text of the field at a place is, by the column of this index.
fn value(
    pointed: &mut Vec<u8>,
    names: &mut NameTable,
    column: &Column<'_>,
    point: DecimalPoint,
    text: &[u8],
    i: usize,
    place: usize,
) -> Result<i64, RowFault>
    ensures { GivesNumber point column.now i place text.now names.old names.new result }
{
    match &column.kind {
        ColumnKind::Value(kind) => {
            match pointed_number(pointed, column.joint, kind, point, text)? {
                Ok(number) => Ok(number),
                Err(fault) => Err(RowFault::Value(i, place, fault)),
            }
        }
        ColumnKind::Name => name_number(names, text, i, place),
    }
}

/// The place of a column's text.
fn place_of(places: &[usize], column: usize) -> usize
    ensures { result ≡ place_said places.now column }
{
    places.get(column).copied().unwrap_or(column)
}

/// Makes a row of a record: a number for each column, of its text. Names get numbers by the table.
///
/// # Errors
///
/// `Value` or `NoText` of the first column whose text is refused, and the row then has the numbers of those before, and
/// the table their names; `Memory`.
pub fn fill_row(
    row: &mut RowNumbers,
    names: &mut NameTable,
    rule: RowRule<'_>,
    record: &ByteRecord,
) -> Result<(), RowFault>
    ensures { FillsRow rule.entry (fields_of record.now) names.old row.new.numbers.items names.new result }
{
    row.numbers.clear();
    for (i, column) in rule.columns.iter().enumerate() {
        let place = place_of(rule.places, i);
        let text = text_at(record, place);
        row.numbers.push(value(&mut row.pointed, names, column, rule.point, text, i, place)?)?;
    }
    Ok(())
}
