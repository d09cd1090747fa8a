//! A row as the record of its cells.

ghost use Rattle.std.specs.Prelude.{◌≡◌, IfOk, IfErr, IsTrue, OnOk, length, map, slice_get, string_bytes};
ghost use Rattle.csv.specs.Records.{fields_of};
ghost use Rattle.row_lines.specs.Rows.{numbers_in};
ghost use Rattle.row_export.specs.Faults.{IsTableFault};
ghost use Rattle.row_export.specs.Records.{HasFieldAt, HasFields, IsRecord};

use crate::cells::CellWriter;
use crate::fault::ExportFault;
use crate::values::push_comma;
use csv::StringRecord;
use plan_model::Row;
use row_lines::RowsFault;
use row_tables::{CellFault, CellKind};
use std::alloc::Global;

/// The number at a place of a row, as its line has them.
pub(crate) fn number_at(row: &Row, place: usize) -> Option<i128>
    ensures { result ≡ slice_get (numbers_in row.now) place }
{
    match place {
        0 => Some(i128::from(row.start)),
        1 => Some(i128::from(row.end)),
        2 => Some(i128::from(row.key)),
        _ => row.values.get(place - 3),
    }
}

/// Whether a row has as many numbers as are shown.
pub(crate) fn has_width(kinds: &[CellKind], row: &Row) -> bool
    ensures { IsTrue result → length (numbers_in row.now) ≡ length kinds.now }
{
    kinds.len() >= 3 && kinds.len() - 3 == row.values.len()
}

/// Puts the field of a number behind what a line has of a record, behind a comma where it is not the first.
fn put_number(
    line: &mut Vec<u8>,
    writer: &mut CellWriter,
    place: usize,
    kind: &CellKind,
    names: &[String],
    number: i128,
) -> Result<(), CellFault>
    ensures { OnOk result (HasFieldAt place kind.now (map string_bytes names.now) number line.old.items line.new.items) }
{
    push_comma(line, place)?;
    writer.put_field(line, kind, names, number)
}

/// Puts a field for each number of a row behind what a line has of a record.
fn put_fields(
    line: &mut Vec<u8>,
    writer: &mut CellWriter,
    kinds: &[CellKind],
    names: &[String],
    row: &Row,
) -> Result<(), ExportFault>
    requires { length (numbers_in row.now) ≡ length kinds.now }
    ensures fields { OnOk result (HasFields kinds.now (map string_bytes names.now) (numbers_in row.now) line.old.items line.new.items) }
    ensures refused { IfErr result (IsTableFault kinds.now) }
{
    for (place, kind) in kinds.iter().enumerate() {
        let Some(number) = number_at(row, place) else {
            return Err(ExportFault::Rows(RowsFault::Line));
        };
        match put_number(line, writer, place, kind, names, number) {
            Ok(()) => {}
            Err(CellFault::Memory) => return Err(ExportFault::Memory),
            Err(fault) => return Err(ExportFault::Cell(place, fault)),
        }
    }
    Ok(())
}

/// Makes the line of a row's record.
///
/// # Errors
///
/// `Rows` where the row has other numbers than are shown; `Cell` of the first number that is shown as nothing;
/// `Memory`.
pub(crate) fn fill_record(
    line: &mut Vec<u8>,
    writer: &mut CellWriter,
    kinds: &[CellKind],
    names: &[String],
    row: &Row,
) -> Result<(), ExportFault>
    ensures record { OnOk result (IsRecord kinds.now (map string_bytes names.now) (numbers_in row.now) line.new.items) }
    ensures refused { IfErr result (IsTableFault kinds.now) }
{
    if !has_width(kinds, row) {
        return Err(ExportFault::Rows(RowsFault::Line));
    }
    line.clear();
    put_fields(line, writer, kinds, names, row)?;
    line.push(b'\n')?;
    Ok(())
}

/// Makes the record of names.
///
/// # Errors
///
/// Only where memory runs out.
pub(crate) fn header_of(alloc: Global, names: &[String]) -> Result<StringRecord, ExportFault>
    ensures titles { IfOk result (λ titles. fields_of titles ≡ map string_bytes names.now) }
    ensures refused { IfErr result (λ fault. fault ≡ ExportFault.Memory) }
{
    let mut titles = StringRecord::new(alloc);
    for name in names {
        titles.push_field(name.as_str())?;
    }
    Ok(titles)
}
