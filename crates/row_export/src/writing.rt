//! A table, row by row.

ghost use Rattle.std.specs.Prelude.{◌≡◌, [], IfOk, IfErr, List, OnOk, map, string_bytes};
ghost use Rattle.std.specs.Io.KnownBytes.{Appends};
ghost use Rattle.csv.specs.Records.{fields_of};
ghost use Rattle.csv.specs.Writing.{text_written};
ghost use Rattle.std.specs.List.{flat_map};
ghost use Rattle.row_lines.specs.Sequences.{rows_left, width_of, last_of};
ghost use Rattle.row_tables.specs.declared.kind.CellKind.{CellKind as Kind};
ghost use Rattle.row_export.specs.Faults.{IsTableFault};
ghost use Rattle.row_export.specs.Shown.{IsBetween, WritesTable, kinds_of, titles_of, header_shown, csv_line};

use crate::cells::CellWriter;
use crate::fault::ExportFault;
use crate::record::{fill_record, header_of};
use crate::table::Table;
use csv::{Error, ErrorKind, StringRecord, Writer, WriterBuilder};
use row_lines::{RowLines, RowsFault};
use std::alloc::Global;
use std::io::{BufWriter, Read, Write};

fn write_fault(error: &Error) -> ExportFault
    ensures { (kinds : List Kind) → IsTableFault kinds result }
{
    match error.kind() {
        ErrorKind::OutOfMemory => ExportFault::Memory,
        _ => ExportFault::Write,
    }
}

/// Writes a record.
fn put<W: Write + Drop>(out: &mut Writer<W>, cells: &StringRecord) -> Result<(), ExportFault>
    requires { IsBetween out.old }
    ensures written { OnOk result (Appends (text_written W.contents out.old) (text_written W.contents out.new) (csv_line (fields_of cells.now))) }
    ensures between { OnOk result (IsBetween out.new) }
    ensures refused { (kinds : List Kind) → IfErr result (IsTableFault kinds) }
{
    match out.write_byte_record(cells.as_byte_record()) {
        Ok(()) => Ok(()),
        Err(error) => Err(write_fault(&error)),
    }
}

/// Writes the rows that are left as CSV, a record each.
fn put_rows<R: Read + Drop, W: Write>(
    alloc: Global,
    rows: &mut RowLines<R>,
    table: &Table,
    names: &[String],
    out: &mut W,
) -> Result<(), ExportFault>
    ensures table { OnOk result (WritesTable csv_line (kinds_of table.now) (map string_bytes names.now) [] (width_of rows.old) (last_of rows.old)
        (rows_left R.remaining rows.old) (W.contents out.old) (W.contents out.new)) }
    ensures refused { IfErr result (IsTableFault (kinds_of table.now)) }
{
    let mut writer = CellWriter::new(alloc);
    let mut line = Vec::new(alloc);
    for _ in 0..u64::MAX {
        match rows.advance() {
            Ok(Some(row)) => {
                fill_record(&mut line, &mut writer, &table.kinds, names, &row)?;
                if out.write_all(line.as_slice()).is_err() {
                    return Err(ExportFault::Write);
                }
            }
            Ok(None) => return Ok(()),
            Err(RowsFault::Memory) => return Err(ExportFault::Memory),
            Err(fault) => return Err(ExportFault::Rows(fault)),
        }
    }
    Err(ExportFault::Rows(RowsFault::Read))
}

/// Writes the record of a table's names, where there is to be one, and gives back the writer.
fn write_header<W: Write + Drop>(
    alloc: Global,
    table: &Table,
    has_header: bool,
    out: W,
) -> Result<W, ExportFault>
    ensures written { IfOk result (λ done. Appends (W.contents out) (W.contents done) (flat_map csv_line (header_shown has_header (titles_of table.now)))) }
    ensures refused { (kinds : List Kind) → IfErr result (IsTableFault kinds) }
{
    if !has_header {
        return Ok(out);
    }
    let mut writer = WriterBuilder::new().from_writer(out);
    put(&mut writer, &header_of(alloc, &table.names)?)?;
    match writer.into_inner() {
        Ok(out) => Ok(out),
        Err(_) => Err(ExportFault::Write),
    }
}

/// Writes rows as CSV, behind a record of the names of their numbers where there is to be a header, and gives back the
/// writer.
///
/// # Errors
///
/// `Rows`; `Cell`; `Write`; `Memory`. Some records may have been written then.
pub fn write_table<R: Read + Drop, W: Write + Drop>(
    alloc: Global,
    rows: &mut RowLines<R>,
    table: &Table,
    names: &[String],
    has_header: bool,
    out: W,
) -> Result<W, ExportFault>
    ensures table { IfOk result (λ done. WritesTable csv_line (kinds_of table.now) (map string_bytes names.now) (header_shown has_header (titles_of table.now))
        (width_of rows.old) (last_of rows.old) (rows_left R.remaining rows.old) (W.contents out) (W.contents done)) }
    ensures refused { IfErr result (IsTableFault (kinds_of table.now)) }
{
    let out = write_header(alloc, table, has_header, out)?;
    let Ok(mut buffered) = BufWriter::new(alloc, out) else {
        return Err(ExportFault::Memory);
    };
    put_rows(alloc, rows, table, names, &mut buffered)?;
    match buffered.into_inner() {
        Ok(out) => Ok(out),
        Err(_) => Err(ExportFault::Write),
    }
}
