//! A table as JSON objects, row by row.

ghost use Rattle.std.specs.Prelude.{◌≡◌, [], IfOk, IfErr, List, OnOk, length, map, string_bytes};
ghost use Rattle.std.specs.Io.KnownBytes.{Appends};
ghost use Rattle.row_lines.specs.Rows.{numbers_in};
ghost use Rattle.row_lines.specs.Sequences.{rows_left, width_of, last_of};
ghost use Rattle.row_tables.specs.declared.kind.CellKind.{CellKind as Kind};
ghost use Rattle.row_export.specs.Faults.{IsTableFault};
ghost use Rattle.row_export.specs.Shown.{WritesTable, kinds_of, titles_of};
ghost use Rattle.row_export.specs.Objects.{key_text, HasMember, HasMembers, IsLine, object_line};

use crate::cells::CellWriter;
use crate::fault::ExportFault;
use crate::record::{has_width, number_at};
use crate::table::Table;
use crate::values::push_comma;
use json::Writer;
use plan_model::Row;
use row_lines::{RowLines, RowsFault};
use row_tables::{CellFault, CellKind};
use std::alloc::{AllocError, Global};
use std::io::{BufWriter, Read, Write};

/// The key of a member that is called so, with its colon.
fn key_of(alloc: Global, title: &str) -> Result<Vec<u8>, AllocError>
    ensures { IfOk result (λ key. key.items ≡ key_text title.now) }
{
    let mut text = Writer::new(Vec::new(alloc));
    text.key(title)?;
    Ok(text.into_inner())
}

/// The key of each title.
fn keys_of(alloc: Global, titles: &[String]) -> Result<Vec<Vec<u8>>, AllocError>
    ensures { IfOk result (λ keys. map (λ key. key.items) keys.items ≡ map key_text (map string_bytes titles.now)) }
{
    let mut keys = Vec::new(alloc);
    for title in titles {
        keys.push(key_of(alloc, title.as_str())?)?;
    }
    Ok(keys)
}

/// Puts the member of a number behind what a line has of an object, behind a comma where it is not the first.
fn put_number(
    line: &mut Vec<u8>,
    writer: &mut CellWriter,
    place: usize,
    key: &[u8],
    kind: &CellKind,
    names: &[String],
    number: i128,
) -> Result<(), CellFault>
    ensures { OnOk result (HasMember place key.now kind.now (map string_bytes names.now) number line.old.items line.new.items) }
{
    push_comma(line, place)?;
    line.extend_from_slice(key)?;
    writer.put_value(line, kind, names, number)
}

/// Puts a member for each number of a row behind what a line has of an object, by the keys of their titles.
fn put_members(
    line: &mut Vec<u8>,
    writer: &mut CellWriter,
    table: &Table,
    keys: &[Vec<u8>],
    names: &[String],
    row: &Row,
) -> Result<(), ExportFault>
    requires keys { map (λ key. key.items) keys.now ≡ map key_text (titles_of table.now) }
    requires wide { length (numbers_in row.now) ≡ length (kinds_of table.now) }
    ensures members { OnOk result (HasMembers (titles_of table.now) (kinds_of table.now) (map string_bytes names.now) (numbers_in row.now) line.old.items line.new.items) }
    ensures refused { IfErr result (IsTableFault (kinds_of table.now)) }
{
    for (place, kind) in table.kinds.iter().enumerate() {
        let (Some(key), Some(number)) = (keys.get(place), number_at(row, place)) else {
            return Err(ExportFault::Rows(RowsFault::Line));
        };
        match put_number(line, writer, place, key.as_slice(), kind, names, number) {
            Ok(()) => {}
            Err(CellFault::Memory) => return Err(ExportFault::Memory),
            Err(fault) => return Err(ExportFault::Cell(place, fault)),
        }
    }
    Ok(())
}

/// Makes the line of a row's object.
fn fill_line(
    line: &mut Vec<u8>,
    writer: &mut CellWriter,
    table: &Table,
    keys: &[Vec<u8>],
    names: &[String],
    row: &Row,
) -> Result<(), ExportFault>
    requires { map (λ key. key.items) keys.now ≡ map key_text (titles_of table.now) }
    ensures line { OnOk result (IsLine (titles_of table.now) (kinds_of table.now) (map string_bytes names.now) (numbers_in row.now) line.new.items) }
    ensures refused { IfErr result (IsTableFault (kinds_of table.now)) }
{
    if !has_width(&table.kinds, row) {
        return Err(ExportFault::Rows(RowsFault::Line));
    }
    line.clear();
    line.push(b'{')?;
    put_members(line, writer, table, keys, names, row)?;
    line.extend_from_slice(b"}\n")?;
    Ok(())
}

/// Writes the rows that are left as JSON objects, a line each.
fn put_rows<R: Read + Drop, W: Write>(
    alloc: Global,
    rows: &mut RowLines<R>,
    table: &Table,
    names: &[String],
    out: &mut W,
) -> Result<(), ExportFault>
    ensures table { OnOk result (WritesTable (object_line (titles_of table.now) (kinds_of table.now)) (kinds_of table.now) (map string_bytes names.now) [] (width_of rows.old) (last_of rows.old)
        (rows_left R.remaining rows.old) (W.contents out.old) (W.contents out.new)) }
    ensures refused { IfErr result (IsTableFault (kinds_of table.now)) }
{
    let keys = keys_of(alloc, &table.names)?;
    let mut writer = CellWriter::new(alloc);
    let mut line = Vec::new(alloc);
    for _ in 0..u64::MAX {
        match rows.advance() {
            Ok(Some(row)) => {
                fill_line(&mut line, &mut writer, table, &keys, names, &row)?;
                if out.write_all(line.as_slice()).is_err() {
                    return Err(ExportFault::Write);
                }
            }
            Ok(None) => return Ok(()),
            Err(RowsFault::Memory) => return Err(ExportFault::Memory),
            Err(fault) => return Err(ExportFault::Rows(fault)),
        }
    }
    Err(ExportFault::Rows(RowsFault::Read))
}

/// Writes rows as JSON objects, a line each, and gives back the writer. A member of an object has the name of its
/// number; decimals are numbers of JSON, with all their places, and times, dates and names are strings.
///
/// # Errors
///
/// `Rows`; `Cell`; `Write`; `Memory`. Some objects may have been written then.
pub fn write_objects<R: Read + Drop, W: Write + Drop>(
    alloc: Global,
    rows: &mut RowLines<R>,
    table: &Table,
    names: &[String],
    out: W,
) -> Result<W, ExportFault>
    ensures table { IfOk result (λ done. WritesTable (object_line (titles_of table.now) (kinds_of table.now)) (kinds_of table.now) (map string_bytes names.now) []
        (width_of rows.old) (last_of rows.old) (rows_left R.remaining rows.old) (W.contents out) (W.contents done)) }
    ensures refused { IfErr result (IsTableFault (kinds_of table.now)) }
{
    let Ok(mut buffered) = BufWriter::new(alloc, out) else {
        return Err(ExportFault::Memory);
    };
    put_rows(alloc, rows, table, names, &mut buffered)?;
    match buffered.into_inner() {
        Ok(out) => Ok(out),
        Err(_) => Err(ExportFault::Write),
    }
}
