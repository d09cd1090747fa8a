//! The text of a record.

ghost use Rattle.std.specs.Prelude.{◌≡◌, IfErr, IfOk};
ghost use Rattle.csv.specs.Records.{fields_of};
ghost use Rattle.import_asides.specs.Bad.{record_told};
ghost use Rattle.import_asides.specs.Written.{IsUnwritten, text_of_fields};

use crate::writer::CsvWriter;
use csv::ByteRecord;
use imports::{Records, RowFault};
use std::alloc::Global;
use std::io::Read;

/// The CSV text of a record, without the end of its line.
fn text_of_record(alloc: Global, record: &ByteRecord) -> Result<Vec<u8>, RowFault>
    ensures text { IfOk result (λ text. text.items ≡ text_of_fields (fields_of «record».now)) }
    ensures refused { IfErr result (λ fault. IsUnwritten fault) }
{
    let mut out = CsvWriter::new(alloc, Vec::new(alloc))?;
    out.put_row(record)?;
    let mut text = out.finish()?;
    let _line_feed = text.pop();
    Ok(text)
}

/// The text of the record that `records` have, as it stands: of CSV the fields of the row, in double quotes where they
/// need them, and of NDJSON the line.
///
/// # Errors
///
/// `Memory`, and `Write` where memory ran out for the text.
pub(crate) fn text_of<R: Read + Drop>(
    alloc: Global,
    records: &Records<R>,
) -> Result<Vec<u8>, RowFault>
    ensures text { IfOk result (λ text. text.items ≡ record_told records.now) }
    ensures refused { IfErr result (λ fault. IsUnwritten fault) }
{
    match records {
        Records::Rows(rows) => text_of_record(alloc, rows.record()),
        Records::Objects(lines) => Ok(Vec::from_slice(alloc, lines.text())?),
    }
}
