//! Records that are set aside, kept as CSV.

ghost use Rattle.std.specs.Prelude.{◌≡◌, ◌++◌, ◌∷◌, [], ℕ, List, Option, IfErr, IfOk, OnOk, bytes_eq, if◌then◌else◌};
ghost use Rattle.std.specs.Io.KnownBytes.{Appends};
ghost use Rattle.std.specs.List.{list_any};
ghost use Rattle.csv.specs.Records.{fields_of};
ghost use Rattle.imports.specs.Rows.{column_text};
ghost use Rattle.import_asides.specs.Apart.{HasApart, names_apart, texts_apart};
ghost use Rattle.import_asides.specs.Written.{HasRecords, IsUnwritten, csv_text};

use crate::writer::CsvWriter;
use csv::ByteRecord;
use import_columns::Column;
use imports::RowFault;
use std::alloc::Global;
use std::io::Write;

/// Records that an import sets aside, as late or as there before, written as CSV with the fields that its columns name.
#[derive(Drop)]
pub struct SetAside<W: Write + Drop> {
    writer: CsvWriter<W>,
}

/// Whether a column has the field of a name.
fn is_of(column: &Column<'_>, field: &str) -> bool
    ensures { result ≡ bytes_eq column.now.field.now field.now }
{
    column.field == field
}

/// Whether one of some columns has the field of a name.
fn has_field(columns: &[Column<'_>], field: &str) -> bool
    ensures { result ≡ list_any (λ column. bytes_eq column.field.now field.now) columns.now }
{
    columns.iter().any(|column| is_of(column, field))
}

/// Writes the text of a field, if none of the columns before has the field.
fn put_once<W: Write + Drop>(
    writer: &mut CsvWriter<W>,
    before: &[Column<'_>],
    field: &str,
    text: &[u8],
) -> Result<(), RowFault>
    ensures written { (start : Option (List ℕ)) (records : List (List (List ℕ))) (fields : List (List ℕ)) → HasRecords W.contents start records fields writer.old
        → OnOk result (HasRecords W.contents start records (fields ++ (if list_any (λ column. bytes_eq column.field.now field.now) before.now then [] else text.now ∷ [])) writer.new) }
    ensures refused { IfErr result (λ fault. IsUnwritten fault) }
{
    if has_field(before, field) {
        return Ok(());
    }
    writer.put(text)
}

/// The text of a column's field: the one at its place, or where it has none at that of the column.
fn text_of<'r>(record: &'r ByteRecord, places: &[usize], column: usize) -> &'r [u8]
    ensures { result.now ≡ column_text places.now (fields_of record.now) column }
{
    let place = match places.get(column) {
        Some(place) => *place,
        None => column,
    };
    match record.get(place) {
        Some(text) => text,
        None => b"",
    }
}

impl<W: Write + Drop> SetAside<W> {
    /// No records yet, and the names of the fields.
    ///
    /// # Errors
    ///
    /// `Write`; `Memory`.
    pub fn new(alloc: Global, out: W, columns: &[Column<'_>]) -> Result<SetAside<W>, RowFault>
        ensures names { IfOk result (λ aside. HasApart W.contents (W.contents out) (names_apart columns.now ∷ []) aside) }
        ensures refused { IfErr result (λ fault. IsUnwritten fault) }
    {
        let mut writer = CsvWriter::new(alloc, out)?;
        for (i, column) in columns.iter().enumerate() {
            let field = column.field;
            put_once(&mut writer, &columns[..i], field, field.as_bytes())?;
        }
        writer.end_record()?;
        Ok(SetAside { writer })
    }

    /// Writes a record: the texts of the fields, as they stand.
    ///
    /// # Errors
    ///
    /// `Write`; `Memory`.
    pub fn put(
        &mut self,
        columns: &[Column<'_>],
        places: &[usize],
        record: &ByteRecord,
    ) -> Result<(), RowFault>
        ensures texts { (start : Option (List ℕ)) (records : List (List (List ℕ))) → HasApart W.contents start records self.old
            → OnOk result (HasApart W.contents start (records ++ texts_apart columns.now places.now (fields_of «record».now) ∷ []) self.new) }
        ensures refused { IfErr result (λ fault. IsUnwritten fault) }
    {
        for (i, column) in columns.iter().enumerate() {
            let text = text_of(record, places, i);
            put_once(&mut self.writer, &columns[..i], column.field, text)?;
        }
        self.writer.end_record()
    }

    /// Writes what is held back, and gives back what it was written to.
    ///
    /// # Errors
    ///
    /// `Write`.
    pub fn finish(self) -> Result<W, RowFault>
        ensures whole { (start : Option (List ℕ)) (records : List (List (List ℕ))) → HasApart W.contents start records self → IfOk result (λ out. Appends start (W.contents out) (csv_text records)) }
        ensures refused { IfErr result (λ fault. fault ≡ RowFault.Write) }
    {
        self.writer.finish()
    }
}
