//! Writing CSV.

ghost use Rattle.std.specs.Prelude.{◌≡◌, ◌++◌, ◌∷◌, [], ℕ, List, Option, IfErr, IfOk, OnOk, map};
ghost use Rattle.std.specs.Io.KnownBytes.{Appends};
ghost use Rattle.csv.specs.Records.{fields_of};
ghost use Rattle.import_asides.specs.Written.{HasRecords, IsUnwritten, csv_text};

use csv::{ByteRecord, Error, ErrorKind, Writer, WriterBuilder};
use imports::RowFault;
use std::alloc::Global;
use std::io::Write;

/// The fault of a record that is not written.
fn write_fault(error: &Error) -> RowFault
    ensures { IsUnwritten result }
{
    match error.kind() {
        ErrorKind::OutOfMemory => RowFault::Memory,
        _ => RowFault::Write,
    }
}

/// A writer of CSV on the heap, since it has room for what it writes. It comes onto the stack when it is made and when
/// it is let go, in frames of their own, which are not there while it writes.
pub(crate) struct CsvWriter<W: Write + Drop> {
    writer: Box<Writer<W>>,
}

impl<W: Write + Drop> Drop for CsvWriter<W> {
    #[inline(never)]
    fn drop(self) {
        let CsvWriter { writer } = self;
        drop(writer);
    }
}

impl<W: Write + Drop> CsvWriter<W> {
    /// A writer that has written nothing.
    ///
    /// # Errors
    ///
    /// `Memory`.
    #[inline(never)]
    pub(crate) fn new(alloc: Global, out: W) -> Result<CsvWriter<W>, RowFault>
        ensures written { IfOk result (λ writer. HasRecords W.contents (W.contents out) [] [] writer) }
        ensures refused { IfErr result (λ fault. fault ≡ RowFault.Memory) }
    {
        match Box::new(alloc, WriterBuilder::new().from_writer(out)) {
            Ok(writer) => Ok(CsvWriter { writer }),
            Err(_) => Err(RowFault::Memory),
        }
    }

    /// Writes a field.
    ///
    /// # Errors
    ///
    /// `Write`; `Memory`.
    pub(crate) fn put(&mut self, text: &[u8]) -> Result<(), RowFault>
        ensures written { (start : Option (List ℕ)) (records : List (List (List ℕ))) (fields : List (List ℕ)) → HasRecords W.contents start records fields self.old → OnOk result (HasRecords W.contents start records (fields ++ text.now ∷ []) self.new) }
        ensures refused { IfErr result (λ fault. IsUnwritten fault) }
    {
        match self.writer.write_field(text) {
            Ok(()) => Ok(()),
            Err(error) => Err(write_fault(&error)),
        }
    }

    /// Ends a record.
    ///
    /// # Errors
    ///
    /// `Write`; `Memory`.
    pub(crate) fn end_record(&mut self) -> Result<(), RowFault>
        ensures written { (start : Option (List ℕ)) (records : List (List (List ℕ))) (fields : List (List ℕ)) → HasRecords W.contents start records fields self.old → OnOk result (HasRecords W.contents start (records ++ fields ∷ []) [] self.new) }
        ensures refused { IfErr result (λ fault. IsUnwritten fault) }
    {
        match self.writer.end_record() {
            Ok(()) => Ok(()),
            Err(error) => Err(write_fault(&error)),
        }
    }

    /// Writes a record of some fields, where none is open.
    ///
    /// # Errors
    ///
    /// `Write`; `Memory`.
    pub(crate) fn put_fields(&mut self, fields: &[&[u8]]) -> Result<(), RowFault>
        ensures written { (start : Option (List ℕ)) (records : List (List (List ℕ))) → HasRecords W.contents start records [] self.old → OnOk result (HasRecords W.contents start (records ++ map (λ field. field.now) fields.now ∷ []) [] self.new) }
        ensures refused { IfErr result (λ fault. IsUnwritten fault) }
    {
        match self.writer.write_fields(fields) {
            Ok(()) => Ok(()),
            Err(error) => Err(write_fault(&error)),
        }
    }

    /// Writes a record, where none is open.
    ///
    /// # Errors
    ///
    /// `Write`; `Memory`.
    pub(crate) fn put_row(&mut self, row: &ByteRecord) -> Result<(), RowFault>
        ensures written { (start : Option (List ℕ)) (records : List (List (List ℕ))) → HasRecords W.contents start records [] self.old → OnOk result (HasRecords W.contents start (records ++ fields_of row.now ∷ []) [] self.new) }
        ensures refused { IfErr result (λ fault. IsUnwritten fault) }
    {
        match self.writer.write_byte_record(row) {
            Ok(()) => Ok(()),
            Err(error) => Err(write_fault(&error)),
        }
    }

    /// Writes what is held back, and gives back what it was written to.
    ///
    /// # Errors
    ///
    /// `Write`.
    #[inline(never)]
    pub(crate) fn finish(self) -> Result<W, RowFault>
        ensures written { (start : Option (List ℕ)) (records : List (List (List ℕ))) → HasRecords W.contents start records [] self → IfOk result (λ out. Appends start (W.contents out) (csv_text records)) }
        ensures refused { IfErr result (λ fault. fault ≡ RowFault.Write) }
    {
        let CsvWriter { writer } = self;
        match Box::into_inner(writer).into_inner() {
            Ok(out) => Ok(out),
            Err(_) => Err(RowFault::Write),
        }
    }
}
