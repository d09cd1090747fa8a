//! Bad records, kept as CSV.

ghost use Rattle.std.specs.Prelude.{◌≡◌, ◌∷◌, [], ℕ, List, Option, IfErr, IfOk, OnOk};
ghost use Rattle.std.specs.Io.KnownBytes.{Appends};
ghost use Rattle.import_asides.specs.Bad.{HasBad, HasMoreBad, bad_fields, bad_names, record_told};
ghost use Rattle.import_asides.specs.Written.{IsUnwritten, csv_text};

use crate::text::text_of;
use crate::writer::CsvWriter;
use import_words::ImportFault;
use imports::{Records, RowFault};
use itoa::Buffer;
use std::alloc::Global;
use std::io::{Read, Write};

/// The bad records of an import, written as CSV: of each the file, the line, the code and the reason why it is bad, and
/// the record as it stands there.
#[derive(Drop)]
pub struct BadRecords<W: Write + Drop> {
    alloc: Global,
    writer: CsvWriter<W>,
}

impl<W: Write + Drop> BadRecords<W> {
    /// No records yet, and the names of the fields.
    ///
    /// # Errors
    ///
    /// `Write`; `Memory`.
    pub fn new(alloc: Global, out: W) -> Result<BadRecords<W>, RowFault>
        ensures names { IfOk result (λ bad. HasBad W.contents (W.contents out) (bad_names ∷ []) bad) }
        ensures refused { IfErr result (λ fault. IsUnwritten fault) }
    {
        let mut writer = CsvWriter::new(alloc, out)?;
        writer.put_fields(&[b"file", b"line", b"code", b"reason", b"record"])?;
        Ok(BadRecords { alloc, writer })
    }

    /// Writes the record that `rows` has, which begins at a line of the file of a name, and why it is bad.
    ///
    /// # Errors
    ///
    /// `Write`; `Memory`, also where the reason is no refusal.
    pub fn put<R: Read + Drop>(
        &mut self,
        file: &str,
        line: u64,
        rows: &Records<R>,
        reason: &ImportFault,
    ) -> Result<(), RowFault>
        ensures puts { (start : Option (List ℕ)) (records : List (List (List ℕ))) → HasBad W.contents start records self.old
            → OnOk result (HasMoreBad W.contents start records (bad_fields file.now line reason.now (record_told rows.now)) self.new) }
        ensures refused { IfErr result (λ fault. IsUnwritten fault) }
    {
        let ImportFault::Refused(code, reason) = reason else {
            return Err(RowFault::Memory);
        };
        let code = format!(in self.alloc; "{code}")?;
        let text = text_of(self.alloc, rows)?;
        let mut number = Buffer::new();
        self.writer.put_fields(&[
            file.as_bytes(),
            number.format(line).as_bytes(),
            code.as_bytes(),
            reason.as_bytes(),
            &text,
        ])
    }

    /// Writes what is held back, and gives back what it was written to.
    ///
    /// # Errors
    ///
    /// `Write`.
    pub fn finish(self) -> Result<W, RowFault>
        ensures whole { (start : Option (List ℕ)) (records : List (List (List ℕ))) → HasBad W.contents start records self → IfOk result (λ out. Appends start (W.contents out) (csv_text records)) }
        ensures refused { IfErr result (λ fault. fault ≡ RowFault.Write) }
    {
        let BadRecords { alloc: _, writer } = self;
        writer.finish()
    }
}
