//! Reading CSV.

ghost use Rattle.std.specs.Prelude.{◌≡◌, ℕ, List, Some, IfOk, IfErr};
ghost use Rattle.csv.specs.Reading.{strip_bom};
ghost use Rattle.csv.specs.Records.{fields_of};
ghost use Rattle.csv.specs.declared.parser.State.{State};
ghost use Rattle.csv.specs.declared.parser.State.TheVariants.{StartRecord};
ghost use Rattle.imports.specs.Faults.{is_final};
ghost use Rattle.imports.specs.Separators.{separator_of};
ghost use Rattle.imports.specs.Reading.{StandsIn, ReadsRow};
ghost use Rattle.std.specs.Prelude.{true};

use crate::fault::{RowFault, read_fault};
use crate::separator::Separator;
use csv::{ByteRecord, Reader, ReaderBuilder};
use std::alloc::Global;
use std::io::Read;

/// A reader of CSV on the heap, since it has room for what it reads. It comes onto the stack when it is made and when
/// it is let go, in frames of their own, which are not there while it reads.
pub(crate) struct CsvReader<R> {
    reader: Box<Reader<R>>,
}

impl<R: Drop> Drop for CsvReader<R> {
    #[inline(never)]
    fn drop(self) {
        let CsvReader { reader } = self;
        drop(reader);
    }
}

impl<R: Read + Drop> CsvReader<R> {
    /// A reader of records of any width, the first among them, with a separator between their fields.
    ///
    /// # Errors
    ///
    /// `Memory`.
    #[inline(never)]
    pub(crate) fn new(
        alloc: Global,
        input: R,
        separator: Separator,
    ) -> Result<CsvReader<R>, RowFault>
        ensures { (text : List ℕ) → R.remaining input ≡ Some text → IfOk result (λ reader. StandsIn R.remaining (separator_of separator) reader StartRecord (strip_bom text)) }
    {
        let mut builder = ReaderBuilder::new();
        let builder = builder
            .has_headers(false)
            .flexible(true)
            .delimiter(separator.byte());
        match Box::new(alloc, builder.from_reader(alloc, input)) {
            Ok(reader) => Ok(CsvReader { reader }),
            Err(_) => Err(RowFault::Memory),
        }
    }

    /// What is read.
    pub(crate) fn source(&self) -> &R {
        self.reader.get_ref()
    }

    /// At which byte of the text the next record is looked for.
    pub(crate) fn next_byte(&self) -> u64 {
        self.reader.position().byte()
    }

    /// In which line of the text the next record is looked for, counted from 1.
    pub(crate) fn next_line(&self) -> u64 {
        self.reader.position().line()
    }

    /// Goes on to the next record, and tells whether there is one.
    ///
    /// # Errors
    ///
    /// `Read`; `Memory`.
    pub(crate) fn read(&mut self, record: &mut ByteRecord) -> Result<bool, RowFault>
        ensures fault { IfErr result (λ fault. is_final fault ≡ true) }
        ensures reads { (separator : ℕ) (state : State) (text : List ℕ) → StandsIn R.remaining separator self.old state text
            → IfOk result (λ is_there. ReadsRow R.remaining separator state text self.new is_there (fields_of «record».new)) }
    {
        match self.reader.read_byte_record(record) {
            Ok(is_there) => Ok(is_there),
            Err(error) => Err(read_fault(&error)),
        }
    }
}
