//! The cells of rows, one after the other, as fields of CSV and as values of JSON.

ghost use Rattle.std.specs.Prelude.{◌≡◌, false, Ok, IfOk, IsTrue, OnOk, map, string_bytes};
ghost use Rattle.csv.specs.Writing.{default_writer, needs_quotes};
ghost use Rattle.json.specs.Print.{escape};
ghost use Rattle.field_values.specs.Instants.{milliseconds_said};

use crate::fields::{needs_quotes, put_text};
use crate::values::{is_plain, put_cell, put_string};
use row_tables::{CellFault, CellKind, put_decimal, write_cell};
use std::alloc::{AllocError, Global};
use std::mem::swap;

/// A time with its text, once one was written.
#[derive(Drop)]
struct WrittenTime {
    is_there: bool,
    number: i128,
    text: String,
    /// Whether it stands as it is in a field and in a string.
    is_plain: bool,
    ghost said: { IsTrue is_there → milliseconds_said (string_bytes text) ≡ Ok number },
    ghost field: { IsTrue is_plain → needs_quotes default_writer (string_bytes text) ≡ false },
    ghost string: { IsTrue is_plain → escape (string_bytes text) ≡ string_bytes text },
}

impl WrittenTime {
    ghost use Rattle.std.specs.Prelude.{◌≡◌, ◌++◌, Ok, IsTrue, OnOk, string_bytes};
    ghost use Rattle.csv.specs.Writing.{default_writer, field_text};
    ghost use Rattle.json.specs.Print.{quoted};
    ghost use Rattle.field_values.specs.Instants.{milliseconds_said};

    fn new(alloc: Global) -> WrittenTime {
        WrittenTime {
            is_there: false,
            number: 0,
            text: String::new(alloc),
            is_plain: false,
        }
    }

    /// Whether it is this one.
    fn is(&self, number: i128) -> bool
        ensures { IsTrue result → milliseconds_said (string_bytes self.now.text) ≡ Ok number }
    {
        self.is_there && self.number == number
    }

    /// Writes a time.
    fn write(&mut self, names: &[String], number: i128) -> Result<(), CellFault>
        ensures { OnOk result (milliseconds_said (string_bytes self.new.text) ≡ Ok number) }
    {
        self.is_there = false;
        self.is_plain = false;
        write_cell(&mut self.text, CellKind::Time, names, number)?;
        self.is_plain = is_plain(self.text.as_bytes()) && !needs_quotes(self.text.as_bytes());
        self.number = number;
        self.is_there = true;
        Ok(())
    }

    /// Puts it as a field behind a line.
    fn put_field(&self, line: &mut Vec<u8>) -> Result<(), AllocError>
        ensures { OnOk result (line.new.items ≡ line.old.items ++ field_text default_writer (string_bytes self.now.text)) }
    {
        if self.is_plain {
            return line.extend_from_slice(self.text.as_bytes());
        }
        put_text(line, self.text.as_bytes())
    }

    /// Puts it as a string behind a line.
    fn put_string(&self, line: &mut Vec<u8>) -> Result<(), AllocError>
        ensures { OnOk result (line.new.items ≡ line.old.items ++ quoted (string_bytes self.now.text)) }
    {
        if !self.is_plain {
            return put_string(line, self.text.as_str());
        }
        line.push(b'"')?;
        line.extend_from_slice(self.text.as_bytes())?;
        line.push(b'"')?;
        Ok(())
    }
}

/// Puts cells behind lines. Rows of one window have its times, and a window often begins where one before it ends, so
/// that the last two times are kept.
#[derive(Drop)]
pub(crate) struct CellWriter {
    text: String,
    last: WrittenTime,
    other: WrittenTime,
}

impl CellWriter {
    ghost use Rattle.std.specs.Prelude.{◌≡◌, Ok, OnOk, map, string_bytes};
    ghost use Rattle.field_values.specs.Instants.{milliseconds_said};
    ghost use Rattle.row_export.specs.Objects.{HasValue};
    ghost use Rattle.row_export.specs.Records.{HasField};

    pub(crate) fn new(alloc: Global) -> CellWriter {
        CellWriter {
            text: String::new(alloc),
            last: WrittenTime::new(alloc),
            other: WrittenTime::new(alloc),
        }
    }

    /// Has a time as the last one.
    fn find_time(&mut self, names: &[String], number: i128) -> Result<(), CellFault>
        ensures { OnOk result (milliseconds_said (string_bytes self.new.last.text) ≡ Ok number) }
    {
        if self.last.is(number) {
            return Ok(());
        }
        swap(&mut self.last, &mut self.other);
        if self.last.is(number) {
            return Ok(());
        }
        self.last.write(names, number)
    }

    /// Puts a field of any other kind behind a line, or a decimal of more than 64 bits.
    fn put_other_field(
        &mut self,
        line: &mut Vec<u8>,
        kind: &CellKind,
        names: &[String],
        number: i128,
    ) -> Result<(), CellFault>
        ensures { OnOk result (HasField kind.now (map string_bytes names.now) number line.old.items line.new.items) }
    {
        write_cell(&mut self.text, *kind, names, number)?;
        put_text(line, self.text.as_bytes())?;
        Ok(())
    }

    /// Puts a time as a field behind a line.
    fn put_time_field(
        &mut self,
        line: &mut Vec<u8>,
        names: &[String],
        number: i128,
    ) -> Result<(), CellFault>
        ensures { OnOk result (HasField CellKind.Time (map string_bytes names.now) number line.old.items line.new.items) }
    {
        self.find_time(names, number)?;
        self.last.put_field(line)?;
        Ok(())
    }

    /// Puts what a number is shown as behind a line, as a field.
    ///
    /// # Errors
    ///
    /// `Time`; `Name`; `Memory`.
    pub(crate) fn put_field(
        &mut self,
        line: &mut Vec<u8>,
        kind: &CellKind,
        names: &[String],
        number: i128,
    ) -> Result<(), CellFault>
        ensures { OnOk result (HasField kind.now (map string_bytes names.now) number line.old.items line.new.items) }
    {
        if put_decimal(line, kind, number)? {
            return Ok(());
        }
        match kind {
            CellKind::Time => self.put_time_field(line, names, number),
            _ => self.put_other_field(line, kind, names, number),
        }
    }

    /// Puts a value of any other kind behind a line, or a decimal of more than 64 bits.
    fn put_other_value(
        &mut self,
        line: &mut Vec<u8>,
        kind: &CellKind,
        names: &[String],
        number: i128,
    ) -> Result<(), CellFault>
        ensures { OnOk result (HasValue kind.now (map string_bytes names.now) number line.old.items line.new.items) }
    {
        write_cell(&mut self.text, *kind, names, number)?;
        put_cell(line, *kind, self.text.as_str())
    }

    /// Puts a time as a value of JSON behind a line.
    fn put_time_value(
        &mut self,
        line: &mut Vec<u8>,
        names: &[String],
        number: i128,
    ) -> Result<(), CellFault>
        ensures { OnOk result (HasValue CellKind.Time (map string_bytes names.now) number line.old.items line.new.items) }
    {
        self.find_time(names, number)?;
        self.last.put_string(line)?;
        Ok(())
    }

    /// Puts what a number is shown as behind a line, as a value of JSON.
    ///
    /// # Errors
    ///
    /// `Time`; `Name`; `Memory`.
    pub(crate) fn put_value(
        &mut self,
        line: &mut Vec<u8>,
        kind: &CellKind,
        names: &[String],
        number: i128,
    ) -> Result<(), CellFault>
        ensures { OnOk result (HasValue kind.now (map string_bytes names.now) number line.old.items line.new.items) }
    {
        if put_decimal(line, kind, number)? {
            return Ok(());
        }
        match kind {
            CellKind::Time => self.put_time_value(line, names, number),
            _ => self.put_other_value(line, kind, names, number),
        }
    }
}
