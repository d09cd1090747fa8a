//! Why a row is refused.

ghost use Rattle.std.specs.Prelude.{◌≡◌, true};
ghost use Rattle.imports.specs.Faults.{is_final, fault_said};

use csv::{Error, ErrorKind};
use field_values::FieldFault;
use import_entries::PlaceFault;
use object_lines::{LineFault, MemberFault};
use std::alloc::{AllocError, AllocFailed};
use std::io;

/// Why a row, or the header of its file, is refused. Columns are counted from 0.
#[derive(Clone, Copy, Debug, PartialEq, Eq)]
pub enum RowFault {
    /// The file cannot be read.
    Read,
    /// The header has no field of the name of this column.
    NoField(usize),
    /// The header has the name of this column twice.
    FieldTwice(usize),
    /// The header is not that of the first CSV file of the partition.
    OtherHeader,
    /// The record has so many fields, and the header so many.
    Width(usize, usize),
    /// The line is no JSON object.
    NoObject,
    /// The member of this column's name has no text.
    Member(usize, MemberFault),
    /// The text of this column's field, which stands at this place of the record, is not what the column wants.
    Value(usize, usize, FieldFault),
    /// The text of this column's field is a name that is no UTF-8.
    NoText(usize),
    /// The row goes nowhere.
    Place(PlaceFault),
    /// What was to be written could not be.
    Write,
    /// No memory was to be had.
    Memory,
}

impl From<AllocError> for RowFault {
    ghost use Rattle.std.specs.Prelude.{◌≡◌};
    ghost use Rattle.imports.specs.declared.fault.RowFault.TheVariants.{Memory};

    ghost from_gives = { λ _ e. e ≡ Memory };

    fn from(_e: AllocError) -> RowFault {
        RowFault::Memory
    }
}

impl<T: Drop> From<AllocFailed<T>> for RowFault {
    ghost use Rattle.std.specs.Prelude.{◌≡◌};
    ghost use Rattle.imports.specs.declared.fault.RowFault.TheVariants.{Memory};

    ghost from_gives = { λ _ e. e ≡ Memory };

    fn from(_e: AllocFailed<T>) -> RowFault {
        RowFault::Memory
    }
}

/// The fault of a record that is not read.
pub(crate) fn read_fault(error: &Error) -> RowFault
    ensures { is_final result ≡ true }
{
    match error.kind() {
        ErrorKind::OutOfMemory => RowFault::Memory,
        ErrorKind::Io(error) if error.kind() == io::ErrorKind::OutOfMemory => RowFault::Memory,
        _ => RowFault::Read,
    }
}

/// The fault of a line that gives no record.
pub(crate) fn line_fault(fault: LineFault) -> RowFault
    ensures { result ≡ fault_said fault }
{
    match fault {
        LineFault::Read => RowFault::Read,
        LineFault::NoObject => RowFault::NoObject,
        LineFault::Member(column, fault) => RowFault::Member(column, fault),
        LineFault::Memory => RowFault::Memory,
    }
}
