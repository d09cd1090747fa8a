//! Why a table is not written.

use row_lines::RowsFault;
use row_tables::CellFault;
use std::alloc::{AllocError, AllocFailed};

/// Why a table is not written.
#[derive(Clone, Copy, Debug, PartialEq, Eq)]
pub enum ExportFault {
    /// The text of rows, at the line that was looked at last.
    Rows(RowsFault),
    /// The number at this place of the row that was read last, counted from 0, is shown as nothing.
    Cell(usize, CellFault),
    /// What was to be written could not be.
    Write,
    /// No memory was to be had.
    Memory,
}

impl From<AllocError> for ExportFault {
    ghost use Rattle.std.specs.Prelude.{◌≡◌};
    ghost use Rattle.row_export.specs.declared.fault.ExportFault.TheVariants.{Memory};

    ghost from_gives = { λ _ e. e ≡ Memory };

    fn from(_e: AllocError) -> ExportFault {
        ExportFault::Memory
    }
}

impl<T: Drop> From<AllocFailed<T>> for ExportFault {
    ghost use Rattle.std.specs.Prelude.{◌≡◌};
    ghost use Rattle.row_export.specs.declared.fault.ExportFault.TheVariants.{Memory};

    ghost from_gives = { λ _ e. e ≡ Memory };

    fn from(_e: AllocFailed<T>) -> ExportFault {
        ExportFault::Memory
    }
}
