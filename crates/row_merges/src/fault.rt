//! Why texts of rows are not merged.

ghost use Rattle.row_merges.specs.Merges.{TellsOf};

use row_lines::RowsFault;
use std::alloc::{AllocError, AllocFailed};

/// Why texts of rows are not merged.
#[derive(Clone, Copy, Debug, PartialEq, Eq)]
pub enum MergeFault {
    /// The text at a place, counted from 0, at a line counted from 1.
    Text(usize, RowsFault, u64),
    /// What was to be written could not be.
    Write,
    /// No memory was to be had.
    Memory,
}

impl From<AllocError> for MergeFault {
    ghost use Rattle.std.specs.Prelude.{◌≡◌};
    ghost use Rattle.row_merges.specs.declared.fault.MergeFault.TheVariants.{Memory};

    ghost from_gives = { λ _ e. e ≡ Memory };

    fn from(_e: AllocError) -> MergeFault {
        MergeFault::Memory
    }
}

impl<T: Drop> From<AllocFailed<T>> for MergeFault {
    ghost use Rattle.std.specs.Prelude.{◌≡◌};
    ghost use Rattle.row_merges.specs.declared.fault.MergeFault.TheVariants.{Memory};

    ghost from_gives = { λ _ e. e ≡ Memory };

    fn from(_e: AllocFailed<T>) -> MergeFault {
        MergeFault::Memory
    }
}

/// What comes of a fault of the text at a place, at a line.
pub(crate) fn fault_at(place: usize, line: u64, fault: RowsFault) -> MergeFault
    ensures { TellsOf place line fault result }
{
    match fault {
        RowsFault::Memory => MergeFault::Memory,
        fault => MergeFault::Text(place, fault, line),
    }
}
