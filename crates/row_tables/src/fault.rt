//! Why a cell is not written.

use std::alloc::AllocError;

/// Why a cell is not written.
#[derive(Clone, Copy, Debug, PartialEq, Eq)]
pub enum CellFault {
    /// The number is a time in no year from 1 to 9999.
    Time,
    /// The number is that of no name.
    Name,
    /// What was written does not read as the number. There is no such number.
    Unread,
    /// No memory was to be had.
    Memory,
}

impl From<AllocError> for CellFault {
    ghost use Rattle.std.specs.Prelude.{◌≡◌};
    ghost use Rattle.row_tables.specs.declared.fault.CellFault.TheVariants.{Memory};

    ghost from_gives = { λ _ e. e ≡ Memory };

    fn from(_e: AllocError) -> CellFault {
        CellFault::Memory
    }
}
