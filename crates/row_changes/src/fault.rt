//! Why what changed is not told.

use row_lines::RowsFault;
use std::alloc::AllocError;

/// Why what changed is not told.
#[derive(Clone, Copy, Debug, PartialEq, Eq)]
pub enum ChangesFault {
    /// The old text, at a line counted from 1.
    Old(RowsFault, u64),
    /// The new text, at a line counted from 1.
    New(RowsFault, u64),
    /// What was to be written could not be.
    Write,
    /// No memory was to be had.
    Memory,
}

impl From<AllocError> for ChangesFault {
    ghost use Rattle.std.specs.Prelude.{◌≡◌};
    ghost use Rattle.row_changes.specs.declared.fault.ChangesFault.TheVariants.{Memory};

    ghost from_gives = { λ _ e. e ≡ Memory };

    fn from(_e: AllocError) -> ChangesFault {
        ChangesFault::Memory
    }
}
