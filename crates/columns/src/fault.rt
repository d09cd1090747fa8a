ghost use Rattle.std.specs.Prelude.{◌≡◌};
ghost use Rattle.columns.specs.declared.fault.BatchFault.TheVariants.{Memory};

use std::alloc::{AllocError, AllocFailed};
use thiserror::Error;

/// Why no batch could be made.
#[derive(Clone, Copy, Debug, PartialEq, Eq, Error)]
pub enum BatchFault {
    /// The row at this place, counted from 0, is the first that has another length.
    #[error("B1 Width({0})")]
    Width(usize),
    /// There are more than 4,096 rows.
    #[error("B2 Rows")]
    Rows,
    /// Memory ran out.
    #[error("B3 Memory")]
    Memory,
}

impl From<AllocError> for BatchFault {
    ghost from_gives = { λ _ fault. fault ≡ Memory };

    fn from(_: AllocError) -> BatchFault {
        BatchFault::Memory
    }
}

impl<T: Drop> From<AllocFailed<T>> for BatchFault {
    ghost from_gives = { λ _ fault. fault ≡ Memory };

    fn from(_: AllocFailed<T>) -> BatchFault {
        BatchFault::Memory
    }
}
