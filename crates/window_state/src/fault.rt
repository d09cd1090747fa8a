ghost use Rattle.std.specs.Prelude.{◌≡◌};
ghost use Rattle.window_state.specs.declared.fault.StateFault.TheVariants.{Memory};

use std::alloc::{AllocError, AllocFailed};
use thiserror::Error;

/// Why a call of a window state has no answer.
#[derive(Clone, Copy, Debug, PartialEq, Eq, Error)]
pub enum StateFault {
    /// No memory was to be had.
    #[error("K1 Memory")]
    Memory,
    /// An earlier `add` found no memory, so that the state is not whole.
    #[error("K2 Failed")]
    Failed,
}

impl From<AllocError> for StateFault {
    ghost from_gives = { λ _ e. e ≡ Memory };

    fn from(_e: AllocError) -> StateFault {
        StateFault::Memory
    }
}

impl<T: Drop> From<AllocFailed<T>> for StateFault {
    ghost from_gives = { λ _ e. e ≡ Memory };

    fn from(_e: AllocFailed<T>) -> StateFault {
        StateFault::Memory
    }
}
