//! Where a leg stops.

ghost use Rattle.std.specs.Prelude.{◌≡◌, IfOk};

use crate::cut::Cut;
use std::alloc::{AllocError, Global};

/// Where a leg stops.
#[derive(Debug, Drop)]
pub enum Stop {
    /// Nowhere: it goes on to the end of its input.
    Never,
    /// At a cut, with a savepoint.
    At(Cut),
}

impl Stop {
    /// The same again.
    ///
    /// # Errors
    ///
    /// Only where memory runs out.
    pub fn copy(&self, alloc: Global) -> Result<Stop, AllocError>
        ensures { IfOk result (λ stop. stop ≡ self.now) }
    {
        match self {
            Stop::Never => Ok(Stop::Never),
            Stop::At(cut) => Ok(Stop::At(cut.copy(alloc)?)),
        }
    }
}
