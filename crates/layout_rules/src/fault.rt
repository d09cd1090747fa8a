//! Why a scale is refused.

ghost use Rattle.std.specs.Prelude.{◌≡◌};
ghost use Rattle.layout_rules.specs.declared.fault.ScaleFault.TheVariants.{Memory};

use std::alloc::{AllocError, AllocFailed};
use std::fmt;
use thiserror::Error;

/// Why a scale is refused. The first of these that stands is answered, each over the whole document.
#[derive(Clone, Copy, Debug, PartialEq, Eq, Error)]
pub enum ScaleFault {
    /// The bytes are no JSON text.
    NotJson,
    /// A part is missing, unknown or of another form.
    Member,
    /// The plan has no operator with such a uid.
    UnknownUid,
    /// A source, a filter or the window has no member.
    MissingUid,
    /// A parallelism is not 1 to 64, or it is over the plan's number of key groups.
    Parallelism,
    /// The capacity of a ring is not 1 to 1,024.
    Ring,
    /// The layout has more than 256 tasks, with the sink's one.
    Tasks,
    /// An allocation was refused.
    Memory,
}

impl fmt::Display for ScaleFault {
    ghost use Rattle.std.specs.Prelude.{Some};
    ghost use Rattle.layout_rules.specs.FaultLine.{scale_line};

    ghost output = { λ fault. Some (scale_line fault) };

    fn fmt<W: fmt::Write>(&self, f: &mut fmt::Formatter<W>) -> fmt::Result {
        match self {
            ScaleFault::NotJson => write!(f, "S1 NotJson"),
            ScaleFault::Member => write!(f, "S2 Member"),
            ScaleFault::UnknownUid => write!(f, "S3 UnknownUid"),
            ScaleFault::MissingUid => write!(f, "S4 MissingUid"),
            ScaleFault::Parallelism => write!(f, "S5 Parallelism"),
            ScaleFault::Ring => write!(f, "S6 Ring"),
            ScaleFault::Tasks => write!(f, "S7 Tasks"),
            ScaleFault::Memory => write!(f, "memory"),
        }
    }
}

impl From<AllocError> for ScaleFault {
    ghost from_gives = { λ _ e. e ≡ Memory };

    fn from(_e: AllocError) -> ScaleFault {
        ScaleFault::Memory
    }
}

impl<T: Drop> From<AllocFailed<T>> for ScaleFault {
    ghost from_gives = { λ _ e. e ≡ Memory };

    fn from(_e: AllocFailed<T>) -> ScaleFault {
        ScaleFault::Memory
    }
}
