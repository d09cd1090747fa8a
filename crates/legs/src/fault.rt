//! Why a leg, or a list of legs, is refused.

ghost use Rattle.std.specs.Prelude.{◌≡◌};
ghost use Rattle.legs.specs.declared.fault.LegFault.TheVariants.{Memory};

use layout_rules::ScaleFault;
use std::alloc::{AllocError, AllocFailed};
use std::fmt;
use thiserror::Error;

/// Why a leg, or a list of legs, has no answer.
#[derive(Clone, Copy, Debug, PartialEq, Eq, Error)]
pub enum LegFault {
    /// The cut to stop at has another shape than the input, counts fewer entries of a partition than were read
    /// before the leg, or more than there are.
    StopRange,
    /// There are more than 1,024 savepoints on the way, or one of their cuts has another shape than the input, counts
    /// fewer entries of a partition than the cut before it or than were read before the leg, or more than there are or
    /// than lie before the cut to stop at. A leg that may be asked to stop takes none.
    SaveRange,
    /// No memory was to be had.
    Memory,
    /// A list has no leg or more than 1,024, or a leg before the last does not stop.
    Legs,
    /// The bytes are no JSON text.
    NotJson,
    /// A part of the list is missing, unknown or of another form.
    Member,
    /// The choices of steps are no list that has for each leg a list of whole numbers of 32 bits.
    Choices,
    /// The system refused a thread. A leg in one thread asks for none.
    Threads,
    /// The scale of the leg at this place, from 0, is refused.
    Scale(usize, ScaleFault),
}

impl fmt::Display for LegFault {
    ghost use Rattle.std.specs.Prelude.{Some};
    ghost use Rattle.legs.specs.FaultLine.{leg_line};

    ghost output = { λ fault. Some (leg_line fault) };

    fn fmt<W: fmt::Write>(&self, f: &mut fmt::Formatter<W>) -> fmt::Result {
        match self {
            LegFault::StopRange => write!(f, "L1 StopRange"),
            LegFault::SaveRange => write!(f, "L8 SaveRange"),
            LegFault::Memory => write!(f, "memory"),
            LegFault::Legs => write!(f, "L3 Legs"),
            LegFault::NotJson => write!(f, "L4 NotJson"),
            LegFault::Member => write!(f, "L5 Member"),
            LegFault::Choices => write!(f, "L6 Choices"),
            LegFault::Threads => write!(f, "L7 Threads"),
            LegFault::Scale(_, fault) => write!(f, "{fault}"),
        }
    }
}

impl From<AllocError> for LegFault {
    ghost from_gives = { λ _ e. e ≡ Memory };

    fn from(_e: AllocError) -> LegFault {
        LegFault::Memory
    }
}

impl<T: Drop> From<AllocFailed<T>> for LegFault {
    ghost from_gives = { λ _ e. e ≡ Memory };

    fn from(_e: AllocFailed<T>) -> LegFault {
        LegFault::Memory
    }
}
