//! Why a plan is refused.

ghost use Rattle.std.specs.Prelude.{◌≡◌};
ghost use Rattle.logical_plan.specs.declared.fault.PlanFault.TheVariants.{Memory};
ghost use Rattle.logical_plan.specs.Answer.{fault_of_part};

use json_parts::PartError;
use std::alloc::{AllocError, AllocFailed};
use std::fmt;
use thiserror::Error;

/// Why a plan's text is refused. A text with several faults is refused for the first one of this list.
#[derive(Clone, Copy, Debug, PartialEq, Eq, Error)]
pub enum PlanFault {
    /// The text is no JSON.
    NotJson,
    /// A member is missing, unknown or of another form.
    Member,
    /// The number of columns is not 1 to 16.
    Columns,
    /// The time, the key, or the column of a filter or an aggregate is none of the columns.
    ColumnIndex,
    /// The number of key groups is not 1 to 32768.
    MaxParallelism,
    /// There are not 1 to 8 sources.
    Sources,
    /// A source has not 1 to 64 partitions.
    Partitions,
    /// A uid is not 1 to 64 characters of a-z, 0-9 and hyphen.
    Uid,
    /// Two of the sources, the filters and the window share a uid.
    UidTwice,
    /// There are over 32 filters, or over 32 having conditions.
    Filters,
    /// The window's size is not 1 to 2^40.
    WindowSize,
    /// The window's slide is not 1 to 2^40.
    WindowSlide,
    /// The window's offset is not between minus the slide and the slide.
    WindowOffset,
    /// A time lies in over 256 windows.
    Panes,
    /// There are not 1 to 8 aggregates, or a having condition names none of them.
    Aggregates,
    /// The bound of a source's watermarks is not 0 to 2^40.
    Bound,
    /// An allocation was refused.
    Memory,
}

impl fmt::Display for PlanFault {
    ghost use Rattle.std.specs.Prelude.{Some};
    ghost use Rattle.logical_plan.specs.FaultLine.{plan_line};

    ghost output = { λ fault. Some (plan_line fault) };

    fn fmt<W: fmt::Write>(&self, f: &mut fmt::Formatter<W>) -> fmt::Result {
        match self {
            PlanFault::NotJson => write!(f, "P1 NotJson"),
            PlanFault::Member => write!(f, "P2 Member"),
            PlanFault::Columns => write!(f, "P3 Columns"),
            PlanFault::ColumnIndex => write!(f, "P4 ColumnIndex"),
            PlanFault::MaxParallelism => write!(f, "P5 MaxParallelism"),
            PlanFault::Sources => write!(f, "P6 Sources"),
            PlanFault::Partitions => write!(f, "P7 Partitions"),
            PlanFault::Uid => write!(f, "P8 Uid"),
            PlanFault::UidTwice => write!(f, "P9 UidTwice"),
            PlanFault::Filters => write!(f, "P10 Filters"),
            PlanFault::WindowSize => write!(f, "P11 WindowSize"),
            PlanFault::WindowSlide => write!(f, "P12 WindowSlide"),
            PlanFault::WindowOffset => write!(f, "P13 WindowOffset"),
            PlanFault::Panes => write!(f, "P14 Panes"),
            PlanFault::Aggregates => write!(f, "P15 Aggregates"),
            PlanFault::Bound => write!(f, "P17 Bound"),
            PlanFault::Memory => write!(f, "memory"),
        }
    }
}

impl From<PartError> for PlanFault {
    ghost from_gives = { λ part fault. fault ≡ fault_of_part part };

    fn from(part: PartError) -> PlanFault {
        match part {
            PartError::Form => PlanFault::Member,
            PartError::Memory => PlanFault::Memory,
        }
    }
}

impl From<AllocError> for PlanFault {
    ghost from_gives = { λ _ e. e ≡ Memory };

    fn from(_e: AllocError) -> PlanFault {
        PlanFault::Memory
    }
}

impl<T: Drop> From<AllocFailed<T>> for PlanFault {
    ghost from_gives = { λ _ e. e ≡ Memory };

    fn from(_e: AllocFailed<T>) -> PlanFault {
        PlanFault::Memory
    }
}
