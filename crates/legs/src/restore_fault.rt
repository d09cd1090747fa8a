//! Why a job cannot go on from a savepoint.

ghost use Rattle.std.specs.Prelude.{◌≡◌};
ghost use Rattle.legs.specs.declared.restore_fault.RestoreFault.TheVariants.{Memory};

use std::alloc::AllocError;
use std::fmt;
use thiserror::Error;

/// Why a job cannot go on from a savepoint, with a plan and an input. The first of these that stands is answered, each
/// over the whole savepoint before the next.
#[derive(Clone, Copy, Debug, PartialEq, Eq, Error)]
pub enum RestoreFault {
    /// The plan has another number of key groups.
    MaxParallelism,
    /// The plan has no source with a uid of the savepoint's, or its window has another uid.
    UnknownUid,
    /// A source of the plan is not in the savepoint.
    MissingUid,
    /// The plan has another record, or aggregates of other kinds.
    PlanChanged,
    /// A source of the plan has another number of partitions.
    Partitions,
    /// More entries of a partition were read than it has.
    Offset,
    /// A partition has another watermark after the entries that were read.
    Watermark,
    /// An entry stands in another key group than its key's.
    WrongGroup,
    /// An entry's window has fired by the watermark of all partitions, or it is none that the plan can have.
    ClosedWindow,
    /// An entry counts more records than were read.
    Count,
    /// The savepoint's number is over 2^63.
    Number,
    /// An allocation was refused.
    Memory,
}

impl fmt::Display for RestoreFault {
    ghost use Rattle.std.specs.Prelude.{Some};
    ghost use Rattle.legs.specs.RestoreLine.{restore_line};

    ghost output = { λ fault. Some (restore_line fault) };

    fn fmt<W: fmt::Write>(&self, f: &mut fmt::Formatter<W>) -> fmt::Result {
        match self {
            RestoreFault::MaxParallelism => write!(f, "Q1 MaxParallelism"),
            RestoreFault::UnknownUid => write!(f, "Q2 UnknownUid"),
            RestoreFault::MissingUid => write!(f, "Q3 MissingUid"),
            RestoreFault::PlanChanged => write!(f, "Q4 PlanChanged"),
            RestoreFault::Partitions => write!(f, "Q5 Partitions"),
            RestoreFault::Offset => write!(f, "Q6 Offset"),
            RestoreFault::Watermark => write!(f, "Q7 Watermark"),
            RestoreFault::WrongGroup => write!(f, "Q8 WrongGroup"),
            RestoreFault::ClosedWindow => write!(f, "Q9 ClosedWindow"),
            RestoreFault::Count => write!(f, "Q11 Count"),
            RestoreFault::Number => write!(f, "Q12 Number"),
            RestoreFault::Memory => write!(f, "memory"),
        }
    }
}

impl From<AllocError> for RestoreFault {
    ghost from_gives = { λ _ e. e ≡ Memory };

    fn from(_e: AllocError) -> RestoreFault {
        RestoreFault::Memory
    }
}
