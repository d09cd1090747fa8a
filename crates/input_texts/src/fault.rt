//! Why an input is refused.

ghost use Rattle.std.specs.Prelude.{◌≡◌};
ghost use Rattle.input_texts.specs.declared.fault.InputFault.TheVariants.{Memory};
ghost use Rattle.input_texts.specs.Fault.{fault_of_part};

use json_parts::PartError;
use std::alloc::{AllocError, AllocFailed};
use std::fmt;
use thiserror::Error;

/// Why an input is refused. The first of these that stands is answered, each over the whole document.
#[derive(Clone, Copy, Debug, PartialEq, Eq, Error)]
pub enum InputFault {
    /// The bytes are no JSON text.
    NotJson,
    /// A part is missing, unknown or of another form.
    Member,
    /// The plan has no such source, or a source of the plan is missing.
    Source,
    /// A source has another number of partitions than the plan says.
    Partitions,
    /// A row has another length than the plan's columns.
    Width,
    /// A row's element or a watermark is no whole number of 64 bits.
    Number,
    /// An entry has no row or more than 4,096.
    Rows,
    /// A row's time or a watermark is not from -2^62 to 2^62 - 1.
    TimeRange,
    /// A watermark stands in a source that makes its own.
    Kind,
    /// A row comes after a watermark of its partition that is not below its time. It is the first such
    /// row by the places, from 0, of its source in the plan, its partition and its entry.
    LateRecord {
        source: u32,
        partition: u32,
        entry: u64,
    },
    /// There are more than 2^40 records.
    TooMany,
    /// An allocation was refused.
    Memory,
}

impl fmt::Display for InputFault {
    ghost use Rattle.std.specs.Prelude.{Some};
    ghost use Rattle.input_texts.specs.FaultLine.{input_line};

    ghost output = { λ fault. Some (input_line fault) };

    fn fmt<W: fmt::Write>(&self, f: &mut fmt::Formatter<W>) -> fmt::Result {
        match self {
            InputFault::NotJson => write!(f, "I1 NotJson"),
            InputFault::Member => write!(f, "I2 Member"),
            InputFault::Source => write!(f, "I3 Source"),
            InputFault::Partitions => write!(f, "I4 Partitions"),
            InputFault::Width => write!(f, "I5 Width"),
            InputFault::Number => write!(f, "I6 Number"),
            InputFault::Rows => write!(f, "I7 Rows"),
            InputFault::TimeRange => write!(f, "I8 TimeRange"),
            InputFault::Kind => write!(f, "I12 Kind"),
            InputFault::LateRecord {
                source,
                partition,
                entry,
            } => write!(f, "I9 LateRecord {source} {partition} {entry}"),
            InputFault::TooMany => write!(f, "I10 TooMany"),
            InputFault::Memory => write!(f, "memory"),
        }
    }
}

impl From<PartError> for InputFault {
    ghost from_gives = { λ part fault. fault ≡ fault_of_part part };

    fn from(part: PartError) -> InputFault {
        match part {
            PartError::Form => InputFault::Member,
            PartError::Memory => InputFault::Memory,
        }
    }
}

impl From<AllocError> for InputFault {
    ghost from_gives = { λ _ e. e ≡ Memory };

    fn from(_e: AllocError) -> InputFault {
        InputFault::Memory
    }
}

impl<T: Drop> From<AllocFailed<T>> for InputFault {
    ghost from_gives = { λ _ e. e ≡ Memory };

    fn from(_e: AllocFailed<T>) -> InputFault {
        InputFault::Memory
    }
}
