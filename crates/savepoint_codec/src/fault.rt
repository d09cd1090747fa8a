//! Why bytes are no savepoint.

ghost use Rattle.std.specs.Prelude.{◌≡◌};
ghost use Rattle.savepoint_codec.specs.Answer.{fault_of_read};

use byte_fields::{FieldFault, ReadFault};
use std::fmt;
use thiserror::Error;

/// Why bytes are no savepoint, by the first field that cannot be read.
#[derive(Clone, Copy, Debug, PartialEq, Eq, Error)]
pub enum SaveFault {
    /// The bytes do not begin as those of a savepoint.
    Magic,
    /// A field passes the end of the bytes.
    Truncated,
    /// Bytes stand after the last field.
    Trailing,
    /// A source, a key group or an entry is not after the one before, or a key group has no entry.
    Order,
    /// A field has a value that it cannot have.
    Range,
    /// The index gives another place than that where a key group's entries begin.
    Index,
    /// No memory was to be had.
    Memory,
}

impl fmt::Display for SaveFault {
    ghost use Rattle.std.specs.Prelude.{Some};
    ghost use Rattle.savepoint_codec.specs.FaultLine.{save_line};

    ghost output = { λ fault. Some (save_line fault) };

    fn fmt<W: fmt::Write>(&self, f: &mut fmt::Formatter<W>) -> fmt::Result {
        match self {
            SaveFault::Magic => write!(f, "V1 Magic"),
            SaveFault::Truncated => write!(f, "V2 Truncated"),
            SaveFault::Trailing => write!(f, "V3 Trailing"),
            SaveFault::Order => write!(f, "V4 Order"),
            SaveFault::Range => write!(f, "V5 Range"),
            SaveFault::Index => write!(f, "V7 Index"),
            SaveFault::Memory => write!(f, "memory"),
        }
    }
}

impl From<ReadFault> for SaveFault {
    ghost from_gives = { λ fault e. e ≡ fault_of_read fault };

    fn from(fault: ReadFault) -> SaveFault {
        match fault {
            ReadFault::Memory => SaveFault::Memory,
            ReadFault::Bytes(FieldFault::Magic) => SaveFault::Magic,
            ReadFault::Bytes(FieldFault::Truncated) => SaveFault::Truncated,
            ReadFault::Bytes(FieldFault::Trailing) => SaveFault::Trailing,
            ReadFault::Bytes(FieldFault::Order) => SaveFault::Order,
            ReadFault::Bytes(FieldFault::Range) => SaveFault::Range,
            ReadFault::Bytes(FieldFault::Index) => SaveFault::Index,
        }
    }
}
