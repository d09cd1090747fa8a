//! Why bytes are none of a layout.

ghost use Rattle.std.specs.Prelude.{◌≡◌};
ghost use Rattle.byte_fields.specs.declared.fault.ReadFault.TheVariants.{Memory, Bytes};

use std::alloc::{AllocError, AllocFailed};

/// What is wrong with bytes, by the first field that cannot be read.
#[derive(Clone, Copy, Debug, PartialEq, Eq)]
pub enum FieldFault {
    /// The bytes do not begin with those of the layout.
    Magic,
    /// A field passes the end.
    Truncated,
    /// Bytes stand after the last field.
    Trailing,
    /// An item of a list is not above the one before, or a list that is never empty is.
    Order,
    /// A field has a value that it cannot have.
    Range,
    /// A place that an index gives is not where its item begins.
    Index,
}

/// Why a reader that takes memory has no answer.
#[derive(Clone, Copy, Debug, PartialEq, Eq)]
pub enum ReadFault {
    /// No memory was to be had.
    Memory,
    /// The bytes are refused.
    Bytes(FieldFault),
}

impl From<FieldFault> for ReadFault {
    ghost from_gives = { λ fault e. e ≡ Bytes fault };

    fn from(fault: FieldFault) -> ReadFault {
        ReadFault::Bytes(fault)
    }
}

impl From<AllocError> for ReadFault {
    ghost from_gives = { λ _ e. e ≡ Memory };

    fn from(_e: AllocError) -> ReadFault {
        ReadFault::Memory
    }
}

impl<T: Drop> From<AllocFailed<T>> for ReadFault {
    ghost from_gives = { λ _ e. e ≡ Memory };

    fn from(_e: AllocFailed<T>) -> ReadFault {
        ReadFault::Memory
    }
}
