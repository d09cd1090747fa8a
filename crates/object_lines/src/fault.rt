//! Why a line gives no record.

use std::alloc::AllocError;

/// Why a member that is asked for has no text.
#[derive(Clone, Copy, Debug, PartialEq, Eq)]
pub enum MemberFault {
    /// The object has no member of the name.
    Missing,
    /// The object has more than one member of the name.
    Twice,
    /// The member is null, a list or an object.
    NoText,
}

/// Why a line gives no record.
#[derive(Clone, Copy, Debug, PartialEq, Eq)]
pub enum LineFault {
    /// The text cannot be read.
    Read,
    /// The line is no JSON object.
    NoObject,
    /// The member of the name at this place, counted from 0, has no text.
    Member(usize, MemberFault),
    /// No memory was to be had.
    Memory,
}

impl From<AllocError> for LineFault {
    ghost use Rattle.std.specs.Prelude.{◌≡◌};
    ghost use Rattle.object_lines.specs.declared.fault.LineFault.TheVariants.{Memory};

    ghost from_gives = { λ _ e. e ≡ Memory };

    fn from(_e: AllocError) -> LineFault {
        LineFault::Memory
    }
}
