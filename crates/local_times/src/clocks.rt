//! The clocks by which a time is read that has no zone.

ghost use Rattle.std.specs.Prelude.{◌≡◌};
ghost use Rattle.local_times.specs.Local.{chosen_offset};

use jiff_core::Offset;
use jiff_tz::{AmbiguousOffset, TimeZone};

/// Which of two instants a time is that clocks show twice where they are put back, or never where they are put forward:
/// never shown, it is taken as if they had not been put forward yet, or already.
#[derive(Clone, Copy, Debug, PartialEq, Eq)]
pub enum Fold {
    /// The earlier one.
    First,
    /// The later one.
    Second,
}

/// The clocks by which a time is read that has no zone.
#[derive(Clone, Copy)]
pub enum Clocks<'z> {
    /// There are none: each time has its zone.
    Zoned,
    /// Those of a zone, and which of two instants is meant, if a time may have two.
    Local(TimeZone<'z>, Option<Fold>),
}

/// The offset of a time that has these, if it is clear which is meant.
pub(crate) fn chosen(fold: Option<Fold>, offsets: AmbiguousOffset) -> Option<Offset>
    ensures { result ≡ chosen_offset fold offsets }
{
    match (fold, offsets) {
        (_, AmbiguousOffset::Unambiguous { offset }) => Some(offset),
        (None, _) => None,
        (Some(Fold::First), AmbiguousOffset::Gap { after, .. }) => Some(after),
        (Some(Fold::First), AmbiguousOffset::Fold { before, .. }) => Some(before),
        (Some(Fold::Second), AmbiguousOffset::Gap { before, .. }) => Some(before),
        (Some(Fold::Second), AmbiguousOffset::Fold { after, .. }) => Some(after),
    }
}
