//! What comes of a record.

ghost use Rattle.std.specs.Prelude.{◌≡◌};
ghost use Rattle.imports.specs.Faults.{is_final};
ghost use Rattle.import_copies.specs.Outcomes.{fate_of};

use import_fates::Fate;
use imports::RowFault;

/// What comes of a record.
#[derive(Clone, Copy, Debug, PartialEq, Eq)]
pub(crate) enum Outcome {
    /// It is a row of the input.
    Written,
    /// It is late: its time, and the watermark that it is not above.
    Late(i64, i64),
    /// One before it is the same. That one stands at this place among those that were the first of their kind, counted
    /// from 0.
    Twice(usize),
    /// It gives no row.
    Bad(RowFault),
}

/// Where a record goes of which this comes.
pub(crate) fn fate_of(outcome: Outcome) -> Fate
    ensures { result ≡ fate_of outcome }
{
    match outcome {
        Outcome::Written => Fate::Written,
        Outcome::Late(_, _) => Fate::Late,
        Outcome::Twice(_) => Fate::Twice,
        Outcome::Bad(_) => Fate::Bad,
    }
}

/// Whether a fault is of more than a record: of its file or of the import, which ends there.
pub(crate) fn is_final(fault: RowFault) -> bool
    ensures { result ≡ is_final fault }
{
    match fault {
        RowFault::Read
        | RowFault::NoField(_)
        | RowFault::FieldTwice(_)
        | RowFault::OtherHeader
        | RowFault::Write
        | RowFault::Memory => true,
        RowFault::Width(_, _)
        | RowFault::NoObject
        | RowFault::Member(_, _)
        | RowFault::Value(_, _, _)
        | RowFault::NoText(_)
        | RowFault::Place(_) => false,
    }
}
