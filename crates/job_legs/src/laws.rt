//! Laws of the definitions, each the contract of a function that does nothing.

ghost use Rattle.job_legs.specs.Laws.{EachRowAddsUp, NothingDueAtFirst, RowsAddUp};

use stream_model::laws::{due_is_settled, due_rows_stay};

/// No row of a plan is due before any entry is read.
pub fn nothing_due_at_first()
    ensures { NothingDueAtFirst }
{
    let _settled = due_is_settled();
}

/// Of each pane, the row that is due at a cut, or else the one that becomes due from there to a later one, is the one
/// that is due at the later one.
pub fn each_row_adds_up()
    ensures { EachRowAddsUp }
{
    let _stay = due_rows_stay();
}

/// The rows that are due at a cut, and those that become due from there to a later one, are together the rows that are
/// due at the later one.
pub fn rows_add_up()
    ensures { RowsAddUp }
{
    let _each = each_row_adds_up();
}
