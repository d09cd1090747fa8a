//! Laws of the definitions, each the contract of a function that does nothing.

ghost use Rattle.gather.specs.Laws.{SpreadAreParts, SamePanesSameSavepoint};

/// What a start is dealt out into, at any layout, are parts that can be put together: where what stands in its windows
/// is what the plan's windows may hold.
pub fn spread_are_parts()
    ensures { SpreadAreParts }
{}

/// Windows that hold the same in each pane make the same savepoint.
pub fn same_panes_same_savepoint()
    ensures { SamePanesSameSavepoint }
{}
