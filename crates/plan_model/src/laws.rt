//! Laws of the definitions, each the contract of a function that does nothing.

ghost use Rattle.plan_model.specs.Laws.{WindowsAreThose, AggregatesIgnoreOrder, AggregatesMerge};

/// The windows of a time are those whose start is the offset plus a whole number of slides and whose
/// interval `[start, start + size)` has the time, as Flink's sliding and tumbling assigners say.
pub fn windows_are_those()
    ensures { WindowsAreThose }
{}

/// What records come to does not depend on their order.
pub fn aggregates_ignore_order()
    ensures { AggregatesIgnoreOrder }
{}

/// What two lists of records come to, merged, is what both together come to.
pub fn aggregates_merge()
    ensures { AggregatesMerge }
{}
