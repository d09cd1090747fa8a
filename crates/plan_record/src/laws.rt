//! Laws of the definitions, each the contract of a function that does nothing.

ghost use Rattle.plan_record.specs.Laws.{AscendingIsInOrder};
ghost use Rattle.plan_record.specs.Alike.{EqualRecords};

/// The uids and the conditions of a plan's record rise from each to the next, and are those of the plan.
pub fn ascending_is_in_order()
    ensures { AscendingIsInOrder }
{}

/// Plans with equal records have the same columns, key groups, time and key, the same source uids, the
/// same bound or none under each of them, the same aggregates, windows and size of windows, and pass and
/// keep the same.
pub fn equal_records()
    ensures { EqualRecords }
{}
