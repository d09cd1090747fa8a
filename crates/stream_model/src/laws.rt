//! Laws of the definitions, each the contract of a function that does nothing.

ghost use Rattle.stream_model.specs.Laws.{WatermarkIsGreatest, WatermarkGoesOn, DueIsSettled, DueStays, CutsMerge, EndIsDue, DueRowsStay, NothingAtFirst, SnapshotGoesOn, CarriedFires};

/// Short of its end, a partition's watermark is the greatest among its entries so far: it bounds each of
/// them, and is one of them or the least i64.
pub fn watermark_is_greatest()
    ensures { WatermarkIsGreatest }
{}

/// Short of its end, a partition's watermark after an entry is the greater of the one before and the entry's own.
pub fn watermark_goes_on()
    ensures { WatermarkGoesOn }
{}

/// Of an orderly input, a window that is due at a cut has there all the records that it will ever have.
pub fn due_is_settled()
    ensures { DueIsSettled }
{}

/// What is due at a cut is due at each later one.
pub fn due_stays()
    ensures { DueStays }
{}

/// What stands in a pane at a later cut is what stood there at an earlier one, merged with what the
/// records between come to.
pub fn cuts_merge()
    ensures { CutsMerge }
{}

/// What is due at the full cut is all of the plan's rows.
pub fn end_is_due()
    ensures { EndIsDue }
{}

/// A row that is due at a cut is due at each later one.
pub fn due_rows_stay()
    ensures { DueRowsStay }
{}

/// The snapshot at the empty cut is empty.
pub fn nothing_at_first()
    ensures { NothingAtFirst }
{}

/// The snapshot at a later cut is the one at an earlier cut, merged with the records between, less what fires.
pub fn snapshot_goes_on()
    ensures { SnapshotGoesOn }
{}

/// What fires between two cuts are the rows of the earlier snapshot, merged with the records between.
pub fn carried_fires()
    ensures { CarriedFires }
{}
