//! Laws of the definitions, each the contract of a function that does nothing.

ghost use Rattle.input_flow.specs.Laws.{InputIsOrderly, RecordsAtCut, WatermarkAtCut, SnapshotAtCut, DueAtCut, DueAtEnd};

/// The partitions of an input that is read are orderly, as the theorems on legs ask of a layout's sources.
pub fn input_is_orderly()
    ensures { InputIsOrderly }
{}

/// The records up to a cut, as layouts and legs have them, are the input's records before it that pass the filters.
pub fn records_at_cut()
    ensures { RecordsAtCut }
{}

/// The watermark of a cut, as layouts and legs have it, is the merged watermark of the input there.
pub fn watermark_at_cut()
    ensures { WatermarkAtCut }
{}

/// The snapshot of a cut, as layouts and legs have it, is what the cut leaves in the windows, pane by pane.
pub fn snapshot_at_cut()
    ensures { SnapshotAtCut }
{}

/// What is due by a cut's watermark, as layouts and legs have it, are the plan's rows that are due at the cut.
pub fn due_at_cut()
    ensures { DueAtCut }
{}

/// At the full cut, these are all of the plan's rows.
pub fn due_at_end()
    ensures { DueAtEnd }
{}
