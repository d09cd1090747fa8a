//! Laws of the definitions, each the contract of a function that does nothing.

ghost use Rattle.input_changes.specs.Laws.{AgreeEarlier, AgreeThemselves, AgreeingAreSame, EndedStay, EntriesAreNeeded, EntriesKeepTheCut, GoingOnAgrees, WatermarksAreNeeded};

use stream_model::laws::due_is_settled;

/// Of two inputs that agree before a cut the records before it are the same, the merged watermark there, the rows that
/// are due there and the snapshot.
pub fn agreeing_are_same()
    ensures { AgreeingAreSame }
{
    let _settled = due_is_settled();
}

/// Where they agree before a cut, they agree before each earlier one.
pub fn agree_earlier()
    ensures { AgreeEarlier }
{}

/// An input agrees with itself before each of its cuts.
pub fn agree_themselves()
    ensures { AgreeThemselves }
{}

/// An input agrees with each one that has other entries behind the cut, at least one where there was one, and none
/// where there was none.
pub fn going_on_agrees()
    ensures { GoingOnAgrees }
{}

/// And with none that goes on where the cut is at the end of a partition: its watermark there was the greatest, and is
/// so no longer.
pub fn ended_stay()
    ensures { EndedStay }
{}

/// A cut of an input is one of each other that has the same entries before it, in as many partitions.
pub fn entries_keep_the_cut()
    ensures { EntriesKeepTheCut }
{}

/// It does not do that the entries before a cut are the same: a partition that was read to its end held no window back,
/// and one that goes on does, so by two inputs of a plan other rows are due there.
pub fn watermarks_are_needed()
    ensures { WatermarksAreNeeded }
{}

/// Nor that the watermarks there are: a record that was put right before the cut changes rows that are due there.
pub fn entries_are_needed()
    ensures { EntriesAreNeeded }
{}
