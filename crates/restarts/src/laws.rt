//! Laws of the definitions, each the contract of a function that does nothing.

ghost use Rattle.restarts.specs.Laws.{SnapshotsPass, SnapshotsRestart, ChecksGoOn, SnapshotsAreSavepoints, AcceptedHaveGroups};

use plan_record::laws::ascending_is_in_order;

/// A savepoint at a cut of an input, with the snapshot of the cut in its windows, meets all that is required of one, so
/// a job of the plan on the input can go on from it.
pub fn snapshots_pass()
    ensures { SnapshotsPass }
{
    let _uids = ascending_is_in_order();
}

/// And it goes on at that cut, with what the snapshot of the cut has in each pane.
pub fn snapshots_restart()
    ensures { SnapshotsRestart }
{
    let _uids = ascending_is_in_order();
}

/// So where the answer of `restore::check` of it is Ok, it is such a start, and else memory ran out.
pub fn checks_go_on()
    ensures { ChecksGoOn }
{
    let _uids = ascending_is_in_order();
}

/// Such a savepoint has a spelling, where the numbers of the input and the counts of the cut have 64 bits: it can be
/// written and read again, and its entries are what so many records can come to.
pub fn snapshots_are_savepoints()
    ensures { SnapshotsAreSavepoints }
{
    let _uids = ascending_is_in_order();
}

/// What a savepoint that is accepted has in its windows, whoever made it, can be dealt out to the tasks of any layout
/// and put together again.
pub fn accepted_have_groups()
    ensures { AcceptedHaveGroups }
{}
