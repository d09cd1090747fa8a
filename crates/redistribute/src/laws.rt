//! Laws of the definitions, each the contract of a function that does nothing.

ghost use Rattle.redistribute.specs.Laws.{
  EachPartitionOnce,
  NothingElse,
  TasksHaveOwnPanes,
  TasksHaveSnapshot,
  TasksOpen,
};

/// Each partition of each source stands in what just one task of the layout begins with, at one place, with the offset
/// and the watermark that the start has for it.
pub fn each_partition_once()
    ensures { EachPartitionOnce }
{}

/// And nothing else stands in what a task begins with.
pub fn nothing_else()
    ensures { NothingElse }
{}

/// Tasks that begin with a start of the input, in a leg that can go as far as it is to, are the tasks of one leg, each
/// in an opening state: with the offsets and the watermarks of its partitions, and in its windows what the start has
/// for the key groups that it owns.
pub fn tasks_open()
    ensures { TasksOpen }
{}

/// Where the start has the snapshot of the cut that it begins at, the tasks have it, with the watermarks there.
pub fn tasks_have_snapshot()
    ensures { TasksHaveSnapshot }
{}

/// Each of the window's tasks has its own panes alone, of no more records than stand before the cut that the start
/// begins at, where the sources are.
pub fn tasks_have_own_panes()
    ensures { TasksHaveOwnPanes }
{}
