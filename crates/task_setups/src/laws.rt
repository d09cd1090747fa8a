//! Laws of the definitions, each the contract of a function that does nothing.

ghost use Rattle.task_setups.specs.Beginnings.{EveryTaskBegins};
ghost use Rattle.task_setups.specs.Laws.{EveryTaskStands, EveryTaskReads};

/// Each task of every layout and every leg has a task of the code that stands for it, in whatever state: the one that
/// is told what `setup_of` says.
pub fn every_task_stands()
    ensures { EveryTaskStands }
{}

/// Each source of a plan's compiled layout, in every leg over an input, has a task of the code that reads what it
/// reads: told what `setup_of` says, it finds its partitions in the input, as far as the leg reads them, and their
/// entries are those that the layout's task has.
pub fn every_task_reads()
    ensures { EveryTaskReads }
{}

/// Each task of a plan's compiled layout, told what `setup_of` says, can begin with what suits it: its columns are
/// there, each record has a subtask to go to, and a window's task has the plan's operator.
pub fn every_task_begins()
    ensures { EveryTaskBegins }
{}
