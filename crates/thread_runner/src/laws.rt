//! Laws for callers that make a leg's rings and settle them themselves, each the contract of a function that does
//! nothing.

ghost use Rattle.thread_runner.specs.Laws.{LayoutsHaveEdges, JobsAreWired, WorkersHandBackRings, WorkersAreOnTheWay, WorkersAreAtEnd};

/// In the layout of a plan each output of a task is an edge to a later task, with one place among its inputs, and each
/// ring is an output: what `wire` and `settle_all` ask of it.
pub fn layouts_have_edges()
    ensures { LayoutsHaveEdges }
{}

/// Jobs of a leg's new tasks, to which `wire` gave a ring for each edge, are as a leg on threads begins.
pub fn jobs_are_wired()
    ensures { JobsAreWired }
{}

/// Of the jobs of a leg, workers hand back one task each, with both ends of each ring, also where memory was refused:
/// what `settle_all` asks of them.
pub fn workers_hand_back_rings()
    ensures { WorkersHandBackRings }
{}

/// What workers hand back, with all edges settled, stands on the way of the leg, also where memory was refused to some
/// of them: what `sealed_of` asks of tasks.
pub fn workers_are_on_the_way()
    ensures { WorkersAreOnTheWay }
{}

/// What workers without a fault hand back, with all edges settled, is the end of a complete consistent history: what
/// `finish_of` asks of tasks.
pub fn workers_are_at_end()
    ensures { WorkersAreAtEnd }
{}
