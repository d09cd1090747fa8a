//! Laws of local steps, of worlds, of histories and of legs, each the contract of a function that does nothing.

ghost use Rattle.dataflow_laws.specs.Needs.{StepNeeds, NeedsStep};
ghost use Rattle.dataflow_laws.specs.Count.{TakesNoMore};
ghost use Rattle.dataflow_laws.specs.World.{MovesKeepHistories, WorldsAreHistories, RingsAreBounded};
ghost use Rattle.dataflow_laws.specs.Admission.{RingsAreAdmitted};
ghost use Rattle.dataflow_laws.specs.Progress.{Progress};
ghost use Rattle.dataflow_laws.specs.Measure.{Falls};
ghost use Rattle.dataflow_laws.specs.Finish.{WorldsFinish, LegsComplete};
ghost use Rattle.dataflow_laws.specs.Example.{SmallLeg};
ghost use Rattle.dataflow_laws.specs.Edges.{EdgesKeepWatermarks, WindowsHaveTheWatermark};
ghost use Rattle.dataflow_laws.specs.Firing.{WindowsFireOnce};
ghost use Rattle.dataflow_laws.specs.Laws.{DrainedIsExact, LegIsExact, LegReachesItsCut, LegToItsCutIsExact, EachMoment};
ghost use Rattle.dataflow_laws.specs.Legs.{LegBetweenIsExact, LegsAreExact};
ghost use Rattle.dataflow_laws.specs.Savepoints.{SavepointIsExact};
ghost use Rattle.dataflow_laws.specs.Inputs.{InputIsAdmitted, LegDelivers, SoFarDelivers, LegsDeliverDue, LegsDeliverAll};
ghost use Rattle.dataflow_laws.specs.Compiled.{CompiledLegDelivers, CompiledLegDeliversAt, CompiledLegDeliversAll, CompiledLegSoFar};
ghost use Rattle.dataflow_laws.specs.Moments.{CompiledLegIsAtACut, CompiledEdgesKeepWatermarks, CompiledWindowsHaveTheWatermark, CompiledWindowsFireOnce};
ghost use Rattle.dataflow_laws.specs.Kept.{SavepointDelivers, CompiledSavepointDelivers, AlignedIsComplete, KeptIsCounted};
ghost use Rattle.dataflow_laws.specs.Owned.{CompiledLegKeepsPanes, CompiledLegKeepsPanesAt, CompiledSavepointKeepsPanes};
ghost use Rattle.dataflow_laws.specs.Stopped.{SinkTellsStops, StoppedIsComplete, CompiledLegComes};

/// A task makes a step only where the step's conditions hold.
pub fn step_needs()
    ensures { StepNeeds }
{}

/// Where the conditions of a step hold, the task has one.
pub fn needs_step()
    ensures { NeedsStep }
{}

/// A move leads from the end of a consistent history to the end of one. The rings hold what was put and not taken.
pub fn moves_keep_histories()
    ensures { MovesKeepHistories }
{}

/// So each world that moves lead to from a start with empty rings is the end of a consistent history.
pub fn worlds_are_histories()
    ensures { WorldsAreHistories }
{}

/// Their rings hold at most as many messages as their capacity.
pub fn rings_are_bounded()
    ensures { RingsAreBounded }
{}

/// At every moment of a leg, no task before the sink has taken more records than the input has.
pub fn takes_no_more()
    ensures { TakesNoMore }
{}

/// Where a task can take from a ring, it admits the message that it would take: rows have the plan's width and times
/// in range, and are not too many; fired rows come to the sink alone; a barrier is the next one.
pub fn rings_are_admitted()
    ensures { RingsAreAdmitted }
{}

/// Wherever a history ends whose tasks are of one leg and began in opening states, over an admitted input, some task
/// has a move unless all are done: at every capacity of the rings of at least 1, with savepoints and without.
pub fn progress()
    ensures { Progress }
{}

/// Each move from where a history ends lowers a whole number that tasks and rings fix: in whatever order, moves come to
/// an end.
pub fn falls()
    ensures { Falls }
{}

/// So from wherever such a history ends, at every capacity of at least 1, moves lead to where all tasks are done.
pub fn worlds_finish()
    ensures { WorldsFinish }
{}

/// Each leg whose tasks begin in opening states, over an admitted input, has a complete history.
pub fn legs_complete()
    ensures { LegsComplete }
{}

/// What these laws ask of legs, and what a leg needs to be exact, can be met: by a small leg of any plan over an
/// orderly input, from its beginning, with a savepoint while it goes on and a stop at a cut.
pub fn small_leg()
    ensures { SmallLeg }
{}

/// At every moment of a leg, each ring that leads to a task before the sink keeps watermarks and records in their
/// order: its sender has told its merged watermark, its receiver has for that input the greatest that it took, and no
/// record comes after a watermark that has its time. A source has of each partition the watermark of the entries that
/// it has read.
pub fn edges_keep_watermarks()
    ensures { EdgesKeepWatermarks }
{}

/// So at every moment the watermark of each window task is at most that of the cut that was read, and once all tasks
/// are done it is that.
pub fn windows_have_the_watermark()
    ensures { WindowsHaveTheWatermark }
{}

/// At every moment each window task has given, of each pane whose key it owns and that was not due at the start,
/// nothing before its watermark has come to the window's end, and from then on just the row of all its records, once.
pub fn windows_fire_once()
    ensures { WindowsFireOnce }
{}

/// Where all that was put on a ring was taken from it, a leg that began with the snapshot of a cut has delivered,
/// for each pane, just the row that is due at its end and was not at its start, and leaves the snapshot.
pub fn drained_is_exact()
    ensures { DrainedIsExact }
{}

/// Every complete history of a leg that began with the snapshot of a cut has delivered, for each pane, just the row
/// that is due at its end and was not at its start, and leaves the snapshot: the order of steps does not matter.
pub fn leg_is_exact()
    ensures { LegIsExact }
{}

/// Where no stop may be asked for, a complete history has read each partition as far as its leg goes.
pub fn leg_reaches_its_cut()
    ensures { LegReachesItsCut }
{}

/// Where no stop may be asked for, what a complete history delivers and leaves hangs on the cut that its leg began
/// with and the one that it goes to alone.
pub fn leg_to_its_cut_is_exact()
    ensures { LegToItsCutIsExact }
{}

/// At every moment of a leg, complete or not, the sink has of each pane nothing or just the row that the leg owes it.
pub fn each_moment()
    ensures { EachMoment }
{}

/// A leg from one cut of an input to another delivers, whatever its layout, the plan's row of each pane that is due at
/// its end and was not at its start, once, and leaves the snapshot of the cut that it came to.
pub fn leg_between_is_exact()
    ensures { LegBetweenIsExact }
{}

/// Legs one after another, each with a layout of its own, the first from nothing and each other from what the one
/// before left, deliver together the plan's row of each pane that is due, once, and nothing else, and leave the
/// snapshot.
pub fn legs_are_exact()
    ensures { LegsAreExact }
{}

/// Once every task has aligned on the barrier of a savepoint that is taken while the leg goes on, what they have kept
/// is its cut, the rows that were due there and not at the start, and the snapshot.
pub fn savepoint_is_exact()
    ensures { SavepointIsExact }
{}

/// The same in the words of an input: the rows that became due from the leg's start to the cut of the savepoint, each
/// once, the snapshot there and its watermarks.
pub fn savepoint_delivers()
    ensures { SavepointDelivers }
{}

/// So it is on the compiled layout of a plan.
pub fn compiled_savepoint_delivers()
    ensures { CompiledSavepointDelivers }
{}

/// A barrier on which every task has aligned was put on every ring: none is left behind on the way.
pub fn aligned_is_complete()
    ensures { AlignedIsComplete }
{}

/// Whatever layout deals the input, its tasks admit the entries: they have the plan's width and times in range, and at
/// most 2^40 records together.
pub fn input_is_admitted()
    ensures { InputIsAdmitted }
{}

/// A leg that opens with the snapshot of one cut of an input and comes to another delivers the rows that become due
/// between them, each once, and nothing else, and leaves the snapshot of the other: whatever its layout and the order
/// of its steps.
pub fn leg_delivers()
    ensures { LegDelivers }
{}

/// At every moment of such a leg, done or not, its sink has of each pane nothing, or just that row.
pub fn so_far_delivers()
    ensures { SoFarDelivers }
{}

/// Whatever the layouts, the cuts between and the order of steps: one leg or more, from the beginning of the input to a
/// cut, deliver together the plan's rows that are due there, each once, and nothing else.
pub fn legs_deliver_due()
    ensures { LegsDeliverDue }
{}

/// Once they have come to the end of each partition, they have delivered all of the plan's rows.
pub fn legs_deliver_all()
    ensures { LegsDeliverAll }
{}

/// On the compiled layout of a plan at a scale, a leg that opens with the snapshot of a cut of the input, and whose
/// tasks are all done, has delivered just the rows that became due, each once, and leaves the snapshot of the cut that
/// it was to come to: the end of the input, or a cut.
pub fn compiled_leg_delivers()
    ensures { CompiledLegDelivers }
{}

/// However such a leg is to end, also where a stop may be asked for: at the cut that its tasks have come to when all
/// are done, it has delivered just the rows that became due, each once, and leaves the snapshot.
pub fn compiled_leg_delivers_at()
    ensures { CompiledLegDeliversAt }
{}

/// One that starts from nothing and runs to the end has delivered all rows of the plan, each once, and nothing else.
pub fn compiled_leg_delivers_all()
    ensures { CompiledLegDeliversAll }
{}

/// At every moment of a leg on the compiled layout of a plan, complete or not, its sink has of each pane nothing, or
/// just the row that becomes due on the leg's way.
pub fn compiled_leg_so_far()
    ensures { CompiledLegSoFar }
{}

/// At every moment of a leg on the compiled layout of a plan, whatever it began with, the tasks that read have come to
/// a cut of the input.
pub fn compiled_leg_is_at_a_cut()
    ensures { CompiledLegIsAtACut }
{}

/// There each source has the watermarks that its partitions have at that cut, and each ring that leads to a task before
/// the sink keeps watermarks and records in their order.
pub fn compiled_edges_keep_watermarks()
    ensures { CompiledEdgesKeepWatermarks }
{}

/// Where the leg opened with the snapshot of a cut, the watermark of each window task is at most that of the cut that
/// was read, and once all tasks are done it is that.
pub fn compiled_windows_have_the_watermark()
    ensures { CompiledWindowsHaveTheWatermark }
{}

/// And each window task has given, of each pane whose key it owns and that was not due where the leg began, nothing
/// before its watermark has come to the window's end, and from then on the plan's row of the pane on the whole input,
/// once.
pub fn compiled_windows_fire_once()
    ensures { CompiledWindowsFireOnce }
{}

/// Whatever a leg on the compiled layout of a plan begins with: where each of the window's tasks has its own panes
/// alone, of no more records than stand before the cut that the leg begins at, so it is when all tasks are done, at the
/// cut that the leg was to come to; there are its sources, with the watermarks of that cut.
pub fn compiled_leg_keeps_panes()
    ensures { CompiledLegKeepsPanes }
{}

/// However it is to end, so it is at the cut that its tasks have come to when all are done.
pub fn compiled_leg_keeps_panes_at()
    ensures { CompiledLegKeepsPanesAt }
{}

/// So it is of what the window's tasks have kept at a savepoint on the way, once every task has aligned on its barrier,
/// at the savepoint's cut.
pub fn compiled_savepoint_keeps_panes()
    ensures { CompiledSavepointKeepsPanes }
{}

/// At every moment of a leg, each task has kept itself once at each barrier on the way that it has passed, and at no
/// other.
pub fn kept_is_counted()
    ensures { KeptIsCounted }
{}

/// Once all tasks of a leg are done, its sink tells whether it has stopped: where it has passed no barrier of a stop,
/// every source has come to its end, and the leg was not to end at a cut.
pub fn sink_tells_stops()
    ensures { SinkTellsStops }
{}

/// Once all tasks have aligned on the barrier of the stop, which is the leg's last, all are done: each has put it on
/// each of its outputs, and has nothing pending behind it.
pub fn stopped_is_complete()
    ensures { StoppedIsComplete }
{}

/// Each leg of a compiled layout whose tasks are all done has come to a cut of the input that is no earlier than the
/// one that it began at, and has stopped there or not, as it was to.
pub fn compiled_leg_comes()
    ensures { CompiledLegComes }
{}
