//! Laws of the definitions, each the contract of a function that does nothing.

ghost use Rattle.layout_rules.specs.Laws.{CompiledIsLayout, CompiledOnce, CompiledEver, OneMore, RingsByGroup, StagesAlike, StagesAreBounded, TasksAreOneLeg, TasksCounted, TasksHaveOutputs};
ghost use Rattle.layout_rules.specs.Example.{FiveStages};

/// The stages of a plan at a scale are a layout: its tasks and rings go together, each key has an output that
/// leads to the one window task that owns it, a record comes through every filter, and partition k of a source
/// with n tasks stands at place k / n of its task k mod n.
pub fn compiled_is_layout()
    ensures { CompiledIsLayout }
{}

/// A plan has one list of stages at a scale: the rules leave nothing open.
pub fn compiled_once()
    ensures { CompiledOnce }
{}

/// Every plan has stages at every scale: those that `stages_of` makes.
pub fn compiled_ever()
    ensures { CompiledEver }
{}

/// One more operator joins the last stage or opens one; those before it stay where they are.
pub fn one_more()
    ensures { OneMore }
{}

/// All operators of a stage have the stage's parallelism.
pub fn stages_alike()
    ensures { StagesAlike }
{}

/// The stages of the sources stand first, each stage has a parallelism that the plan's key groups allow, and there
/// are at most [`MOST_TASKS`](crate::MOST_TASKS) tasks.
pub fn stages_are_bounded()
    ensures { StagesAreBounded }
{}

/// How many tasks the layout of a plan has at a scale: those of the sources, of each filter that opens a
/// stage, of the window, and the sink's.
pub fn tasks_counted()
    ensures { TasksCounted }
{}

/// Out of a task whose stage's edge leads by key group there are as many rings as the next stage has tasks.
pub fn rings_by_group()
    ensures { RingsByGroup }
{}

/// A ring leads out of each task but the sink.
pub fn tasks_have_outputs()
    ensures { TasksHaveOutputs }
{}

/// In a leg from a start over cuts that rise to its end, all tasks of a layout are the tasks of one leg.
pub fn tasks_are_one_leg()
    ensures { TasksAreOneLeg }
{}

/// A worked layout: two sources with 2 and 3 subtasks, two chained filters with 2 and a window with 3. Tasks
/// 5 and 6, of the filters, have a forward ring from the first source and one from each task of the second.
pub fn five_stages()
    ensures { FiveStages }
{}
