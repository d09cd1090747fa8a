//! Laws of the legs of a job, each the contract of a function that does nothing.

ghost use Rattle.lineages.specs.Calls.{CallsAreAnswered, CallsAreExact, SaidComesFrom};
ghost use Rattle.lineages.specs.Changes.{AcceptedAgree, BetweenIsSame, CallsOverInputsAreExact, EachMomentOverInputs, HeadlineOverInputs, LineagesOverInputsAreExact};
ghost use Rattle.lineages.specs.Dealing.{DealtAreGathered, SavepointsAreGatheredAgain};
ghost use Rattle.lineages.specs.Lineage.{BytesRestart, EachMomentIsPart, EachMomentOfALeg, FinishedIsLeg, Headline, LegsTakeTheirSavepoints, LineagesAreExact, OneSavepoint, TasksAreLeg, TasksGiveUp, WorldsGiveUp};
ghost use Rattle.lineages.specs.Steps.{EachStepFalls};

use gather::laws::same_panes_same_savepoint;
use input_changes::laws::{agree_earlier, agreeing_are_same, entries_keep_the_cut};
use job_legs::laws::{each_row_adds_up, nothing_due_at_first, rows_add_up};
use leg_tasks::laws::saved_at_is_one;
use logical_plan::laws::said_is_plan;
use plan_record::laws::ascending_is_in_order;
use redistribute::laws::each_partition_once;
use restarts::laws::{accepted_have_groups, snapshots_restart};
use savepoint_index::laws::one_content;
use stream_input::laws::said_is_input;
use stream_model::laws::end_is_due;

/// The headline theorem: once one leg of a job runs to the end of its input, the rows that all its legs have delivered
/// together are just the plan's rows on the whole input, each once, whatever the order of steps, in one thread or many,
/// at whatever cuts, parallelisms and chainings the job was stopped with a savepoint and started again, and at whatever
/// moments legs were given up with what they had sealed at a savepoint on their way.
pub fn headline()
    ensures { Headline }
{
    let _over = headline_over_inputs();
}

/// The headline theorem where the input changes between the legs: each leg has an input of its own, of which nothing is
/// asked but that its first entries in each partition are those that the leg before had read of its own when it
/// stopped, and that the check of its savepoint accepts it. The rows are the plan's on all of the last input, each
/// once.
pub fn headline_over_inputs()
    ensures { HeadlineOverInputs }
{
    let _exact = lineages_over_inputs_are_exact();
}

/// A world on its way is a leg once all its tasks are done.
pub fn finished_is_leg()
    ensures { FinishedIsLeg }
{}

/// Tasks that stand at the end of a complete history, as those do that workers on threads hand back
/// (`thread_runner::laws::workers_are_at_end`), are a leg.
pub fn tasks_are_leg()
    ensures { TasksAreLeg }
{}

/// A leg that has ended has taken the savepoints on its way, and that of its stop.
pub fn legs_take_their_savepoints()
    ensures { LegsTakeTheirSavepoints }
{}

/// A world that is given up at any moment, also where a step found no memory, gives what it had sealed
/// (`World::sealed`), and has come to the cut of that barrier.
pub fn worlds_give_up()
    ensures { WorldsGiveUp }
{}

/// So do tasks that stand on the way of a leg, as those do that workers on threads hand back also where one had a fault
/// (`thread_runner::laws::workers_are_on_the_way`), with what `sealed_of` says of them.
pub fn tasks_give_up()
    ensures { TasksGiveUp }
{}

/// Legs of which the last has come to a cut, where it stopped or was given up, have delivered just the rows that are
/// due there, each once, and leave the savepoint of the cut, numbered by all savepoints that they have taken.
pub fn lineages_are_exact()
    ensures { LineagesAreExact }
{
    let _over = lineages_over_inputs_are_exact();
}

/// Legs of which each has an input of its own, and the last has come to a cut, have delivered just the rows that are
/// due there by the last input, each once, and leave the savepoint of that input's cut, numbered by all savepoints that
/// they have taken.
pub fn lineages_over_inputs_are_exact()
    ensures { LineagesOverInputsAreExact }
{
    let _first = nothing_due_at_first();
    let _add = rows_add_up();
    let _restart = snapshots_restart();
    let _content = one_content();
    let _end = end_is_due();
    let _agreeing = agreeing_are_same();
    let _keep = entries_keep_the_cut();
}

/// At every moment of a job, in the midst of a leg too, its legs have delivered together, of each pane, nothing or just
/// the row that is due where the last of them is to stop: no row is wrong, and none comes twice.
pub fn each_moment_is_part()
    ensures { EachMomentIsPart }
{
    let _over = each_moment_over_inputs();
}

/// So it is where each leg has an input of its own: what is due by the last input.
pub fn each_moment_over_inputs()
    ensures { EachMomentOverInputs }
{
    let _first = nothing_due_at_first();
    let _add = rows_add_up();
    let _each = each_row_adds_up();
    let _restart = snapshots_restart();
    let _content = one_content();
    let _end = end_is_due();
    let _agreeing = agreeing_are_same();
    let _keep = entries_keep_the_cut();
}

/// At every moment of one leg that starts with the snapshot of its cut, its sink has, of each pane, nothing or just the
/// row that becomes due between the start and where the leg is to stop.
pub fn each_moment_of_a_leg()
    ensures { EachMomentOfALeg }
{}

/// Each step that a world makes lowers a whole number that its tasks and rings fix: so steps come to an end, in any
/// order.
pub fn each_step_falls()
    ensures { EachStepFalls }
{}

/// A start that goes on from a cut's savepoint, by bytes that spell it with an index or without one, is at that cut,
/// with its snapshot, after as many savepoints.
pub fn bytes_restart()
    ensures { BytesRestart }
{
    let _restart = snapshots_restart();
    let _content = one_content();
}

/// Where the entries before a cut are the same in two inputs of a plan, and the check accepts the savepoint that a job
/// by the one has left at the cut for the other, they agree before the cut: the watermarks there are the same too,
/// which the check compares.
pub fn accepted_agree()
    ensures { AcceptedAgree }
{
    let _keep = entries_keep_the_cut();
    let _restart = snapshots_restart();
    let _content = one_content();
}

/// What becomes due between two cuts is the same by two inputs that agree before the later one.
pub fn between_is_same()
    ensures { BetweenIsSame }
{
    let _earlier = agree_earlier();
    let _agreeing = agreeing_are_same();
}

/// The start that the bytes of a savepoint say is what the check gives of the savepoint that they spell.
pub fn said_comes_from()
    ensures { SaidComesFrom }
{}

/// Each call of `job_leg` that answers Ok has written the text, and given the bytes, of the leg that its texts say.
pub fn calls_are_answered()
    ensures { CallsAreAnswered }
{}

/// Calls of `job_leg` for one plan and one input, the first from nothing and each other from the bytes that the one
/// before gave, or from those of the same savepoint without an index, have written together the lines of just the rows
/// that are due where the last stops, and of all of the plan's rows where it runs to the end.
pub fn calls_are_exact()
    ensures { CallsAreExact }
{
    let _over = calls_over_inputs_are_exact();
}

/// So it is of calls for one plan, each with an input of its own, where the entries that one call had read when it
/// stopped stand first in the next one's: the lines are those of the rows by the last input.
pub fn calls_over_inputs_are_exact()
    ensures { CallsOverInputsAreExact }
{
    let _first = nothing_due_at_first();
    let _add = rows_add_up();
    let _restart = snapshots_restart();
    let _content = one_content();
    let _end = end_is_due();
    let _agreeing = agreeing_are_same();
    let _keep = entries_keep_the_cut();
    let _plan = said_is_plan();
    let _input = said_is_input();
}

/// Legs from one snapshot to one cut, after as many savepoints, leave the same bytes at every scale and in every order
/// of steps, in one thread and on many, whether they stopped there or were given up with what they had sealed there.
pub fn one_savepoint()
    ensures { OneSavepoint }
{
    let _one = saved_at_is_one();
}

/// Of what `redistribute::spread` gives of a start, at a layout of any scale, `gather::gather` gives the start's: how
/// far each partition of each source was read, with its watermark there, and in each pane what stands there.
pub fn dealt_are_gathered()
    ensures { DealtAreGathered }
{
    let _once = each_partition_once();
    let _same = same_panes_same_savepoint();
}

/// So a savepoint that is accepted, whoever made it, dealt out to the tasks of any layout and put together again under
/// its own number, is the one that its bytes spell, with an index or without one.
pub fn savepoints_are_gathered_again()
    ensures { SavepointsAreGatheredAgain }
{
    let _once = each_partition_once();
    let _same = same_panes_same_savepoint();
    let _uids = ascending_is_in_order();
    let _groups = accepted_have_groups();
}
