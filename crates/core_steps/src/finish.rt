//! How a leg ends.

ghost use Rattle.std.specs.Prelude.{◌≡◌, ◌<◌, ℕ, nat_lt, IfOk, length, slice_index_or, suc};
ghost use Rattle.dataflow_model.specs.Leg.Until.{ToEnd};
ghost use Rattle.legs.specs.Stops.{until_in};
ghost use Rattle.redistribute.specs.Begins.{IsFromNothing};
ghost use Rattle.task_steps.specs.TaskData.{TaskData};
ghost use Rattle.core_steps.specs.Given.{begun_data};
ghost use Rattle.core_steps.specs.World.{state_at};
ghost use Rattle.core_steps.specs.Finishing as leg;
ghost use Rattle.core_steps.specs.Finishing.{AreAtEnd};
ghost use Rattle.core_steps.specs.Ending.{IsEndOf, IsWholeRun};

use crate::given::Begun;
use crate::sealing::{Sealed, sealed_of};
use leg_tasks::{parts_left, save_parts};
use legs::Until;
use plain_data::Items;
use plan_model::Row;
use savepoint_codec::Savepoint;
use std::alloc::{AllocError, Global};
use task_steps::{Moment, Task};

/// How a leg ended, with the rows that it delivered, in the order in which they came.
#[derive(Drop)]
pub enum Finish {
    /// It came to the end of its input, with what it has sealed at the last of its savepoints on the way, if it took
    /// any.
    Ended(Items<Row>, Option<Sealed>),
    /// It stopped at a cut, and leaves the savepoint of there.
    Stopped(Items<Row>, Savepoint),
    /// It was given up for want of memory, with what it had sealed before at a savepoint on its way.
    Abandoned(Sealed),
}

/// The rows that the last task has collected, which is the sink, in the order in which they came.
fn sink_rows(tasks: Vec<Task>) -> Items<Row>
    requires { 0 < length tasks.items }
    ensures { (t : ℕ) (d : TaskData) → suc t ≡ length tasks.items → result ≡ (slice_index_or tasks.items t d).state.rows }
{
    let mut tasks = tasks;
    Items::from_vec(tasks.pop().unwrap().into_rows())
}

/// Whether the last task, which is the sink, has passed the barrier of a stop: one more than so many savepoints on the
/// way have.
fn has_stopped(tasks: &[Task], saves: usize) -> bool
    requires { 0 < length tasks.now }
    ensures { (t : ℕ) (d : TaskData) → suc t ≡ length tasks.now → result ≡ nat_lt saves (slice_index_or tasks.now t d).state.next }
{
    match tasks.last() {
        Some(sink) => (saves as u64) < sink.barriers_passed(),
        None => false,
    }
}

/// How a leg ended whose tasks stand at the end of a complete history, in whatever order and in whatever threads they
/// made their steps: with the rows that its sink has collected and, where the sink has passed the barrier of a stop,
/// with the savepoint that its tasks leave at the cut that they have come to, numbered after the one that the leg went
/// on from and those that it took on its way; else with what it has sealed at the last of those, if it took any.
///
/// The tasks are those of the layout, in their order, and all are done. The layout is one of the plan, the input was
/// read by it, the start is one of the input, and the leg could take its savepoints and go so far.
///
/// # Errors
///
/// Only where memory runs out, and of tasks that have failed for want of it.
pub fn finish_of(
    alloc: Global,
    given: &Begun<'_>,
    until: &Until,
    tasks: Vec<Task>,
) -> Result<Finish, AllocError>
    requires { AreAtEnd (begun_data given.now (until_in until.now)) tasks.items }
    ensures is { let g = begun_data given.now (until_in until.now) in IfOk result (leg.IsFinishOf g (state_at g tasks.items)) }
    ensures ends { let g = begun_data given.now (until_in until.now) in IfOk result (λ finish. IsEndOf g.plan g.input g.start g.saves g.until finish) }
    ensures whole { let g = begun_data given.now (until_in until.now) in IfOk result (λ finish. IsFromNothing g.input g.start → g.until ≡ ToEnd → IsWholeRun g.plan g.input finish) }
{
    let plan = given.plan;
    let layout = given.layout;
    let saves = given.saves.len();
    if !has_stopped(tasks.as_slice(), saves) {
        let sealed = sealed_of(alloc, given, until, tasks.as_slice())?;
        return Ok(Finish::Ended(sink_rows(tasks), sealed));
    }
    let parts = parts_left(alloc, plan, layout, tasks.as_slice(), Moment::Now)?;
    // The tasks go before the savepoint is put together, so that their windows do not stand beside it.
    let rows = sink_rows(tasks);
    let number = given.number + saves as u64 + 1;
    let savepoint = save_parts(alloc, plan, layout, parts, number)?;
    Ok(Finish::Stopped(rows, savepoint))
}
