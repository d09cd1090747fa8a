//! What a leg has sealed.

ghost use Rattle.std.specs.Prelude.{◌≡◌, ◌<◌, ℕ, IfOk, IfSome, length, slice_index_or, suc, take};
ghost use Rattle.legs.specs.Stops.{until_in};
ghost use Rattle.task_steps.specs.Seen.{seen_at};
ghost use Rattle.task_steps.specs.TaskData.{TaskData};
ghost use Rattle.core_steps.specs.Given.{begun_data};
ghost use Rattle.core_steps.specs.World.{state_at};
ghost use Rattle.core_steps.specs.Sealing.{AreOnTheWay, HavePassed, IsSealOf, IsSealed};

use crate::given::Begun;
use leg_tasks::save;
use legs::Until;
use plain_data::Items;
use plan_model::Row;
use savepoint_codec::Savepoint;
use std::alloc::{AllocError, Global};
use task_steps::{Moment, Task};

/// What a leg has sealed at a moment: the savepoint of its last complete barrier, which every task has passed, and the
/// rows that the sink had taken before it passed that barrier. However the leg goes on from there, or if it is given
/// up, a leg from this savepoint delivers all rows that became due later, and none of these.
#[derive(Drop)]
pub struct Sealed {
    /// Which of the leg's barriers that is, counted from 1: those of its savepoints on the way come first, that of its
    /// stop last.
    pub barrier: u64,
    /// The rows, in the order in which they came.
    pub rows: Items<Row>,
    /// The savepoint, numbered after the one that the leg went on from.
    pub savepoint: Savepoint,
}

/// How many of the leg's barriers every task has passed.
fn barriers_passed(tasks: &[Task]) -> u64
    requires { 0 < length tasks.now }
    ensures { HavePassed result tasks.now }
{
    let mut least = tasks[0].barriers_passed();
    for task in tasks {
        least = least.min(task.barriers_passed());
    }
    least
}

/// The rows that the last task, which is the sink, had collected then, in the order in which they came.
fn rows_then(alloc: Global, tasks: &[Task], at: Moment) -> Result<Items<Row>, AllocError>
    requires { 0 < length tasks.now }
    ensures { IfOk result (λ rows. (t : ℕ) (d : TaskData) → suc t ≡ length tasks.now → let s = (slice_index_or tasks.now t d).state in rows ≡ take (seen_at at s).rows s.rows) }
{
    let sink = &tasks[tasks.len() - 1];
    Ok(Items::from_vec(sink.rows(alloc, at)?))
}

/// What a leg has sealed whose tasks stand so, in whatever order and in whatever threads they made their steps; `None`
/// where no barrier is complete.
///
/// The tasks are those of the layout, in their order. The layout is one of the plan, the input was read by it, the
/// start is one of the input, and the leg could take its savepoints and go so far. A consistent history leads to where
/// the tasks stand; a task for which memory was refused may have lost what stands in its windows now.
///
/// # Errors
///
/// Only where memory runs out.
pub fn sealed_of(
    alloc: Global,
    given: &Begun<'_>,
    until: &Until,
    tasks: &[Task],
) -> Result<Option<Sealed>, AllocError>
    requires { AreOnTheWay (begun_data given.now (until_in until.now)) tasks.now }
    ensures is { let g = begun_data given.now (until_in until.now) in IfOk result (IsSealed g (state_at g tasks.now)) }
    ensures exact { let g = begun_data given.now (until_in until.now) in IfOk result (λ answer. IfSome answer (IsSealOf g (state_at g tasks.now))) }
{
    let _saves = given.saves.len();
    let barrier = barriers_passed(tasks);
    if barrier == 0 {
        return Ok(None);
    }
    let at = Moment::Barrier(barrier - 1);
    let rows = rows_then(alloc, tasks, at)?;
    let savepoint = save(
        alloc,
        given.plan,
        given.layout,
        tasks,
        at,
        given.number + barrier,
    )?;
    Ok(Some(Sealed {
        barrier,
        rows,
        savepoint,
    }))
}
