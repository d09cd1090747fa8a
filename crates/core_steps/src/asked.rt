//! The tasks of a leg that may be asked to stop.

ghost use Rattle.std.specs.Prelude.{IfOk, OnOk};
ghost use Rattle.stream_model.specs.InputData.{BelongsTo};
ghost use Rattle.redistribute.specs.Begins.{IsStartIn};
ghost use Rattle.task_setups.specs.Legs.{IsLayoutOf};
ghost use Rattle.core_steps.specs.Given.{given_asked};
ghost use Rattle.core_steps.specs.World.{IsSound};
ghost use Rattle.core_steps.specs.Beginning.{AreNewTasks};

use leg_tasks::tasks;
use legs::Until;
use plan_compiler::Layout;
use plan_model::Plan;
use redistribute::Start;
use std::alloc::{AllocError, Global};
use stream_model::Input;
use task_setups::Leg;
use task_steps::Task;
use window_state::HashKeys;

/// The tasks of a leg that begins at a start and may be asked to stop at any time, in order: each source reads up to
/// the ends of its partitions, could stop wherever it is open, and could close at those ends. The panes of the windows
/// are hashed by the keys.
///
/// The layout is one of the plan, the input was read by it, and the start is one of the input.
///
/// # Errors
///
/// Only where memory runs out.
pub fn tasks_asked(
    alloc: Global,
    keys: HashKeys,
    plan: &Plan,
    input: &Input,
    start: &Start,
    layout: &Layout,
) -> Result<Vec<Task>, AllocError>
    requires laid_out { IsLayoutOf plan.now layout.now }
    requires belongs { BelongsTo plan.now input.now }
    requires starts { IsStartIn plan.now input.now start.now }
    ensures sound { OnOk result (IsSound (given_asked plan.now input.now start.now layout.now)) }
    ensures new { IfOk result (λ tasks. AreNewTasks (given_asked plan.now input.now start.now layout.now) tasks.items) }
{
    let _columns = plan.columns();
    let _sources = input.sources();
    let leg = Leg {
        number: start.number(),
        saves: &[],
        until: Until::TillAsked,
    };
    match tasks(alloc, keys, plan, input, start, layout, &leg) {
        Ok(tasks) => Ok(tasks),
        Err(_) => Err(AllocError),
    }
}
