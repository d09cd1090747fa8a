//! The first step that a world could make.

ghost use Rattle.std.specs.Prelude.{◌≡◌, ◌<◌, ◌≤◌, MatchOption, false, ℕ};
ghost use Rattle.layout_rules.specs.Stages.{task_count};
ghost use Rattle.task_setups.specs.Legs.{IsLayoutOf};
ghost use Rattle.core_steps.specs.Answers.{CanMake};
ghost use Rattle.leg_runs.specs.Order.{CanNothing, CannotRead, CannotTake};

use core_steps::World;
use dataflow_laws::Step;
use plan_compiler::Layout;

/// The first entry that a task could read, by its partitions.
fn read_step(world: &World, layout: &Layout, task: u32) -> Option<Step>
    requires same { layout.now ≡ world.now.given.layout }
    requires laid_out { IsLayoutOf world.now.given.plan layout.now }
    requires going { world.now.has_failed ≡ false }
    requires task { task < task_count layout.now.stages }
    ensures { MatchOption result (CannotRead world.now task) (λ step. CanMake world.now step) }
{
    let partitions = layout.partitions_of(task);
    for at in 0..partitions.len() {
        let step = Step::Read(task, partitions[at]);
        if world.enabled(step) {
            return Some(step);
        }
    }
    None
}

/// The first message that a task could take, by its inputs.
#[tactic(auto, using(task_setups::proofs::Facts::few_inputs))]
fn take_step(world: &World, layout: &Layout, task: u32) -> Option<Step>
    requires same { layout.now ≡ world.now.given.layout }
    requires laid_out { IsLayoutOf world.now.given.plan layout.now }
    requires going { world.now.has_failed ≡ false }
    requires task { task < task_count layout.now.stages }
    ensures { MatchOption result (CannotTake world.now task) (λ step. CanMake world.now step) }
{
    let _tasks = layout.task_count();
    for input in 0..layout.inputs_of(task).len() {
        let step = Step::Take(task, input as u32);
        if world.enabled(step) {
            return Some(step);
        }
    }
    None
}

/// The step if it could be made.
fn enabled(world: &World, step: Step) -> Option<Step>
    requires going { world.now.has_failed ≡ false }
    ensures { MatchOption result (CanMake world.now step → ⊥) (λ it. CanMake world.now it) }
{
    if world.enabled(step) {
        Some(step)
    } else {
        None
    }
}

/// The first step that a task could make.
pub(crate) fn task_step(world: &World, layout: &Layout, task: u32) -> Option<Step>
    requires same { layout.now ≡ world.now.given.layout }
    requires laid_out { IsLayoutOf world.now.given.plan layout.now }
    requires going { world.now.has_failed ≡ false }
    requires task { task < task_count layout.now.stages }
    ensures { MatchOption result (CanNothing world.now task) (λ step. CanMake world.now step) }
{
    if let Some(step) = enabled(world, Step::Open(task)) {
        return Some(step);
    }
    if let Some(step) = read_step(world, layout, task) {
        return Some(step);
    }
    if let Some(step) = enabled(world, Step::Save(task)) {
        return Some(step);
    }
    if let Some(step) = enabled(world, Step::Stop(task)) {
        return Some(step);
    }
    if let Some(step) = enabled(world, Step::Close(task)) {
        return Some(step);
    }
    if let Some(step) = take_step(world, layout, task) {
        return Some(step);
    }
    enabled(world, Step::Put(task))
}

/// The first step that a task from this one on could make.
pub(crate) fn step_from(world: &World, layout: &Layout, first: u32) -> Option<Step>
    requires same { layout.now ≡ world.now.given.layout }
    requires laid_out { IsLayoutOf world.now.given.plan layout.now }
    requires going { world.now.has_failed ≡ false }
    ensures { MatchOption result ((t : ℕ) → first ≤ t → t < task_count layout.now.stages → CanNothing world.now t) (λ step. CanMake world.now step) }
{
    for task in first..layout.task_count() {
        if let Some(step) = task_step(world, layout, task) {
            return Some(step);
        }
    }
    None
}
