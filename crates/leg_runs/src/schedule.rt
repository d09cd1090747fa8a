//! The steps that choices make.
//!
//! To count all steps that could be made takes a look at each ring. So how many each task could make is kept, and after
//! a step counted anew for the task that made it and for the one at the other end of its ring, since no other's have
//! changed.

ghost use Rattle.std.specs.Prelude.{◌≡◌, ◌<◌, List, [], MatchOption, None, Some, IfOk, IfSome, false, length, min, slice_get, ◌^◌, ◌-◌};
ghost use Rattle.std.specs.List.{sum};
ghost use Rattle.dataflow_laws.specs.declared.step.Step.{Step as Asked};
ghost use Rattle.layout_rules.specs.Stages.{inputs_of, task_count};
ghost use Rattle.core_steps.specs.Answers.{CanMake};
ghost use Rattle.leg_runs.specs.Choosing.{AreCounts, HasCount, IsChosen, IsRecounted, LeavesOthers, Selects, all_steps, steps_of};

use core_steps::World;
use dataflow_laws::Step;
use legs::Choice;
use plan_compiler::Layout;
use std::alloc::{AllocError, Global};

/// How many steps a task may be asked for.
fn candidate_count(layout: &Layout, task: u32) -> usize
    requires task { task < task_count layout.now.stages }
    ensures { result ≡ length (steps_of layout.now task) }
{
    5 + layout.partitions_of(task).len() + layout.inputs_of(task).len()
}

/// The step of a task with a number, from 0, in the order in which `Step` lists them, then by partition or input.
#[tactic(auto, using(task_setups::proofs::Facts::few_inputs))]
fn candidate(layout: &Layout, task: u32, number: usize) -> Step
    requires task { task < task_count layout.now.stages }
    ensures { number < length (steps_of layout.now task) → slice_get (steps_of layout.now task) number ≡ Some result }
{
    let _tasks = layout.task_count();
    let partitions = layout.partitions_of(task);
    let inputs = layout.inputs_of(task).len();
    if number == 0 {
        return Step::Open(task);
    }
    if let Some(partition) = partitions.get(number - 1) {
        return Step::Read(task, *partition);
    }
    match number - 1 - partitions.len() {
        0 => Step::Save(task),
        1 => Step::Stop(task),
        2 => Step::Close(task),
        later if later - 3 < inputs => Step::Take(task, (later - 3) as u32),
        _ => Step::Put(task),
    }
}

/// How many steps a task could make.
fn count(world: &World, layout: &Layout, task: u32) -> u64
    requires task { task < task_count layout.now.stages }
    requires going { world.now.has_failed ≡ false }
    ensures { HasCount (CanMake world.now) (steps_of layout.now task) result }
{
    let mut count = 0u64;
    for number in 0..candidate_count(layout, task) {
        if world.enabled(candidate(layout, task, number)) {
            count += 1;
        }
    }
    count
}

/// The step at a place, from 0, of those that a task could make.
fn step_at(world: &World, layout: &Layout, task: u32, place: u64) -> Option<Step>
    requires task { task < task_count layout.now.stages }
    requires going { world.now.has_failed ≡ false }
    ensures can { IfSome result (λ step. CanMake world.now step) }
    ensures is { (steps : List Asked) → Selects (CanMake world.now) (steps_of layout.now task) steps → slice_get steps place ≡ result }
{
    let mut left = place;
    for number in 0..candidate_count(layout, task) {
        let step = candidate(layout, task, number);
        if world.enabled(step) {
            if left == 0 {
                return Some(step);
            }
            left -= 1;
        }
    }
    None
}

/// How many steps each task of a world could make.
pub(crate) fn counts_of(
    alloc: Global,
    world: &World,
    layout: &Layout,
) -> Result<Vec<u64>, AllocError>
    requires going { world.now.has_failed ≡ false }
    ensures { IfOk result (λ counts. AreCounts world.now layout.now counts.items) }
{
    let mut counts = Vec::new(alloc);
    for task in 0..layout.task_count() {
        counts.push(count(world, layout, task))?;
    }
    Ok(counts)
}

/// How many steps all tasks could make, or the greatest number, where there are more.
fn total(counts: &[u64]) -> u64
    ensures { result ≡ min (sum counts.now) (2 ^ 64 - 1) }
{
    let mut steps = 0u64;
    for count in counts {
        steps = steps.saturating_add(*count);
    }
    steps
}

/// The step that a choice makes: none, where there is none.
pub(crate) fn chosen(counts: &[u64], world: &World, layout: &Layout, choice: Choice) -> Option<Step>
    requires going { world.now.has_failed ≡ false }
    ensures can { IfSome result (λ step. CanMake world.now step) }
    ensures is { AreCounts world.now layout.now counts.now → MatchOption result (Selects (CanMake world.now) (all_steps layout.now) []) (λ step. IsChosen (CanMake world.now) (all_steps layout.now) choice.number step) }
{
    let steps = total(counts);
    if steps == 0 {
        return None;
    }
    let mut place = choice.place(steps);
    for task in 0..layout.task_count() {
        let Some(count) = counts.get(task as usize) else {
            return None;
        };
        if place < *count {
            return step_at(world, layout, task, place);
        }
        place -= *count;
    }
    None
}

/// Counts a task's steps anew.
fn recount(counts: &mut [u64], world: &World, layout: &Layout, task: u32)
    requires going { world.now.has_failed ≡ false }
    ensures { IsRecounted world.now layout.now task None counts.old counts.new }
{
    let place = task as usize;
    if task < layout.task_count() && place < counts.len() {
        counts[place] = count(world, layout, task);
    }
}

/// Takes in that a task made a step, which may have changed what the task at the other end of a ring could make.
pub(crate) fn note(
    counts: &mut [u64],
    world: &World,
    layout: &Layout,
    task: u32,
    other: Option<u32>,
)
    requires going { world.now.has_failed ≡ false }
    ensures { IsRecounted world.now layout.now task other counts.old counts.new }
{
    recount(counts, world, layout, task);
    if let Some(other) = other {
        recount(counts, world, layout, other);
    }
}

/// The task that an input of a task comes from.
fn sender(layout: &Layout, task: u32, input: u32) -> Option<u32>
    ensures { task < task_count layout.now.stages → result ≡ slice_get (inputs_of layout.now.stages task) input }
{
    if task >= layout.task_count() {
        return None;
    }
    layout.inputs_of(task).get(input as usize).copied()
}

/// The task at the other end of the ring that a step is to touch, if it touches one.
pub(crate) fn other_end(world: &World, layout: &Layout, step: Step) -> Option<u32>
    ensures { layout.now ≡ world.now.given.layout → LeavesOthers world.now step result }
{
    let _failed = world.has_failed();
    match step {
        Step::Put(task) => world.receiver(task),
        Step::Take(task, input) => sender(layout, task, input),
        _ => None,
    }
}
