//! What tasks leave of a leg: a savepoint.

ghost use Rattle.std.specs.Prelude.{◌≡◌, ◌<◌, ◌≤◌, ℕ, length, slice_index_or, Some, IfOk};
ghost use Rattle.plan_model.specs.declared.spec.WindowSpec.{WindowSpec};
ghost use Rattle.dataflow_model.specs.State.{State};
ghost use Rattle.dataflow_model.specs.declared.role.Role.TheVariants as role;
ghost use Rattle.layout_rules.specs.Stages as rule;
ghost use Rattle.plan_compiler.specs.LayoutData.{IsLayoutOf};
ghost use Rattle.gather.specs.Parts.{AreParts};
ghost use Rattle.task_steps.specs.Keeping.{kinds_in};
ghost use Rattle.leg_tasks.specs.Leaving as left;

use gather::gather;
use plain_data::Items;
use plan_compiler::{Layout, Role};
use plan_model::Plan;
use redistribute::{PartitionStart, TaskStart};
use savepoint_codec::Savepoint;
use std::alloc::{AllocError, Global};
use task_steps::{Moment, Task};

/// How far the partition at a place was read.
fn start_of(partitions: &[u32], offsets: &[u64], marks: &[i64], place: usize) -> PartitionStart
    requires place { place < length partitions.now }
    requires offsets { place < length offsets.now }
    requires marks { place < length marks.now }
    ensures { result ≡ left.start_of partitions.now offsets.now marks.now place }
{
    PartitionStart {
        partition: partitions[place],
        offset: offsets[place],
        watermark: marks[place],
    }
}

/// How far a source's task has read each of its partitions, which have these numbers, or had then.
fn starts_left(
    alloc: Global,
    partitions: &[u32],
    task: &Task,
    at: Moment,
) -> Result<Items<PartitionStart>, AllocError>
    requires role { task.now.setup.role ≡ role.Source }
    requires inputs { task.now.setup.inputs ≡ length partitions.now }
    ensures { IfOk result (λ starts. starts ≡ left.starts_left partitions.now (left.state_at at task.now.state)) }
{
    let offsets = task.offsets(at);
    let marks = task.marks(at);
    let mut starts = Vec::new(alloc);
    for place in 0..partitions.len() {
        starts.push(start_of(partitions, offsets, marks, place))?;
    }
    Ok(Items::from_vec(starts))
}

/// What the task with this number leaves, or would have left then: a source's task how far it has read its partitions,
/// a window's task what stands in its windows, in the order of start and key, and any other nothing.
fn part_left(
    alloc: Global,
    layout: &Layout,
    number: u32,
    task: &Task,
    at: Moment,
) -> Result<TaskStart, AllocError>
    requires number { number < rule.task_count layout.now.stages }
    requires role { task.now.setup.role ≡ rule.task_role layout.now.stages number }
    requires inputs { rule.task_role layout.now.stages number ≡ role.Source → task.now.setup.inputs ≡ length (rule.partitions_of layout.now.partitions layout.now.stages number) }
    ensures says { IfOk result (λ part. part ≡ left.part_left layout.now.partitions (kinds_in task.now.window) layout.now.stages number (left.state_at at task.now.state)) }
    ensures operator { IfOk result (λ part. rule.task_role layout.now.stages number ≡ role.Window → (w : WindowSpec) × (task.now.window ≡ Some w)) }
{
    let stage = layout.stage(number);
    match stage.role() {
        Role::Source => {
            let partitions = layout.partitions_of(number);
            Ok(TaskStart::Source(starts_left(alloc, partitions, task, at)?))
        }
        Role::Chain => Ok(TaskStart::Chain),
        Role::Window => Ok(TaskStart::Window(task.parts(alloc, at)?)),
        Role::Sink => Ok(TaskStart::Sink),
    }
}

/// What all tasks of a layout leave, or would have left then, in task order: of it `save_parts` makes their savepoint.
///
/// The tasks are as `save` asks.
///
/// # Errors
///
/// Where memory runs out, and of what stands now in tasks that have failed for want of it.
pub fn parts_left(
    alloc: Global,
    plan: &Plan,
    layout: &Layout,
    tasks: &[Task],
    at: Moment,
) -> Result<Vec<TaskStart>, AllocError>
    requires laid_out { IsLayoutOf plan.now layout.now }
    requires tasks { left.CanSave plan.now layout.now.stages at tasks.now }
    ensures says { IfOk result (λ parts. (states : ℕ → State) → left.HaveStates layout.now.stages tasks.now states → parts.items ≡ left.all_left plan.now layout.now.stages (λ t. left.state_at at (states t))) }
    ensures sound { IfOk result (λ parts. AreParts plan.now layout.now.stages parts.items) }
{
    let _aggregates = plan.window();
    let mut parts = Vec::new(alloc);
    for number in 0..layout.task_count() {
        parts.push(part_left(alloc, layout, number, &tasks[number as usize], at)?)?;
    }
    Ok(parts)
}

/// The savepoint of this number that is made of what all tasks of a layout leave.
///
/// # Errors
///
/// Only where memory runs out.
pub fn save_parts(
    alloc: Global,
    plan: &Plan,
    layout: &Layout,
    parts: Vec<TaskStart>,
    number: u64,
) -> Result<Savepoint, AllocError>
    requires laid_out { IsLayoutOf plan.now layout.now }
    requires parts { AreParts plan.now layout.now.stages parts.items }
    requires number { 1 ≤ number }
    ensures { IfOk result (λ savepoint. (states : ℕ → State) → parts.items ≡ left.all_left plan.now layout.now.stages states → savepoint ≡ left.savepoint_left plan.now layout.now.stages states number) }
{
    gather(alloc, plan, layout, parts.as_slice(), number)
}

/// The savepoint of this number that the tasks of a layout leave, or that of a barrier which they have passed: how far
/// the sources have read their partitions, and what stands in the windows, or had when the task passed the barrier.
///
/// The tasks are those of the layout, and what stands in the windows of each then is of its own key groups, with at
/// most 2^40 records in each pane.
///
/// # Errors
///
/// Where memory runs out, and of what stands now in tasks that have failed for want of it.
pub fn save(
    alloc: Global,
    plan: &Plan,
    layout: &Layout,
    tasks: &[Task],
    at: Moment,
    number: u64,
) -> Result<Savepoint, AllocError>
    requires laid_out { IsLayoutOf plan.now layout.now }
    requires tasks { left.CanSave plan.now layout.now.stages at tasks.now }
    requires number { 1 ≤ number }
    ensures { IfOk result (λ savepoint. (states : ℕ → State) → left.HaveStates layout.now.stages tasks.now states → savepoint ≡ left.savepoint_left plan.now layout.now.stages (λ t. left.state_at at (states t)) number) }
{
    let parts = parts_left(alloc, plan, layout, tasks, at)?;
    save_parts(alloc, plan, layout, parts, number)
}
