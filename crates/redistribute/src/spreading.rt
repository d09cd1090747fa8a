//! A start dealt out to the tasks of a layout.

ghost use Rattle.std.specs.Prelude.{◌≡◌, ◌<◌, map, IfOk};
ghost use Rattle.layout_rules.specs.Layouts.{partition_counts};
ghost use Rattle.layout_rules.specs.Stages as rule;
ghost use Rattle.plan_compiler.specs.LayoutData.{IsLayoutOf};
ghost use Rattle.plan_compiler.specs.Tables.{each_task};
ghost use Rattle.redistribute.specs.Parts as said;

use crate::start::Start;
use crate::task_start::{PartitionStart, TaskStart};
use key_groups::GroupRange;
use packed_parts::{PackedParts, Packing};
use plain_data::Items;
use plan_compiler::{Layout, Role};
use plan_model::Plan;
use std::alloc::{AllocError, Global};

/// Where a task begins to read a partition: at its first entry, where the start has no such partition.
fn partition_start(start: &Start, source: u32, partition: u32) -> PartitionStart
    ensures { result ≡ said.partition_start start.now source partition }
{
    let saved = match start.sources().get(source as usize) {
        Some(partitions) => partitions.as_slice().get(partition as usize).copied(),
        None => None,
    };
    match saved {
        Some(saved) => PartitionStart {
            partition,
            offset: saved.offset,
            watermark: saved.watermark,
        },
        None => PartitionStart {
            partition,
            offset: 0,
            watermark: i64::MIN,
        },
    }
}

/// Where a task begins to read each of some partitions of a source.
fn partition_starts(
    alloc: Global,
    start: &Start,
    source: u32,
    partitions: &[u32],
) -> Result<Items<PartitionStart>, AllocError>
    ensures { IfOk result (λ starts. starts ≡ map (said.partition_start start.now source) partitions.now) }
{
    let mut starts = Vec::new(alloc);
    for partition in partitions {
        starts.push(partition_start(start, source, *partition))?;
    }
    Ok(Items::from_vec(starts))
}

/// Whether a key group is one of a range.
fn is_within(group: u16, range: GroupRange) -> bool
    ensures { result ≡ said.is_group_of range group }
{
    let number = u32::from(group);
    range.first <= number && number <= range.last
}

/// How many entries the key groups of a range have.
fn count_within(start: &Start, range: GroupRange) -> usize {
    let mut count: usize = 0;
    for group in start.groups() {
        if is_within(group.group, range) {
            count = count.saturating_add(group.entries.len());
        }
    }
    count
}

/// What stands in the windows of the key groups of a range. Room is made for all of it first.
fn parts_within(alloc: Global, start: &Start, range: GroupRange) -> Result<PackedParts, AllocError>
    ensures { IfOk result (λ found. found ≡ said.parts_within range start.now) }
{
    let kinds = start.kinds();
    let mut found = Packing::new(alloc, Vec::from_slice(alloc, kinds)?);
    found.reserve(count_within(start, range))?;
    for group in start.groups() {
        if is_within(group.group, range) {
            found.append(&group.entries)?;
        }
    }
    Ok(PackedParts::from_packing(found))
}

/// The part of a start that a task begins with.
fn task_start(
    alloc: Global,
    start: &Start,
    layout: &Layout,
    task: u32,
) -> Result<TaskStart, AllocError>
    requires { task < rule.task_count layout.now.stages }
    ensures { IfOk result (λ part. part ≡ said.whole_task_start layout.now.max layout.now.partitions start.now layout.now.stages task) }
{
    let stage = layout.stage(task);
    match stage.role() {
        Role::Source => {
            let source = stage.source().unwrap_or(0);
            let partitions = layout.partitions_of(task);
            let starts = partition_starts(alloc, start, source, partitions)?;
            Ok(TaskStart::Source(starts))
        }
        Role::Chain => Ok(TaskStart::Chain),
        Role::Window => {
            let groups = layout.groups_of(task);
            Ok(TaskStart::Window(parts_within(alloc, start, groups)?))
        }
        Role::Sink => Ok(TaskStart::Sink),
    }
}

/// The part of a start that each task of a layout begins with, in task order: each partition of each source stands in
/// the part of the task that reads it, as the start has it, and what stands in the windows of a key group in the part
/// of the window's task that owns the group. Nothing stands in any other.
///
/// # Errors
///
/// Only where memory runs out.
pub fn spread(
    alloc: Global,
    plan: &Plan,
    start: &Start,
    layout: &Layout,
) -> Result<Vec<TaskStart>, AllocError>
    requires { IsLayoutOf plan.now layout.now }
    ensures { IfOk result (λ starts. starts.items ≡ each_task layout.now.stages (said.whole_task_start plan.now.max (partition_counts plan.now) start.now layout.now.stages)) }
{
    let mut starts = Vec::new(alloc);
    for task in 0..layout.task_count() {
        starts.push(task_start(alloc, start, layout, task)?)?;
    }
    Ok(starts)
}
