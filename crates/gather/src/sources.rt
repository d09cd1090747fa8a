//! How far the partitions of sources were read.

ghost use Rattle.std.specs.Prelude.{◌≡◌, ◌<◌, ◌==◌, true, [], length, map, option_copied, slice_index_or, IfOk};
ghost use Rattle.std.specs.List.{All, find, list_all, range_with_len};
ghost use Rattle.std.specs.Ordering.{nat_cmp};
ghost use Rattle.std.specs.Cmp.Lexicographic.{slice_cmp};
ghost use Rattle.plan_model.specs.Uids.{is_uid};
ghost use Rattle.plan_record.specs.PlanRecord.{ascending};
ghost use Rattle.layout_rules.specs.Stages.{task_count};
ghost use Rattle.redistribute.specs.Parts.{partitions_in as partitions_of_part};
ghost use Rattle.gather.specs.Parts as part;
ghost use Rattle.gather.specs.Saved as said;
ghost use Rattle.gather.specs.Sources.{AreTyped, IsTypedPartition};

use plain_data::{Items, Text};
use plan_compiler::Layout;
use plan_model::{Plan, SourceSpec, Uid};
use redistribute::{PartitionStart, TaskStart};
use savepoint_codec::{SavedPartition, SavedSource};
use std::alloc::{AllocError, Global};
use std::collections::BTreeSet;

/// The partitions that a task reads, as its part has them; none, but for a source's task.
fn partitions_in(part: &TaskStart) -> &[PartitionStart]
    ensures { result.now ≡ partitions_of_part part.now }
{
    match part {
        TaskStart::Source(starts) => starts.as_slice(),
        _ => &[],
    }
}

/// The partitions that a task reads of a source.
fn starts_at<'p>(
    layout: &Layout,
    parts: &'p [TaskStart],
    source: u32,
    task: u32,
) -> &'p [PartitionStart]
    requires task { task < task_count layout.now.stages }
    requires counted { length parts.now ≡ task_count layout.now.stages }
    ensures { result.now ≡ part.starts_at layout.now.stages parts.now source task }
{
    match layout.stage(task).source() {
        Some(read) if read == source => partitions_in(&parts[task as usize]),
        _ => &[],
    }
}

/// The partitions of a source, at whichever task.
fn starts_of(
    alloc: Global,
    layout: &Layout,
    parts: &[TaskStart],
    source: u32,
) -> Result<Vec<PartitionStart>, AllocError>
    requires { length parts.now ≡ task_count layout.now.stages }
    ensures { IfOk result (λ starts. starts.items ≡ part.starts_of layout.now.stages parts.now source) }
{
    let mut starts = Vec::new(alloc);
    for task in 0..layout.task_count() {
        starts.extend_from_slice(starts_at(layout, parts, source, task))?;
    }
    Ok(starts)
}

/// Where a partition stands, among these.
fn start_named(starts: &[PartitionStart], partition: u32) -> Option<&PartitionStart>
    ensures { option_copied result ≡ find (λ b. b.partition == partition) starts.now }
{
    starts.iter().find(|start| start.partition == partition)
}

fn saved_partition(offset: u64, watermark: i64) -> SavedPartition
    ensures says { result ≡ record { offset = offset; watermark = watermark } }
    ensures typed { IsTypedPartition result }
{
    SavedPartition { offset, watermark }
}

/// How far a partition was read, among these.
fn partition_in(starts: &[PartitionStart], partition: u32) -> SavedPartition
    ensures says { result ≡ part.partition_in starts.now partition }
    ensures typed { IsTypedPartition result }
{
    match start_named(starts, partition) {
        Some(start) => saved_partition(start.offset, start.watermark),
        None => saved_partition(0, i64::MIN),
    }
}

/// How far each of so many partitions was read, among these.
fn partitions_of(
    alloc: Global,
    starts: &[PartitionStart],
    count: u32,
) -> Result<Items<SavedPartition>, AllocError>
    ensures says { IfOk result (λ saved. saved ≡ map (part.partition_in starts.now) (range_with_len 0 count)) }
    ensures typed { IfOk result AreTyped }
{
    let mut saved = Vec::new(alloc);
    for partition in 0..count {
        saved.push(partition_in(starts, partition))?;
    }
    Ok(Items::from_vec(saved))
}

/// How far the partitions of a source were read.
fn source_in(
    alloc: Global,
    plan: &Plan,
    layout: &Layout,
    parts: &[TaskStart],
    source: usize,
) -> Result<Items<SavedPartition>, AllocError>
    requires counted { length parts.now ≡ task_count layout.now.stages }
    requires source { source < length plan.now.sources }
    ensures says { IfOk result (λ saved. saved ≡ part.source_in plan.now layout.now.stages parts.now source) }
    ensures typed { IfOk result AreTyped }
{
    let count = plan.sources()[source].partitions;
    let starts = starts_of(alloc, layout, parts, source as u32)?;
    partitions_of(alloc, &starts, count)
}

/// How far the partitions of each of a plan's sources were read, in plan order.
pub fn sources_in(
    alloc: Global,
    plan: &Plan,
    layout: &Layout,
    parts: &[TaskStart],
) -> Result<Items<Items<SavedPartition>>, AllocError>
    requires { length parts.now ≡ task_count layout.now.stages }
    ensures says { IfOk result (λ saved. saved ≡ part.sources_in plan.now layout.now.stages parts.now) }
    ensures typed { IfOk result (λ saved. All AreTyped saved) }
{
    let mut saved = Vec::new(alloc);
    for source in 0..plan.sources().len() {
        saved.push(source_in(alloc, plan, layout, parts, source)?)?;
    }
    Ok(Items::from_vec(saved))
}

/// The uids of sources, ascending.
fn source_uids(alloc: Global, sources: &[SourceSpec]) -> Result<BTreeSet<&str>, AllocError>
    ensures says { IfOk result (λ set. map (λ uid. uid.now) set.keys ≡ ascending (slice_cmp nat_cmp) (map (λ s. s.uid) sources.now)) }
    ensures named { IfOk result (λ set. list_all (λ uid. is_uid uid.now) set.keys ≡ true) }
{
    let mut uids = BTreeSet::new(alloc);
    for source in sources {
        uids.insert(source.uid.as_str())?;
    }
    Ok(uids)
}

/// The partitions of the source at a place.
fn partitions_at(sources: &[Items<SavedPartition>], place: usize) -> &[SavedPartition]
    ensures { result.now ≡ slice_index_or sources.now place [] }
{
    match sources.get(place) {
        Some(partitions) => partitions.as_slice(),
        None => &[],
    }
}

/// The partitions of the source with a uid.
fn partitions_under<'s>(
    plan: &Plan,
    sources: &'s [Items<SavedPartition>],
    uid: &str,
) -> &'s [SavedPartition]
    ensures { result.now ≡ said.partitions_under plan.now sources.now uid.now }
{
    match plan.place_of(uid) {
        Some(place) => partitions_at(sources, place),
        None => &[],
    }
}

/// The source with a uid, as it is saved.
fn saved_source(
    alloc: Global,
    plan: &Plan,
    sources: &[Items<SavedPartition>],
    uid: &str,
) -> Result<SavedSource, AllocError>
    requires { is_uid uid.now ≡ true }
    ensures { IfOk result (λ source. source ≡ said.saved_source plan.now sources.now uid.now) }
{
    let partitions = Vec::from_slice(alloc, partitions_under(plan, sources, uid))?;
    let text = Text::from_string(String::from_str(alloc, uid)?);
    Ok(SavedSource {
        uid: Uid::from_text(text),
        partitions: Items::from_vec(partitions),
    })
}

/// The sources with these uids, as they are saved.
fn saved_under(
    alloc: Global,
    plan: &Plan,
    sources: &[Items<SavedPartition>],
    uids: &BTreeSet<&str>,
) -> Result<Items<SavedSource>, AllocError>
    requires { list_all (λ uid. is_uid uid.now) uids.now.keys ≡ true }
    ensures { IfOk result (λ saved. saved ≡ map (said.saved_source plan.now sources.now) (map (λ uid. uid.now) uids.now.keys)) }
{
    let mut saved = Vec::new(alloc);
    for uid in uids {
        saved.push(saved_source(alloc, plan, sources, *uid)?)?;
    }
    Ok(Items::from_vec(saved))
}

/// The plan's sources, ascending by uid, with their partitions.
pub fn saved_sources(
    alloc: Global,
    plan: &Plan,
    sources: &[Items<SavedPartition>],
) -> Result<Items<SavedSource>, AllocError>
    ensures { IfOk result (λ saved. saved ≡ map (said.saved_source plan.now sources.now) (said.source_uids plan.now)) }
{
    let uids = source_uids(alloc, plan.sources())?;
    saved_under(alloc, plan, sources, &uids)
}
