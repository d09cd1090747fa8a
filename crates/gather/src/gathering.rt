//! A savepoint put together.

ghost use Rattle.std.specs.Prelude.{◌≡◌, ◌≤◌, map, IfOk};
ghost use Rattle.aggregates.specs.Kinds.{kind_of};
ghost use Rattle.plan_compiler.specs.LayoutData.{IsLayoutOf};
ghost use Rattle.gather.specs.Parts.{AreParts, windows_in};
ghost use Rattle.gather.specs.Parts as part;
ghost use Rattle.gather.specs.Saved.{savepoint_of};

use crate::buckets::saved_groups;
use crate::sources::{saved_sources, sources_in};
use aggregates::Kind;
use key_groups::MaxParallelism;
use key_groups::laws::owners_and_ranges;
use plain_data::Items;
use plan_compiler::Layout;
use plan_model::{Aggregate, Plan};
use plan_record::Recorded;
use plan_record::laws::ascending_is_in_order;
use redistribute::TaskStart;
use savepoint_codec::{Contents, Savepoint};
use std::alloc::{AllocError, Global};

/// The kind of each aggregate.
pub fn kinds_of(alloc: Global, aggregates: &[Aggregate]) -> Result<Items<Kind>, AllocError>
    ensures { IfOk result (λ kinds. kinds ≡ map kind_of aggregates.now) }
{
    let mut kinds = Vec::new(alloc);
    for aggregate in aggregates {
        kinds.push(Kind::of(*aggregate))?;
    }
    Ok(Items::from_vec(kinds))
}

/// The savepoint of this number that the parts of a layout's tasks make together: how far each partition was read, from
/// the part of the task that reads it, and what stands in the panes of the window's tasks, by key group.
///
/// It names no task: the parts of another layout that say the same make the same savepoint.
///
/// # Errors
///
/// Only where memory runs out.
pub fn gather(
    alloc: Global,
    plan: &Plan,
    layout: &Layout,
    parts: &[TaskStart],
    number: u64,
) -> Result<Savepoint, AllocError>
    requires layout { IsLayoutOf plan.now layout.now }
    requires parts { AreParts plan.now layout.now.stages parts.now }
    requires number { 1 ≤ number }
    ensures { IfOk result (λ s. s ≡ savepoint_of plan.now (part.sources_in plan.now layout.now.stages parts.now) (windows_in parts.now) number) }
{
    let _ranges = owners_and_ranges();
    let _uids = ascending_is_in_order();
    let window = plan.window();
    let aggregates = window.aggregates.as_slice();
    let max = MaxParallelism::new(plan.max()).unwrap();
    let sources = sources_in(alloc, plan, layout, parts)?;
    let groups = saved_groups(alloc, max, aggregates.len(), parts)?;
    let saved = saved_sources(alloc, plan, sources.as_slice())?;
    let kinds = kinds_of(alloc, aggregates)?;
    let plan_record = plan.record(alloc)?;
    let window_uid = window.uid.copy(alloc)?;
    Ok(Savepoint::from_contents(Contents {
        number,
        plan_record: Items::from_vec(plan_record),
        max: plan.max() as u16,
        sources: saved,
        window_uid,
        kinds,
        groups,
    }))
}
