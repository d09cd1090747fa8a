//! From a plan and a scale to a layout.

ghost use Rattle.std.specs.Prelude.{◌≡◌, map, IfOk};
ghost use Rattle.layout_rules.specs.Rules.{stages_of};
ghost use Rattle.layout_rules.specs.Scale.{IsScale};
ghost use Rattle.plan_compiler.specs.LayoutData.{layout_of};

use crate::layout::Layout;
use crate::places::places_of;
use crate::stages::stages_of;
use crate::tasks::Tasks;
use key_groups::MaxParallelism;
use layout_rules::Scale;
use plain_data::Items;
use plan_model::{Plan, SourceSpec};
use std::alloc::{AllocError, Global};

fn partition_counts(alloc: Global, sources: &[SourceSpec]) -> Result<Vec<u32>, AllocError>
    ensures { IfOk result (λ v. v.items ≡ map (λ s. s.partitions) sources.now) }
{
    sources
        .iter()
        .map(|source| source.partitions)
        .collect(alloc)
}

/// The number of a plan's key groups.
fn key_groups(plan: &Plan) -> MaxParallelism
    ensures { result ≡ plan.now.max }
{
    MaxParallelism::new(plan.max()).unwrap()
}

/// The tasks of a plan at a scale.
fn tasks_of(alloc: Global, plan: &Plan, scale: &Scale) -> Result<Tasks, AllocError>
    requires { IsScale plan.now scale.now }
    ensures stages { IfOk result (λ tasks. tasks.stages ≡ stages_of plan.now scale.now) }
    ensures max { IfOk result (λ tasks. tasks.max ≡ plan.now.max) }
{
    let stages = stages_of(alloc, plan, scale)?;
    let places = places_of(alloc, &stages)?;
    Ok(Tasks {
        stages: Items::from_vec(stages),
        places: Items::from_vec(places),
        sources: plan.sources().len() as u32,
        max: key_groups(plan),
    })
}

/// The layout of a plan at a scale that was read by the plan, as the rules of
/// [`layout_rules`] say: each source opens a stage, a filter is chained to the operator before it where its
/// scale allows it and the parallelism is the same, and the window and the sink open stages.
///
/// # Errors
///
/// Only where memory runs out.
pub fn compile(alloc: Global, plan: &Plan, scale: &Scale) -> Result<Layout, AllocError>
    requires { IsScale plan.now scale.now }
    ensures { IfOk result (λ layout. layout ≡ layout_of plan.now scale.now) }
{
    let counts = partition_counts(alloc, plan.sources())?;
    let tasks = tasks_of(alloc, plan, scale)?;
    let links = tasks.links(alloc, &counts)?;
    Ok(Layout::new(tasks, links, Items::from_vec(counts), scale.ring()))
}
