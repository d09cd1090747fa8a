//! What a task of a leg is told.

ghost use Rattle.std.specs.Prelude.{◌≡◌, ◌<◌, length, IfOk, if◌then◌else◌};
ghost use Rattle.dataflow_model.specs.Role.{is_source};
ghost use Rattle.layout_rules.specs.Scale.{IsParallelism};
ghost use Rattle.layout_rules.specs.Stages as rule;
ghost use Rattle.layout_rules.specs.declared.stage.Edge.TheVariants.{ByGroup};
ghost use Rattle.task_setups.specs.Legs.{IsLayoutOf, leg_over};
ghost use Rattle.task_setups.specs.Setups as told;

use crate::filters::filters_of;
use crate::leg::{Leg, ending_of, ends_of, limits_on_way};
use dataflow_model::Role;
use key_groups::{MaxParallelism, Parallelism};
use layout_rules::{Edge, Operator, Stage};
use plain_data::Items;
use plan_compiler::Layout;
use plan_model::Plan;
use std::alloc::{AllocError, Global};
use stream_model::Input;
use task_steps::{Setup, Split};

/// The source that the tasks of a stage read; 0 where they read none.
fn source_of(stage: &Stage) -> u32
    ensures { result ≡ rule.source_of stage.now.operators }
{
    match stage.operators.as_slice().first() {
        Some(Operator::Source(source)) => *source,
        _ => 0,
    }
}

/// By what the tasks of a stage deal out records, where its edge leads to so many subtasks.
fn split_of(plan: &Plan, edge: Option<Edge>, subtasks: u32) -> Option<Split>
    requires { edge ≡ Some ByGroup → IsParallelism plan.now.max subtasks }
    ensures { result ≡ told.split_of plan.now edge subtasks }
{
    match edge {
        Some(Edge::ByGroup) => {
            let max = MaxParallelism::new(plan.max()).unwrap();
            let par = Parallelism::new(subtasks, max).unwrap();
            Some(Split { max, par })
        }
        None | Some(Edge::Forward) | Some(Edge::Rebalance) => None,
    }
}

/// How many subtasks the edge out of a task's stage leads to; none, where there is no edge.
fn subtasks_after(layout: &Layout, task: u32) -> u32
    requires { task < rule.task_count layout.now.stages }
    ensures { let stages = layout.now.stages in result ≡ rule.parallelism_at stages (rule.next_stage stages (rule.stage_of stages task)) }
{
    let next = layout.next_stage(layout.place(task).stage);
    match layout.stages().get(next as usize) {
        Some(stage) => stage.parallelism,
        None => 0,
    }
}

/// How many rings lead to a task, or of a source how many partitions it reads.
#[tactic(auto, using(crate::proofs::Counted::few_inputs, crate::proofs::Counted::few_partitions))]
fn input_count(plan: &Plan, layout: &Layout, task: u32) -> u32
    requires laid_out { IsLayoutOf plan.now layout.now }
    requires task { task < rule.task_count layout.now.stages }
    ensures { let stages = layout.now.stages in result ≡ (if is_source (rule.task_role stages task) then length (rule.partitions_of layout.now.partitions stages task) else length (rule.inputs_of stages task)) }
{
    let _columns = plan.columns();
    let _tasks = layout.task_count();
    match layout.role(task) {
        Role::Source => layout.partitions_of(task).len() as u32,
        Role::Chain | Role::Window | Role::Sink => layout.inputs_of(task).len() as u32,
    }
}

/// How many rings lead out of a task.
#[tactic(auto, using(crate::proofs::Counted::few_outputs))]
fn output_count(layout: &Layout, task: u32) -> u32
    requires { task < rule.task_count layout.now.stages }
    ensures { result ≡ length (rule.outputs_of layout.now.stages task) }
{
    let _tasks = layout.task_count();
    layout.outputs_of(task).len() as u32
}

/// What a task of a leg is told: its place in the layout, and its part of the leg over the input.
///
/// The layout is one of the plan, and the savepoint that follows has a number.
///
/// # Errors
///
/// Only where memory runs out.
pub fn setup_of(
    alloc: Global,
    plan: &Plan,
    input: &Input,
    layout: &Layout,
    leg: &Leg<'_>,
    task: u32,
) -> Result<Setup, AllocError>
    requires laid_out { IsLayoutOf plan.now layout.now }
    requires task { task < rule.task_count layout.now.stages }
    requires number { leg.now.number < u64.MAX }
    ensures { IfOk result (λ setup. setup ≡ told.setup_of plan.now (leg_over leg.now input.now) layout.now.stages task) }
{
    let stage = layout.stage(task);
    let source = source_of(stage);
    let partitions = layout.partitions_of(task);
    let window = plan.window();
    Ok(Setup {
        number: task,
        role: stage.role(),
        inputs: input_count(plan, layout, task),
        outputs: output_count(layout, task),
        split: split_of(plan, stage.edge, subtasks_after(layout, task)),
        filters: filters_of(alloc, plan, stage.operators.as_slice())?,
        having: window.having.copy(alloc)?,
        columns: plan.columns(),
        time: window.time,
        key: window.key,
        source,
        partitions: Items::from_vec(Vec::from_slice(alloc, partitions)?),
        limits: limits_on_way(alloc, leg, input, source, partitions)?,
        ends: ends_of(alloc, leg, input, source, partitions)?,
        first: leg.number + 1,
        saves: leg.saves.len() as u64,
        ending: ending_of(&leg.until),
    })
}
