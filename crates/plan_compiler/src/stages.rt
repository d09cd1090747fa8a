//! The stages of a plan at a scale.

ghost use Rattle.std.specs.Prelude.{◌≡◌, ℕ, ◌<◌, ◌≤◌, ◌++◌, List, [], ◌∷◌, map, length, IfOk};
ghost use Rattle.std.specs.List.{range_with_len};
ghost use Rattle.layout_rules.specs.declared.limits.TheConstants.{MOST_TASKS};
ghost use Rattle.layout_rules.specs.declared.stage.Operator.{Operator};
ghost use Rattle.layout_rules.specs.Rules as rule;
ghost use Rattle.layout_rules.specs.Scale.{IsScale, AreStages};
ghost use Rattle.layout_rules.specs.Stages.{source_stages};
ghost use Rattle.plan_compiler.specs.Compiling.{continues};

use crate::tasks::stage_after;
use layout_rules::{FilterScale, Operator, Scale, Stage};
use plain_data::Items;
use plan_model::Plan;
use std::alloc::{AllocError, Global};

fn sources_of(alloc: Global, plan: &Plan) -> Result<Vec<Operator>, AllocError>
    ensures { IfOk result (λ v. v.items ≡ map Operator.Source (range_with_len 0 (length plan.now.sources))) }
{
    let mut operators = Vec::new(alloc);
    for source in 0..plan.sources().len() as u32 {
        operators.push(Operator::Source(source))?;
    }
    Ok(operators)
}

/// The plan's operators: sources, filters, window, sink.
fn in_order(alloc: Global, plan: &Plan) -> Result<Vec<Operator>, AllocError>
    ensures { IfOk result (λ v. v.items ≡ rule.in_order plan.now) }
{
    let mut operators = sources_of(alloc, plan)?;
    for filter in 0..plan.filters().len() as u32 {
        operators.push(Operator::Filter(filter))?;
    }
    operators.push(Operator::Window)?;
    operators.push(Operator::Sink)?;
    Ok(operators)
}

/// What the scale says of a filter. One that the plan lacks would be one task.
fn filter_scale(scale: &Scale, filter: u32) -> FilterScale
    ensures { result ≡ rule.filter_scale scale.now filter }
{
    let single = FilterScale {
        parallelism: 1,
        chain: false,
    };
    scale
        .filters()
        .get(filter as usize)
        .copied()
        .unwrap_or(single)
}

fn parallelism_of(scale: &Scale, operator: Operator) -> u32
    ensures { result ≡ rule.parallelism_of scale.now operator }
{
    match operator {
        Operator::Source(source) => scale.sources().get(source as usize).copied().unwrap_or(1),
        Operator::Filter(filter) => filter_scale(scale, filter).parallelism,
        Operator::Window => scale.window(),
        Operator::Sink => 1,
    }
}

/// Whether a filter may be chained to this operator: it is no source of a plan with several.
fn may_chain_to(plan: &Plan, operator: Operator) -> bool
    ensures { result ≡ rule.may_chain_to plan.now operator }
{
    match operator {
        Operator::Source(_) => plan.sources().len() == 1,
        _ => true,
    }
}

/// Whether an operator is chained to the one before it, in one stage.
fn is_chained(plan: &Plan, scale: &Scale, before: Operator, operator: Operator) -> bool
    ensures { result ≡ rule.is_chained plan.now scale.now before operator }
{
    match operator {
        Operator::Filter(filter) => {
            let wanted = filter_scale(scale, filter);
            wanted.chain
                && parallelism_of(scale, before) == wanted.parallelism
                && may_chain_to(plan, before)
        }
        _ => false,
    }
}

/// Whether the stage of an operator goes on with those after it.
fn continues(plan: &Plan, scale: &Scale, operator: Operator, after: &[Operator]) -> bool
    ensures { result ≡ continues plan.now scale.now operator after.now }
{
    match after.first() {
        Some(next) => is_chained(plan, scale, operator, *next),
        None => false,
    }
}

/// The operators of each stage.
fn stage_operators(
    alloc: Global,
    plan: &Plan,
    scale: &Scale,
    operators: &[Operator],
) -> Result<Vec<Items<Operator>>, AllocError>
    ensures { IfOk result (λ v. v.items ≡ rule.stage_operators plan.now scale.now operators.now) }
{
    let mut stages = Vec::new(alloc);
    let mut stage = Vec::new(alloc);
    let mut rest = operators;
    while let [operator, after @ ..] = rest {
        stage.push(*operator)?;
        if !continues(plan, scale, *operator, after) {
            stages.push(Items::from_vec(stage))?;
            stage = Vec::new(alloc);
        }
        rest = after;
    }
    Ok(stages)
}

/// The parallelism of a stage: that of its first operator.
fn stage_parallelism(scale: &Scale, operators: &[Operator]) -> u32
    ensures { result ≡ rule.stage_parallelism scale.now operators.now }
{
    match operators.first() {
        Some(operator) => parallelism_of(scale, *operator),
        None => 1,
    }
}

fn bare_stage(scale: &Scale, operators: Items<Operator>) -> Stage
    ensures { result ≡ rule.bare_stage scale.now operators }
{
    Stage {
        parallelism: stage_parallelism(scale, operators.as_slice()),
        operators,
        edge: None,
    }
}

/// The stages of a plan without their edges.
fn bare_stages(alloc: Global, plan: &Plan, scale: &Scale) -> Result<Vec<Stage>, AllocError>
    ensures { IfOk result (λ v. v.items ≡ map (rule.bare_stage scale.now) (rule.stage_operators plan.now scale.now (rule.in_order plan.now))) }
{
    let operators = in_order(alloc, plan)?;
    stage_operators(alloc, plan, scale, &operators)?
        .into_iter()
        .map(|operators| bare_stage(scale, operators))
        .collect(alloc)
}

/// Stage a with the edge that leads out of it, where the first stages are those of so many sources.
fn with_edge(alloc: Global, stages: &[Stage], sources: u32, a: u32) -> Result<Stage, AllocError>
    requires within { a < length stages.now }
    requires few { length stages.now ≤ MOST_TASKS }
    requires leading { sources ≡ source_stages stages.now }
    requires more { sources < length stages.now }
    ensures { IfOk result (λ stage. stage ≡ rule.with_edge stages.now a) }
{
    let stage = &stages[a as usize];
    let edge = if a as usize + 1 < stages.len() {
        Some(stage.edge_into(&stages[stage_after(sources, a) as usize]))
    } else {
        None
    };
    Ok(Stage {
        parallelism: stage.parallelism,
        operators: stage.operators.copy(alloc)?,
        edge,
    })
}

/// The stages with their edges, where the first are those of so many sources.
#[tactic(auto, using(crate::proofs::Ranges::map_more))]
fn with_edges(alloc: Global, stages: &[Stage], sources: u32) -> Result<Vec<Stage>, AllocError>
    requires few { length stages.now ≤ MOST_TASKS }
    requires leading { sources ≡ source_stages stages.now }
    requires more { sources < length stages.now }
    ensures { IfOk result (λ v. v.items ≡ rule.with_edges stages.now) }
{
    let mut all = Vec::new(alloc);
    for a in 0..stages.len() as u32 {
        all.push(with_edge(alloc, stages, sources, a)?)?;
    }
    Ok(all)
}

/// The stages of a plan at a scale.
#[tactic(auto, using(layout_rules::proofs::Facts::bare_stages_are_bounded, layout_rules::proofs::Facts::stages_are_bounded))]
pub fn stages_of(alloc: Global, plan: &Plan, scale: &Scale) -> Result<Vec<Stage>, AllocError>
    requires { IsScale plan.now scale.now }
    ensures says { IfOk result (λ v. v.items ≡ rule.stages_of plan.now scale.now) }
    ensures bounded { IfOk result (λ v. AreStages plan.now.max (length plan.now.sources) v.items) }
{
    let stages = bare_stages(alloc, plan, scale)?;
    with_edges(alloc, &stages, plan.sources().len() as u32)
}
