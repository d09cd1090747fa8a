//! From a text that meets every requirement of its numbers to a scale.

ghost use Rattle.std.specs.Prelude.{◌≡◌, true, map, pos, unsigned_abs, IfOk};
ghost use Rattle.std.specs.List.{list_all};
ghost use Rattle.json_parts.specs.Tests.{is_within};
ghost use Rattle.key_groups.specs.declared.limits.TheConstants.{MOST_SUBTASKS};
ghost use Rattle.plan_scale.specs.Said as said;
ghost use Rattle.plan_scale.specs.Requirements as required;

use crate::text::{OperatorText, ScaleText};
use json_parts::{Member, member_named};
use layout_rules::{FilterScale, Scale};
use plain_data::Items;
use plan_model::{FilterSpec, Plan, SourceSpec};
use std::alloc::{AllocError, Global};

/// What stands under a uid, and one subtask where nothing does.
fn operator_named(operators: &[Member<OperatorText>], uid: &str) -> OperatorText
    ensures { result ≡ said.operator_under uid.now operators.now }
{
    match member_named(operators, uid) {
        Some((_, operator)) => *operator,
        None => OperatorText {
            parallelism: 1,
            chain: true,
        },
    }
}

fn narrow(parallelism: i64) -> u32
    requires { is_within (pos 1) (pos MOST_SUBTASKS) parallelism ≡ true }
    ensures { result ≡ unsigned_abs parallelism }
{
    parallelism as u32
}

#[tactic(auto, using(crate::proofs::Named::within_under))]
fn parallelism_of(operators: &[Member<OperatorText>], uid: &str) -> u32
    requires { list_all (λ m. is_within (pos 1) (pos MOST_SUBTASKS) m.1.parallelism) operators.now ≡ true }
    ensures { result ≡ said.parallelism_under uid.now operators.now }
{
    narrow(operator_named(operators, uid).parallelism)
}

fn filter_of(operators: &[Member<OperatorText>], uid: &str) -> FilterScale
    requires { list_all (λ m. is_within (pos 1) (pos MOST_SUBTASKS) m.1.parallelism) operators.now ≡ true }
    ensures { result ≡ said.filter_under uid.now operators.now }
{
    FilterScale {
        parallelism: parallelism_of(operators, uid),
        chain: operator_named(operators, uid).chain,
    }
}

fn sources_of(
    alloc: Global,
    specs: &[SourceSpec],
    operators: &[Member<OperatorText>],
) -> Result<Vec<u32>, AllocError>
    requires { list_all (λ m. is_within (pos 1) (pos MOST_SUBTASKS) m.1.parallelism) operators.now ≡ true }
    ensures { IfOk result (λ v. v.items ≡ map (λ s. said.parallelism_under s.uid operators.now) specs.now) }
{
    specs
        .iter()
        .map(|spec| parallelism_of(operators, spec.uid.as_str()))
        .collect(alloc)
}

fn filters_of(
    alloc: Global,
    specs: &[FilterSpec],
    operators: &[Member<OperatorText>],
) -> Result<Vec<FilterScale>, AllocError>
    requires { list_all (λ m. is_within (pos 1) (pos MOST_SUBTASKS) m.1.parallelism) operators.now ≡ true }
    ensures { IfOk result (λ v. v.items ≡ map (λ f. said.filter_under f.uid operators.now) specs.now) }
{
    specs
        .iter()
        .map(|spec| filter_of(operators, spec.uid.as_str()))
        .collect(alloc)
}

/// The scale that a text is.
#[tactic(auto, using(crate::proofs::Named::within_64), unfolding(crate::specs::Requirements::has_capacity))]
pub fn scale_of(alloc: Global, plan: &Plan, text: &ScaleText) -> Result<Scale, AllocError>
    requires parallelism { required.has_parallelism plan.now text.now ≡ true }
    requires capacity { required.has_capacity plan.now text.now ≡ true }
    ensures { IfOk result (λ scale. scale ≡ said.scale_of plan.now text.now) }
{
    let operators = text.operators.as_slice();
    let sources = sources_of(alloc, plan.sources(), operators)?;
    let filters = filters_of(alloc, plan.filters(), operators)?;
    Ok(Scale::new(
        text.ring as u32,
        Items::from_vec(sources),
        Items::from_vec(filters),
        parallelism_of(operators, plan.window().uid.as_str()),
    ))
}
