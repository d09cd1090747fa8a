//! What a scale must meet, one function for each requirement.

ghost use Rattle.std.specs.Prelude.{◌≡◌, ◌≤◌, ◌&&◌, pos, min, bytes_eq};
ghost use Rattle.std.specs.List.{list_all, list_any};
ghost use Rattle.plan_model.specs.PlanData.{uids, IsPlan};
ghost use Rattle.json_parts.specs.Tests.{is_within};
ghost use Rattle.layout_rules.specs.declared.limits.TheConstants.{MOST_CAPACITY};
ghost use Rattle.plan_scale.specs.Requirements as required;

use crate::text::{OperatorText, ScaleText};
use json_parts::{Member, has_member};
use key_groups::MOST_SUBTASKS;
use layout_rules::MOST_CAPACITY;
use plan_model::{FilterSpec, Plan, SourceSpec};

/// Whether each member has the uid of an operator of the plan.
#[tactic(auto, unfolding(crate::specs::Requirements::has_known_uids))]
pub fn has_known_uids(plan: &Plan, text: &ScaleText) -> bool
    ensures { result ≡ required.has_known_uids plan.now text.now }
{
    are_known(plan, text.operators.as_slice())
}

fn are_known(plan: &Plan, operators: &[Member<OperatorText>]) -> bool
    ensures { result ≡ list_all (λ m. list_any (bytes_eq m.0) (uids plan.now)) operators.now }
{
    operators
        .iter()
        .all(|operator| is_known(plan, operator.0.as_str()))
}

#[tactic(auto, using(crate::proofs::Named::is_some_position))]
fn is_known(plan: &Plan, uid: &str) -> bool
    ensures { result ≡ list_any (bytes_eq uid.now) (uids plan.now) }
{
    plan.place_of(uid).is_some()
}

/// Whether each source and filter, and the window, has a member.
#[tactic(auto, using(crate::proofs::Named::all_uids))]
pub fn has_all_uids(plan: &Plan, text: &ScaleText) -> bool
    ensures { result ≡ required.has_all_uids plan.now text.now }
{
    let uid = plan.window().uid.as_str();
    are_given(
        plan.sources(),
        plan.filters(),
        uid,
        text.operators.as_slice(),
    )
}

fn are_given(
    sources: &[SourceSpec],
    filters: &[FilterSpec],
    window: &str,
    operators: &[Member<OperatorText>],
) -> bool
    ensures { result ≡ ((list_all (λ s. list_any (λ m. bytes_eq m.0 s.uid) operators.now) sources.now
        && list_all (λ f. list_any (λ m. bytes_eq m.0 f.uid) operators.now) filters.now)
        && list_any (λ m. bytes_eq m.0 window.now) operators.now) }
{
    are_sources_given(sources, operators)
        && are_filters_given(filters, operators)
        && has_member(operators, window)
}

fn are_sources_given(sources: &[SourceSpec], operators: &[Member<OperatorText>]) -> bool
    ensures { result ≡ list_all (λ s. list_any (λ m. bytes_eq m.0 s.uid) operators.now) sources.now }
{
    sources
        .iter()
        .all(|source| has_member(operators, source.uid.as_str()))
}

fn are_filters_given(filters: &[FilterSpec], operators: &[Member<OperatorText>]) -> bool
    ensures { result ≡ list_all (λ f. list_any (λ m. bytes_eq m.0 f.uid) operators.now) filters.now }
{
    filters
        .iter()
        .all(|filter| has_member(operators, filter.uid.as_str()))
}

/// Whether each parallelism is 1 to 64, and no more than there are key groups.
#[tactic(auto, unfolding(crate::specs::Requirements::has_parallelism))]
pub fn has_parallelism(plan: &Plan, text: &ScaleText) -> bool
    ensures says { result ≡ required.has_parallelism plan.now text.now }
    ensures sound { IsPlan plan.now }
{
    are_counts(plan.max().min(MOST_SUBTASKS), text.operators.as_slice())
}

fn are_counts(most: u32, operators: &[Member<OperatorText>]) -> bool
    ensures { result ≡ list_all (λ m. is_within (pos 1) (pos most) m.1.parallelism) operators.now }
{
    let most = i64::from(most);
    operators.iter().all(|operator| 1 <= operator.1.parallelism && operator.1.parallelism <= most)
}

/// Whether a ring holds 1 to 1,024 messages.
pub fn has_capacity(text: &ScaleText) -> bool
    ensures { result ≡ is_within (pos 1) (pos MOST_CAPACITY) text.now.ring }
{
    1 <= text.ring && text.ring <= i64::from(MOST_CAPACITY)
}
