//! Reading a plan.

ghost use Rattle.std.specs.Prelude.{◌≡◌, true, false, None, take, drop, MatchResult};
ghost use Rattle.serde_json.specs.View.{view};
ghost use Rattle.answers.specs.Answer.{first_unmet, unless};
ghost use Rattle.plan_model.specs.Uids.{are_distinct};
ghost use Rattle.plan_model.specs.Places.{texts};
ghost use Rattle.logical_plan.specs.Requirements.{requirements, text_uids};
ghost use Rattle.logical_plan.specs.declared.fault.PlanFault.TheVariants.{UidTwice};
ghost use Rattle.logical_plan.specs.Answer.{Fails, Gives, is_memory, plan_or_fault, plan_of_json, plan_of_bytes};

use crate::building::plan_of;
use crate::fault::PlanFault;
use crate::places::{places_of, uids_of};
use crate::requirements;
use crate::text::{PlanText, text_of_plan};
use indexmap::IndexSet;
use json_parts::{PartError, value_of};
use plan_model::Plan;
use serde_json::Value;
use std::alloc::Global;

/// The first fault that is decided before any two uids are compared, if there is one.
#[tactic(auto, unfolding(crate::specs::Requirements::requirements))]
fn fault_before_uids(text: &PlanText) -> Option<PlanFault>
    ensures { result ≡ first_unmet (take 6 requirements) text.now }
{
    if !requirements::has_columns(text) {
        return Some(PlanFault::Columns);
    }
    if !requirements::has_column_indices(text) {
        return Some(PlanFault::ColumnIndex);
    }
    if !requirements::has_max(text) {
        return Some(PlanFault::MaxParallelism);
    }
    if !requirements::has_sources(text) {
        return Some(PlanFault::Sources);
    }
    if !requirements::has_partitions(text) {
        return Some(PlanFault::Partitions);
    }
    if !requirements::has_uids(text) {
        return Some(PlanFault::Uid);
    }
    None
}

/// The places of a text's uids, which differ, or a fault.
fn distinct_places(alloc: Global, text: &PlanText) -> Result<IndexSet<String>, PlanFault>
    ensures { MatchResult result (λ places. (texts places ≡ text_uids text.now) × (are_distinct (text_uids text.now) ≡ true))
        (λ fault. unless (is_memory fault) ((fault ≡ UidTwice) × (are_distinct (text_uids text.now) ≡ false))) }
{
    let uids = uids_of(alloc, text)?;
    match places_of(alloc, &uids)? {
        Some(places) => Ok(places),
        None => Err(PlanFault::UidTwice),
    }
}

/// The first fault that is decided once the uids are known to differ, if there is one.
#[tactic(auto, unfolding(crate::specs::Requirements::requirements))]
fn fault_after_uids(text: &PlanText) -> Option<PlanFault>
    ensures { result ≡ first_unmet (drop 7 requirements) text.now }
{
    if !requirements::has_filters(text) {
        return Some(PlanFault::Filters);
    }
    if !requirements::has_size(text) {
        return Some(PlanFault::WindowSize);
    }
    if !requirements::has_slide(text) {
        return Some(PlanFault::WindowSlide);
    }
    if !requirements::has_offset(text) {
        return Some(PlanFault::WindowOffset);
    }
    if !requirements::has_panes(text) {
        return Some(PlanFault::Panes);
    }
    if !requirements::has_aggregates(text) {
        return Some(PlanFault::Aggregates);
    }
    if !requirements::has_bounds(text) {
        return Some(PlanFault::Bound);
    }
    None
}

/// The places of the uids in a text that meets all requirements, or the first fault.
#[tactic(auto, unfolding(crate::specs::Requirements::requirements, crate::specs::Requirements::has_distinct_uids))]
fn checked(alloc: Global, text: &PlanText) -> Result<IndexSet<String>, PlanFault>
    ensures { MatchResult result (λ places. (texts places ≡ text_uids text.now) × (first_unmet requirements text.now ≡ None))
        (λ fault. Fails is_memory fault (plan_or_fault text.now)) }
{
    if let Some(fault) = fault_before_uids(text) {
        return Err(fault);
    }
    let places = distinct_places(alloc, text)?;
    if let Some(fault) = fault_after_uids(text) {
        return Err(fault);
    }
    Ok(places)
}

fn plan_from(alloc: Global, text: PlanText) -> Result<Plan, PlanFault>
    ensures { Gives is_memory (λ plan. plan) result (plan_or_fault text) }
{
    let places = checked(alloc, &text)?;
    Ok(plan_of(alloc, text, places)?)
}

#[tactic(auto, unfolding(crate::specs::Answer::plan_of_json))]
fn plan_of_value(alloc: Global, value: &Value) -> Result<Plan, PlanFault>
    ensures { Gives is_memory (λ plan. plan) result (plan_of_json (view value.now)) }
{
    let text = text_of_plan(alloc, value)?;
    plan_from(alloc, text)
}

/// What is read from the text of a plan.
pub trait ReadPlan: Sized {
    /// The plan that the bytes are.
    ///
    /// # Errors
    ///
    /// The first fault of the text, in the order of [`PlanFault`]'s variants, each looked for in the
    /// whole text before the next. [`PlanFault::Memory`] where memory runs out, in place of any other.
    fn read(alloc: Global, bytes: &[u8]) -> Result<Self, PlanFault>;
}

impl ReadPlan for Plan {
    #[tactic(auto, unfolding(crate::specs::Answer::plan_of_bytes))]
    fn read(alloc: Global, bytes: &[u8]) -> Result<Plan, PlanFault>
        ensures { Gives is_memory (λ plan. plan) result (plan_of_bytes bytes.now) }
    {
        match value_of(alloc, bytes) {
            Ok(value) => plan_of_value(alloc, &value),
            Err(PartError::Form) => Err(PlanFault::NotJson),
            Err(PartError::Memory) => Err(PlanFault::Memory),
        }
    }
}
