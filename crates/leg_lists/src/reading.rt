//! Reading a list of legs.

ghost use Rattle.std.specs.Prelude.{◌≡◌, map, IfOk};
ghost use Rattle.std.specs.List.{All};
ghost use Rattle.serde_json.specs.View.{view};
ghost use Rattle.layout_rules.specs.Scale.{IsScale};
ghost use Rattle.leg_lists.specs.LegsText.{leg_said};
ghost use Rattle.leg_lists.specs.Answer.{Gives, is_memory, legs_or_fault, legs_of_json, legs_of_bytes};

use crate::building::legs_of;
use crate::fault::fault_of_part;
use crate::text::{LegText, text_of_legs};
use json_parts::{PartError, value_of};
use legs::{LegFault, LegSpec, are_legs};
use plan_model::Plan;
use serde_json::Value;
use std::alloc::Global;

fn legs_from(alloc: Global, plan: &Plan, texts: Vec<LegText<'_>>) -> Result<Vec<LegSpec>, LegFault>
    ensures reads { Gives is_memory (λ legs. legs.items) result (legs_or_fault plan.now (map leg_said texts.entry.items)) }
    ensures belong { IfOk result (λ legs. All (λ leg. IsScale plan.now leg.scale) legs.items) }
{
    let legs = legs_of(alloc, plan, texts)?;
    if !are_legs(&legs) {
        return Err(LegFault::Legs);
    }
    Ok(legs)
}

#[tactic(auto, unfolding(crate::specs::Answer::legs_of_json))]
fn legs_in(alloc: Global, plan: &Plan, value: &Value) -> Result<Vec<LegSpec>, LegFault>
    ensures reads { Gives is_memory (λ legs. legs.items) result (legs_of_json plan.now (view value.now)) }
    ensures belong { IfOk result (λ legs. All (λ leg. IsScale plan.now leg.scale) legs.items) }
{
    match text_of_legs(alloc, value) {
        Ok(texts) => legs_from(alloc, plan, texts),
        Err(part) => Err(fault_of_part(part)),
    }
}

/// The legs of a plan that the bytes are, a JSON text.
///
/// # Errors
///
/// The first of these that stands, each looked for in the whole text before the next: [`LegFault::NotJson`],
/// [`LegFault::Member`], the [`LegFault::Scale`] of the first leg whose scale is refused, and [`LegFault::Legs`].
/// [`LegFault::Memory`] where memory runs out, in place of any other.
#[tactic(auto, unfolding(crate::specs::Answer::legs_of_bytes))]
pub fn read_legs(alloc: Global, plan: &Plan, bytes: &[u8]) -> Result<Vec<LegSpec>, LegFault>
    ensures reads { Gives is_memory (λ legs. legs.items) result (legs_of_bytes plan.now bytes.now) }
    ensures belong { IfOk result (λ legs. All (λ leg. IsScale plan.now leg.scale) legs.items) }
{
    match value_of(alloc, bytes) {
        Ok(value) => legs_in(alloc, plan, &value),
        Err(PartError::Form) => Err(LegFault::NotJson),
        Err(PartError::Memory) => Err(LegFault::Memory),
    }
}
