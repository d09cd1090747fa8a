//! From a text to its legs.

ghost use Rattle.std.specs.Prelude.{◌≡◌, map, IfOk};
ghost use Rattle.std.specs.List.{All};
ghost use Rattle.serde_json.specs.View.{view};
ghost use Rattle.layout_rules.specs.Scale.{IsScale};
ghost use Rattle.leg_lists.specs.LegsText.{leg_said};
ghost use Rattle.leg_lists.specs.Said as said;
ghost use Rattle.leg_lists.specs.Answer.{Gives, is_memory};

use crate::text::LegText;
use layout_rules::{Scale, ScaleFault};
use legs::{LegFault, LegSpec};
use plan_model::Plan;
use plan_scale::ReadScale;
use serde_json::Value;
use std::alloc::Global;

/// The scale of the leg at a place.
fn scale_at(alloc: Global, plan: &Plan, place: usize, value: &Value) -> Result<Scale, LegFault>
    ensures reads { Gives is_memory (λ scale. scale) result (said.scale_at plan.now place (view value.now)) }
    ensures belongs { IfOk result (λ scale. IsScale plan.now scale) }
{
    match Scale::from_value(alloc, plan, value) {
        Ok(scale) => Ok(scale),
        Err(ScaleFault::Memory) => Err(LegFault::Memory),
        Err(fault) => Err(LegFault::Scale(place, fault)),
    }
}

/// The legs of a text, each with its scale.
pub fn legs_of(
    alloc: Global,
    plan: &Plan,
    texts: Vec<LegText<'_>>,
) -> Result<Vec<LegSpec>, LegFault>
    ensures reads { Gives is_memory (λ legs. legs.items) result (said.legs_from plan.now 0 (map leg_said texts.entry.items)) }
    ensures belong { IfOk result (λ legs. All (λ leg. IsScale plan.now leg.scale) legs.items) }
{
    let mut legs = Vec::new(alloc);
    for text in texts {
        let LegText { scale, saves, stop } = text;
        let scale = scale_at(alloc, plan, legs.len(), scale)?;
        legs.push(LegSpec { scale, saves, stop })?;
    }
    Ok(legs)
}
