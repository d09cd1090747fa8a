//! What the text of a list of legs says, before the scales are compared with a plan.

ghost use Rattle.std.specs.Prelude.{◌≡◌, map};
ghost use Rattle.serde_json.specs.View.{view};
ghost use Rattle.json_parts.specs.Parts.{Gives, each};
ghost use Rattle.leg_lists.specs.LegsText.{cut_text, saves_text, saves_or_none, stop_or_end, leg_text, legs_text, leg_said};

use json_parts::{FromValue, PartError, elements_of, has_only};
use legs::{Cut, Stop};
use plain_data::Items;
use serde_json::Value;
use std::alloc::Global;

/// A leg whose scale is not yet read.
#[derive(Debug, Drop)]
pub struct LegText<'v> {
    pub scale: &'v Value,
    pub saves: Items<Cut>,
    pub stop: Stop,
}

#[tactic(auto, unfolding(crate::specs::LegsText::cut_text))]
fn cut_of(alloc: Global, value: &Value) -> Result<Cut, PartError>
    ensures { Gives (λ cut. cut) result (cut_text (view value.now)) }
{
    let counts = Items::<Items<u64>>::from_value(alloc, value)?;
    Ok(Cut { counts })
}

fn cuts_of(alloc: Global, values: &[Value]) -> Result<Vec<Cut>, PartError>
    ensures { Gives (λ cuts. cuts.items) result (each cut_text (map view values.now)) }
{
    let mut cuts = Vec::new(alloc);
    for value in values {
        cuts.push(cut_of(alloc, value)?)?;
    }
    Ok(cuts)
}

#[tactic(auto, unfolding(crate::specs::LegsText::saves_text))]
fn saves_at(alloc: Global, value: &Value) -> Result<Items<Cut>, PartError>
    ensures { Gives (λ saves. saves) result (saves_text (view value.now)) }
{
    Ok(Items::from_vec(cuts_of(alloc, elements_of(value)?)?))
}

#[tactic(auto, unfolding(crate::specs::LegsText::saves_or_none))]
fn saves_of(alloc: Global, value: &Value) -> Result<Items<Cut>, PartError>
    ensures { Gives (λ saves. saves) result (saves_or_none (view value.now)) }
{
    match value.get("saves") {
        None => Ok(Items::from_vec(Vec::new(alloc))),
        Some(cuts) => saves_at(alloc, cuts),
    }
}

#[tactic(auto, unfolding(crate::specs::LegsText::stop_or_end))]
fn stop_of(alloc: Global, value: &Value) -> Result<Stop, PartError>
    ensures { Gives (λ stop. stop) result (stop_or_end (view value.now)) }
{
    match value.get("stop") {
        None => Ok(Stop::Never),
        Some(cut) => Ok(Stop::At(cut_of(alloc, cut)?)),
    }
}

#[tactic(auto, unfolding(crate::specs::LegsText::leg_text))]
fn text_of_leg<'v>(alloc: Global, value: &'v Value) -> Result<LegText<'v>, PartError>
    ensures { Gives leg_said result (leg_text (view value.now)) }
{
    if !has_only(value, &["scale", "saves", "stop"]) {
        return Err(PartError::Form);
    }
    match value.get("scale") {
        None => Err(PartError::Form),
        Some(scale) => Ok(LegText {
            scale,
            saves: saves_of(alloc, value)?,
            stop: stop_of(alloc, value)?,
        }),
    }
}

fn texts_of<'v>(alloc: Global, values: &'v [Value]) -> Result<Vec<LegText<'v>>, PartError>
    ensures { Gives (λ texts. map leg_said texts.items) result (each leg_text (map view values.now)) }
{
    let mut texts = Vec::new(alloc);
    for value in values {
        texts.push(text_of_leg(alloc, value)?)?;
    }
    Ok(texts)
}

/// What the value says as a list of legs.
#[tactic(auto, unfolding(crate::specs::LegsText::legs_text))]
pub fn text_of_legs<'v>(alloc: Global, value: &'v Value) -> Result<Vec<LegText<'v>>, PartError>
    ensures { Gives (λ texts. map leg_said texts.items) result (legs_text (view value.now)) }
{
    texts_of(alloc, elements_of(value)?)
}
