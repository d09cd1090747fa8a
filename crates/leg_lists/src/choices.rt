//! Reading the choices of legs.

ghost use Rattle.std.specs.Prelude.{map};
ghost use Rattle.serde_json.specs.View.{view};
ghost use Rattle.json_parts.specs.Parts.{Gives as Says, each, list_text};
ghost use Rattle.leg_lists.specs.Answer.{Gives, is_memory};
ghost use Rattle.leg_lists.specs.ChoicesText.{choice_text, choices_text, choices_said, choices_of_bytes};

use json_parts::{PartError, elements_of, value_of};
use legs::{Choice, LegFault, are_choices};
use plain_data::Items;
use serde_json::Value;
use std::alloc::Global;

/// The choice that a value says: a number for which `as_u64` gives a value of 32 bits.
#[tactic(auto, unfolding(crate::specs::ChoicesText::choice_text))]
fn choice_of(value: &Value) -> Result<Choice, PartError>
    ensures { Says (λ choice. choice) result (choice_text (view value.now)) }
{
    let Some(number) = value.as_u64() else {
        return Err(PartError::Form);
    };
    match u32::try_from(number) {
        Ok(number) => Ok(Choice { number }),
        Err(_) => Err(PartError::Form),
    }
}

/// The choices of a leg that values say.
fn choices_of(alloc: Global, values: &[Value]) -> Result<Items<Choice>, PartError>
    ensures { Says (λ choices. choices) result (each choice_text (map view values.now)) }
{
    let mut choices = Vec::new(alloc);
    for value in values {
        choices.push(choice_of(value)?)?;
    }
    Ok(Items::from_vec(choices))
}

/// The choices of a leg that a value says.
#[tactic(auto, unfolding(json_parts::specs::Parts::elements, json_parts::specs::Parts::list_text))]
fn choices_in_leg(alloc: Global, value: &Value) -> Result<Items<Choice>, PartError>
    ensures { Says (λ choices. choices) result (list_text choice_text (view value.now)) }
{
    choices_of(alloc, elements_of(value)?)
}

/// The choices of legs that values say.
fn lists_of(alloc: Global, values: &[Value]) -> Result<Items<Items<Choice>>, PartError>
    ensures { Says (λ lists. lists) result (each (list_text choice_text) (map view values.now)) }
{
    let mut lists = Vec::new(alloc);
    for value in values {
        lists.push(choices_in_leg(alloc, value)?)?;
    }
    Ok(Items::from_vec(lists))
}

/// The choices of legs that a value says.
#[tactic(auto, unfolding(json_parts::specs::Parts::elements, json_parts::specs::Parts::list_text))]
fn lists_in(alloc: Global, value: &Value) -> Result<Items<Items<Choice>>, PartError>
    ensures { Says (λ lists. lists) result (list_text (list_text choice_text) (view value.now)) }
{
    lists_of(alloc, elements_of(value)?)
}

/// What the value says as the choices of so many legs.
#[tactic(auto, unfolding(crate::specs::ChoicesText::choices_text))]
fn choices_in(alloc: Global, value: &Value, legs: usize) -> Result<Items<Items<Choice>>, PartError>
    ensures { Says (λ choices. choices) result (choices_text legs (view value.now)) }
{
    let choices = lists_in(alloc, value)?;
    if !are_choices(choices.as_slice(), legs) {
        return Err(PartError::Form);
    }
    Ok(choices)
}

/// What the bytes say as them.
#[tactic(auto, unfolding(crate::specs::ChoicesText::choices_said))]
fn choices_from(alloc: Global, bytes: &[u8], legs: usize) -> Result<Items<Items<Choice>>, PartError>
    ensures { Says (λ choices. choices) result (choices_said legs bytes.now) }
{
    let value = value_of(alloc, bytes)?;
    choices_in(alloc, &value, legs)
}

/// The choices of so many legs that the bytes are, a JSON text: of each leg a list.
///
/// # Errors
///
/// [`LegFault::Choices`] where the bytes are no JSON text, or no list that has for each leg a list of whole numbers of
/// 0 to 2^32 - 1; [`LegFault::Memory`] where memory runs out.
#[tactic(auto, unfolding(crate::specs::ChoicesText::choices_of_bytes))]
pub fn read_choices(
    alloc: Global,
    bytes: &[u8],
    legs: usize,
) -> Result<Items<Items<Choice>>, LegFault>
    ensures { Gives is_memory (λ choices. choices) result (choices_of_bytes legs bytes.now) }
{
    match choices_from(alloc, bytes, legs) {
        Ok(choices) => Ok(choices),
        Err(PartError::Form) => Err(LegFault::Choices),
        Err(PartError::Memory) => Err(LegFault::Memory),
    }
}
