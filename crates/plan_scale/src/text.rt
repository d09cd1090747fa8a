//! What a scale's text says, before it is compared with a plan.

ghost use Rattle.serde_json.specs.View.{view};
ghost use Rattle.json_parts.specs.Parts.{Gives};
ghost use Rattle.plan_scale.specs.ScaleText.{operator_text, operators_at, scale_text};

use json_parts::{FromValue, Member, PartError, flag_or, has_only, members_of, whole};
use plain_data::Items;
use serde_json::Value;
use std::alloc::Global;

/// An operator's parallelism, not checked, and whether it may join the stage before it.
#[derive(Clone, Copy, Debug, PartialEq, Eq)]
pub struct OperatorText {
    pub parallelism: i64,
    pub chain: bool,
}

/// What a document says as a scale: the capacity of a ring, and under each name an operator.
#[derive(Debug, Drop)]
pub struct ScaleText {
    pub ring: i64,
    pub operators: Items<Member<OperatorText>>,
}

impl FromValue for OperatorText {
    ghost use Rattle.plan_scale.specs.ScaleText.{operator_text};

    ghost text_of = { operator_text };

    fn from_value(_alloc: Global, value: &Value) -> Result<OperatorText, PartError> {
        operator_of(value)
    }
}

#[tactic(auto, unfolding(crate::specs::ScaleText::operator_text))]
fn operator_of(value: &Value) -> Result<OperatorText, PartError>
    ensures { Gives (λ operator. operator) result (operator_text (view value.now)) }
{
    if !has_only(value, &["parallelism", "chain"]) {
        return Err(PartError::Form);
    }
    Ok(OperatorText {
        parallelism: whole(value, "parallelism")?,
        chain: flag_or(value, "chain", true)?,
    })
}

#[tactic(auto, unfolding(crate::specs::ScaleText::operators_at))]
fn operators_in(alloc: Global, value: &Value) -> Result<Items<Member<OperatorText>>, PartError>
    ensures { Gives (λ operators. operators) result (operators_at (view value.now)) }
{
    match value.get("operators") {
        None => Err(PartError::Form),
        Some(operators) => members_of::<OperatorText>(alloc, operators),
    }
}

/// What the value says as a scale.
#[tactic(auto, unfolding(crate::specs::ScaleText::scale_text))]
pub fn text_of_scale(alloc: Global, value: &Value) -> Result<ScaleText, PartError>
    ensures { Gives (λ text. text) result (scale_text (view value.now)) }
{
    if !has_only(value, &["ring", "operators"]) {
        return Err(PartError::Form);
    }
    Ok(ScaleText {
        ring: whole(value, "ring")?,
        operators: operators_in(alloc, value)?,
    })
}
