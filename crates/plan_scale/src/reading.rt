//! Reading a scale.

ghost use Rattle.std.specs.Prelude.{◌≡◌, true, IfOk};
ghost use Rattle.serde_json.specs.View.{view};
ghost use Rattle.plan_model.specs.PlanData.{IsPlan};
ghost use Rattle.layout_rules.specs.Scale.{IsScale};
ghost use Rattle.plan_scale.specs.Said as said;
ghost use Rattle.plan_scale.specs.Requirements as required;
ghost use Rattle.plan_scale.specs.Answer.{Gives, is_memory, scale_or_fault, scale_of_json, scale_of_bytes};

use crate::building::scale_of;
use crate::fault::fault_of_part;
use crate::requirements;
use crate::task_count::task_count;
use crate::text::{ScaleText, text_of_scale};
use json_parts::{PartError, value_of};
use layout_rules::{MOST_TASKS, Scale, ScaleFault};
use plan_model::Plan;
use serde_json::Value;
use std::alloc::Global;

#[tactic(auto, unfolding(crate::specs::Requirements::requirements, crate::specs::Requirements::has_capacity))]
fn scale_from(alloc: Global, plan: &Plan, text: &ScaleText) -> Result<Scale, ScaleFault>
    ensures reads { Gives is_memory (λ scale. scale) result (scale_or_fault plan.now text.now) }
    ensures belongs { IfOk result (λ scale. IsScale plan.now scale) }
{
    if !requirements::has_known_uids(plan, text) {
        return Err(ScaleFault::UnknownUid);
    }
    if !requirements::has_all_uids(plan, text) {
        return Err(ScaleFault::MissingUid);
    }
    if !requirements::has_parallelism(plan, text) {
        return Err(ScaleFault::Parallelism);
    }
    if !requirements::has_capacity(text) {
        return Err(ScaleFault::Ring);
    }
    let scale = scale_of(alloc, plan, text)?;
    if !has_few_tasks(plan, text, &scale) {
        return Err(ScaleFault::Tasks);
    }
    Ok(scale)
}

/// Whether the layout of the scale that the text is has at most 256 tasks.
fn has_few_tasks(plan: &Plan, text: &ScaleText, scale: &Scale) -> bool
    requires sound { IsPlan plan.now }
    requires parallelism { required.has_parallelism plan.now text.now ≡ true }
    requires is { scale.now ≡ said.scale_of plan.now text.now }
    ensures { result ≡ required.has_few_tasks plan.now text.now }
{
    task_count(scale) <= MOST_TASKS
}

/// What is read from the text of a scale.
pub trait ReadScale: Sized {
    /// The scale of a plan that a JSON value is.
    ///
    /// # Errors
    ///
    /// The first fault of the value, in the order of [`ScaleFault`]'s variants, each looked for in the
    /// whole value before the next. [`ScaleFault::Memory`] where memory runs out, in place of any other.
    fn from_value(alloc: Global, plan: &Plan, value: &Value) -> Result<Self, ScaleFault>;

    /// The scale of a plan that the bytes are, a JSON text.
    ///
    /// # Errors
    ///
    /// The first fault of the text, in the order of [`ScaleFault`]'s variants, each looked for in the
    /// whole text before the next. [`ScaleFault::Memory`] where memory runs out, in place of any other.
    fn read(alloc: Global, plan: &Plan, bytes: &[u8]) -> Result<Self, ScaleFault>;
}

impl ReadScale for Scale {
    #[tactic(auto, unfolding(crate::specs::Answer::scale_of_json))]
    fn from_value(alloc: Global, plan: &Plan, value: &Value) -> Result<Scale, ScaleFault>
        ensures reads { Gives is_memory (λ scale. scale) result (scale_of_json plan.now (view value.now)) }
        ensures belongs { IfOk result (λ scale. IsScale plan.now scale) }
    {
        match text_of_scale(alloc, value) {
            Ok(text) => scale_from(alloc, plan, &text),
            Err(part) => Err(fault_of_part(part)),
        }
    }

    #[tactic(auto, unfolding(crate::specs::Answer::scale_of_bytes))]
    fn read(alloc: Global, plan: &Plan, bytes: &[u8]) -> Result<Scale, ScaleFault>
        ensures reads { Gives is_memory (λ scale. scale) result (scale_of_bytes plan.now bytes.now) }
        ensures belongs { IfOk result (λ scale. IsScale plan.now scale) }
    {
        match value_of(alloc, bytes) {
            Ok(value) => Scale::from_value(alloc, plan, &value),
            Err(PartError::Form) => Err(ScaleFault::NotJson),
            Err(PartError::Memory) => Err(ScaleFault::Memory),
        }
    }
}
