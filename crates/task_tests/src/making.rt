//! Layouts and stops, made of texts and numbers.

ghost use Rattle.std.specs.Prelude.{IfOk};
ghost use Rattle.task_setups.specs.Legs.{IsLayoutOf};

use layout_rules::Scale;
use legs::{Cut, Stop};
use plain_data::Items;
use plan_compiler::{Layout, compile};
use plan_model::Plan;
use plan_scale::ReadScale;
use std::alloc::{AllocError, Global};
use std::test::Fail;

/// The layout of a plan at a scale.
pub fn layout_at(alloc: Global, plan: &Plan, scale: &str) -> Result<Layout, Fail>
    ensures { IfOk result (λ layout. IsLayoutOf plan.now layout) }
{
    let scale = Box::new(alloc, Scale::read(alloc, plan, scale.as_bytes())?)?;
    Ok(compile(alloc, plan, &scale)?)
}

/// A stop where so many entries of each partition were read, if it stops.
pub fn stop_at(alloc: Global, counts: Option<&[u64]>) -> Result<Stop, AllocError> {
    let Some(counts) = counts else {
        return Ok(Stop::Never);
    };
    let source = Items::from_vec(Vec::from_slice(alloc, counts)?);
    let counts = Items::from_vec(vec![in alloc; source]?);
    Ok(Stop::At(Cut { counts }))
}
