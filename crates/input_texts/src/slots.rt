//! A place for something of each source of a plan.

ghost use Rattle.std.specs.Prelude.{◌≡◌, ◌<◌, Some, None, length, map, position, option_copied, bytes_eq, slice_set, IfOk, IfErr};
ghost use Rattle.std.specs.List.{find};
ghost use Rattle.plan_model.specs.PlanData.{IsBound};
ghost use Rattle.input_texts.specs.Seen.{bound_under};

use json_tokens::Miss;
use plan_model::{Plan, SourceSpec};
use std::alloc::Global;

/// The place of the source with a name.
pub fn place_of(specs: &[SourceSpec], name: &[u8]) -> Option<usize>
    ensures { result ≡ position (λ s. bytes_eq s.uid name.now) specs.now }
{
    specs
        .iter()
        .position(|spec| spec.uid.as_str().as_bytes() == name)
}

/// The source with a name.
fn source_named<'s>(specs: &'s [SourceSpec], name: &[u8]) -> Option<&'s SourceSpec>
    ensures { option_copied result ≡ find (λ s. bytes_eq s.uid name.now) specs.now }
{
    specs
        .iter()
        .find(|spec| spec.uid.as_str().as_bytes() == name)
}

/// The bound of the source with a name. None: it makes no watermarks, or the plan lacks it.
pub fn bound_of(plan: &Plan, name: &[u8]) -> Option<i64>
    ensures says { result ≡ bound_under plan.now name.now }
    ensures bounded { IsBound result }
{
    match source_named(plan.sources(), name) {
        Some(source) => source.bound,
        None => None,
    }
}

/// A place for something of each source.
pub fn empty_slots<T: Drop>(alloc: Global, specs: &[SourceSpec]) -> Result<Vec<Option<T>>, Miss>
    ensures said { IfOk result (λ slots. slots.items ≡ map (λ s. None) specs.now) }
    ensures refused { IfErr result (λ miss. miss ≡ Miss.Memory) }
{
    let mut slots = Vec::new(alloc);
    for _spec in specs {
        slots.push(None)?;
    }
    Ok(slots)
}

/// Puts a part into a place, where another may stand.
pub fn put<T: Drop>(slots: &mut Vec<Option<T>>, place: usize, part: T)
    requires { place < length slots.old.items }
    ensures { slots.new.items ≡ slice_set slots.old.items place (Some part) }
{
    slots[place] = Some(part);
}
