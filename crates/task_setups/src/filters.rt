//! The filters of a stage's operators.

ghost use Rattle.std.specs.Prelude.{◌≡◌, ◌++◌, [], ◌∷◌, take, drop, IfOk};
ghost use Rattle.task_setups.specs.Setups as told;

use layout_rules::Operator;
use plain_data::Items;
use plan_model::{FilterSpec, Plan};
use std::alloc::{AllocError, Global};

fn copied(alloc: Global, filter: &FilterSpec) -> Result<FilterSpec, AllocError>
    ensures { IfOk result (λ copy. copy ≡ filter.now) }
{
    Ok(FilterSpec {
        uid: filter.uid.copy(alloc)?,
        column: filter.column,
        cmp: filter.cmp,
        value: filter.value,
    })
}

/// Puts in the filter at a place of the plan, if it is there.
fn push_at(
    filters: &mut Vec<FilterSpec>,
    alloc: Global,
    plan: &Plan,
    place: u32,
) -> Result<(), AllocError>
    ensures { IfOk result (λ _. filters.new.items ≡ filters.old.items ++ take 1 (drop place plan.now.filters)) }
{
    match plan.filters().get(place as usize) {
        Some(filter) => {
            filters.push(copied(alloc, filter)?)?;
            Ok(())
        }
        None => Ok(()),
    }
}

/// Puts in the filter that an operator is, if it is one.
fn push_filter(
    filters: &mut Vec<FilterSpec>,
    alloc: Global,
    plan: &Plan,
    operator: Operator,
) -> Result<(), AllocError>
    ensures { IfOk result (λ _. filters.new.items ≡ filters.old.items ++ told.filters_of plan.now (operator ∷ [])) }
{
    match operator {
        Operator::Filter(place) => push_at(filters, alloc, plan, place),
        Operator::Source(_) | Operator::Window | Operator::Sink => Ok(()),
    }
}

/// The filters among some operators.
pub(crate) fn filters_of(
    alloc: Global,
    plan: &Plan,
    operators: &[Operator],
) -> Result<Items<FilterSpec>, AllocError>
    ensures { IfOk result (λ filters. filters ≡ told.filters_of plan.now operators.now) }
{
    let mut filters = Vec::new(alloc);
    for operator in operators {
        push_filter(&mut filters, alloc, plan, *operator)?;
    }
    Ok(Items::from_vec(filters))
}
