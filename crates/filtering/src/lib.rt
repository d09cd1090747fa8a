//! The rows of a batch that pass a plan's filters.
#![tactic(auto)]

ghost use Rattle.std.specs.Prelude.{◌≡◌, true, ◌<◌, map, IfOk};
ghost use Rattle.std.specs.List.{All, filter};
ghost use Rattle.columns.specs.Parts.{with_rows};
ghost use Rattle.plan_model.specs.Windows.{passes};

use columns::{Batch, BatchFault};
use lane_kernels::and_compare;
use plan_model::FilterSpec;
use std::alloc::{AllocError, Global};

/// Whether each row passes all filters: one mask, narrowed by one column after another.
fn mask_of(alloc: Global, filters: &[FilterSpec], batch: &Batch) -> Result<Vec<bool>, AllocError>
    requires { All (λ f. f.column < batch.now.width) filters.now }
    ensures { IfOk result (λ mask. mask.items ≡ map (passes filters.now) batch.now.rows) }
{
    let mut mask = vec![in alloc; true; batch.len()]?;
    for filter in filters {
        let column = batch.column(filter.column as usize);
        and_compare(column, filter.cmp, filter.value, &mut mask);
    }
    Ok(mask)
}

/// The rows that pass all filters, in order.
///
/// # Errors
///
/// Only where memory runs out.
pub fn passing(alloc: Global, filters: &[FilterSpec], batch: &Batch) -> Result<Batch, AllocError>
    requires { All (λ f. f.column < batch.now.width) filters.now }
    ensures { IfOk result (λ kept. kept ≡ with_rows batch.now (filter (passes filters.now) batch.now.rows)) }
{
    let mask = mask_of(alloc, filters, batch)?;
    match batch.keep(alloc, &mask) {
        Ok(kept) => Ok(kept),
        Err(BatchFault::Memory) => Err(AllocError),
        Err(_) => unreachable!(),
    }
}
