//! Rows in the order of their text.

ghost use Rattle.std.specs.Prelude.{◌≡◌, Option, OnOk};
ghost use Rattle.std.specs.List.Sorted.{IsSortedByKey};
ghost use Rattle.plan_model.specs.declared.spec.Pane.{Pane as PaneValue};
ghost use Rattle.plan_model.specs.declared.spec.Row.{Row as RowValue};
ghost use Rattle.plan_model.specs.Rows.{AreRowsOf, pane_cmp, pane_of};

use plan_model::{Pane, Row};
use std::alloc::AllocError;

/// Where a row stands.
fn pane_of(row: &Row) -> Pane
    ensures { result ≡ pane_of row.now }
{
    Pane {
        start: row.start,
        key: row.key,
    }
}

/// Brings rows in the order of start and key. Rows that are in order take one walk.
pub fn sort_rows(rows: &mut Vec<Row>) -> Result<(), AllocError>
    ensures ordered { OnOk result (IsSortedByKey pane_of pane_cmp rows.new.items) }
    ensures same { (f : PaneValue → Option RowValue) → AreRowsOf f rows.old.items → AreRowsOf f rows.new.items }
{
    rows.sort_by_key(|row| pane_of(row))?;
    Ok(())
}
