//! The having conditions on rows.

ghost use Rattle.std.specs.Prelude.{◌≡◌, pos, Option, slice_index_or};
ghost use Rattle.std.specs.List.{filter};
ghost use Rattle.std.specs.List.Sorted.{IsSortedByKey};
ghost use Rattle.plan_model.specs.declared.spec.Pane.{Pane};
ghost use Rattle.plan_model.specs.declared.spec.Row.{Row as RowValue};
ghost use Rattle.plan_model.specs.Rows.{keeps, pane_of, pane_cmp, AreRowsOf};
ghost use Rattle.window_state.specs.Firing.{kept_where};

use plan_model::{Having, Numbers, Row};

/// The number of an aggregate, or 0 where there is none.
fn number_of(numbers: &Numbers, aggregate: u32) -> i128
    ensures { result ≡ slice_index_or numbers.now aggregate (pos 0) }
{
    numbers.get(aggregate as usize).unwrap_or(0)
}

/// Whether the numbers meet every condition.
fn is_kept(having: &[Having], numbers: &Numbers) -> bool
    ensures { result ≡ keeps having.now numbers.now }
{
    having.iter().all(|h| h
        .cmp
        .holds(number_of(numbers, h.aggregate), h.value as i128))
}

/// Keeps the rows whose numbers meet every condition, in order.
pub fn keep_rows(having: &[Having], rows: &mut Vec<Row>)
    ensures kept { rows.new.items ≡ filter (λ row. keeps having.now row.values) rows.old.items }
    ensures at_panes { (f : Pane → Option RowValue) → AreRowsOf f rows.old.items → AreRowsOf (λ q. kept_where having.now (f q)) rows.new.items }
    ensures ordered { IsSortedByKey pane_of pane_cmp rows.old.items → IsSortedByKey pane_of pane_cmp rows.new.items }
{
    rows.retain(|row| is_kept(having, &row.values));
}
