//! Windows that fire.

ghost use Rattle.std.specs.Prelude.{◌≡◌, ℕ, ℤ, true, not, int_lt, IfOk};
ghost use Rattle.std.specs.FinMap as map;
ghost use Rattle.std.specs.List.Sorted.{IsSortedByKey};
ghost use Rattle.plan_model.specs.PlanData.{IsWindow};
ghost use Rattle.plan_model.specs.Windows.{is_start};
ghost use Rattle.plan_model.specs.Rows.{is_due as due, pane_cmp, pane_of, row_at, AreRowsOf};
ghost use Rattle.window_state.specs.Windows.{IsOperator, IsStart};
ghost use Rattle.window_state.specs.State.{fired};

use crate::opened::{are_all_due, due_panes, pop_due};
use crate::windows::Windows;
use plan_model::{Numbers, Pane, Row, WindowSpec};
use std::alloc::{AllocError, Global};
use window_slices::drop_spans;

/// Whether the window that begins at `start` fires by the watermark: its greatest time, its end less 1,
/// is at most that.
pub(crate) fn is_due(w: &WindowSpec, watermark: i64, start: i64) -> bool
    ensures { result ≡ due w.now watermark start }
{
    start as i128 + w.size as i128 - 1 <= watermark as i128
}

/// The row of the numbers of a pane.
fn row_of(w: &WindowSpec, pane: Pane, numbers: Numbers) -> Row
    requires operator { IsOperator w.now }
    requires start { IsStart pane.start }
    ensures { (n : ℕ) → result ≡ row_at w.now pane (record { count = n; numbers = numbers }) }
{
    Row {
        start: pane.start,
        end: pane.start + w.size,
        key: pane.key,
        values: numbers,
    }
}

/// The rows of the windows that fire by the watermark, in order.
pub(crate) fn rows_of(
    alloc: Global,
    windows: &Windows,
    watermark: i64,
) -> Result<Vec<Row>, AllocError>
    ensures rows { IfOk result (λ rows. AreRowsOf (fired windows.now.window watermark (map.get windows.now.totals)) rows.items) }
    ensures ordered { IfOk result (λ rows. IsSortedByKey pane_of pane_cmp rows.items) }
{
    let panes = due_panes(alloc, &windows.opened, windows.window(), watermark)?;
    let mut rows = Vec::with_capacity(alloc, panes.len())?;
    for pane in &panes {
        if let Some(numbers) = windows.numbers(alloc, pane)? {
            rows.push(row_of(windows.window(), *pane, numbers))?;
        }
    }
    Ok(rows)
}

/// The first start of a window that does not fire by the watermark.
fn first_undue(w: &WindowSpec, watermark: i64) -> i128
    requires { IsWindow w.now }
    ensures due { (s : ℤ) → due w.now watermark s ≡ true → int_lt s result ≡ true }
    ensures starts { (s : ℤ) → is_start w.now s ≡ true → int_lt s result ≡ true → due w.now watermark s ≡ true }
{
    let last = watermark as i128 - w.size as i128 + 1;
    last - (last - w.offset as i128).rem_euclid(w.slide as i128) + w.slide as i128
}

/// Takes the windows out that fire by the watermark.
pub(crate) fn remove_due(windows: &mut Windows, watermark: i64)
    ensures window_stays { windows.new.window ≡ windows.old.window }
    ensures left { windows.new.totals ≡ map.retain_keys windows.old.totals (λ q. not (due windows.old.window watermark q.start)) }
{
    let from = windows.from;
    windows.from = from.max(first_undue(windows.places.window(), watermark));
    drop_spans(&mut windows.spans, windows.places.window(), windows.from);
    // Clearing takes time for each pane that the map has memory for.
    let is_filled = windows.places.is_filled();
    if is_filled && are_all_due(&windows.opened, windows.places.window(), watermark) {
        windows.opened.clear();
        windows.places.clear();
        windows.spans.clear();
    } else {
        while let Some((start, keys)) = pop_due(
            &mut windows.opened,
            windows.places.window(),
            watermark,
        ) {
            if (start as i128) < from {
                windows.places.remove_keys(start, keys.as_slice());
            }
        }
    }
}
