//! Records brought into windows.

ghost use Rattle.std.specs.Prelude.{◌≡◌, pos, int_lt, ◌<ℤ◌, ◌-ℤ◌, ◌^◌, ◌<◌, [], ◌∷◌, length, slice_index_or, Some, OnOk, if◌then◌else◌};
ghost use Rattle.std.specs.FinMap as map;
ghost use Rattle.std.specs.Int.{int_rem_euclid};
ghost use Rattle.std.specs.List.{All};
ghost use Rattle.plain_data.specs.Record.{at};
ghost use Rattle.plan_model.specs.declared.spec.Pane.{Pane as PaneValue};
ghost use Rattle.plan_model.specs.Windows.{IsTime};
ghost use Rattle.plan_model.specs.Aggregates.{Aggregated, aggregate_of, merge};
ghost use Rattle.plan_model.specs.Rows.{aggregate_at};
ghost use Rattle.window_state.specs.State.{HasRoomBefore, HasRoomFor, TakesIn, TakesInLater};
ghost use Rattle.window_state.specs.Windows.{CanAggregate, IsStart, is_pane};

use crate::together::add_together;
use crate::windows::{NOWHERE, Windows};
use columns::Batch;
use plan_model::Pane;
use std::alloc::AllocError;
use window_slices::back_to_start;

/// Brings a record in in one pane.
fn add_at(windows: &mut Windows, pane: Pane, batch: &Batch, row: usize) -> Result<(), AllocError>
    requires row_in { row < length batch.now.rows }
    requires window { CanAggregate batch.now.width windows.old.window }
    requires start { IsStart pane.start }
    requires before { pane.start <ℤ windows.old.from }
    requires room { (a : Aggregated) → map.get windows.old.totals pane ≡ Some a → a.count < 2 ^ 41 }
    ensures window_stays { windows.new.window ≡ windows.old.window }
    ensures from_stays { windows.new.from ≡ windows.old.from }
    ensures added { OnOk result ((q : PaneValue) → map.get windows.new.totals q
        ≡ (if is_pane pane q then merge windows.old.window.aggregates (map.get windows.old.totals q) (aggregate_of windows.old.window.aggregates (slice_index_or batch.now.rows row [] ∷ []))
        else map.get windows.old.totals q)) }
{
    if windows.places.add(&pane, batch, row) {
        return Ok(());
    }
    windows.put_first(pane, batch, row)
}

/// Brings a record in at the windows of its time that begin before `from`: of those that begin `first`, and whole
/// slides more, before its time.
fn add_from(windows: &mut Windows, batch: &Batch, row: usize, first: u64) -> Result<(), AllocError>
    requires row_in { row < length batch.now.rows }
    requires window { CanAggregate batch.now.width windows.old.window }
    requires time { IsTime (at windows.old.window.time (slice_index_or batch.now.rows row [])) }
    requires rest { int_rem_euclid (at windows.old.window.time (slice_index_or batch.now.rows row []) -ℤ windows.old.window.offset) windows.old.window.slide ≡ pos first }
    requires room { HasRoomBefore windows.old.window windows.old.from (slice_index_or batch.now.rows row [] ∷ []) windows.old.totals }
    ensures window_stays { windows.new.window ≡ windows.old.window }
    ensures from_stays { windows.new.from ≡ windows.old.from }
    ensures added { OnOk result ((q : PaneValue) → map.get windows.new.totals q
        ≡ (if int_lt q.start windows.old.from then merge windows.old.window.aggregates (map.get windows.old.totals q) (aggregate_at windows.old.window (slice_index_or batch.now.rows row [] ∷ []) q)
        else map.get windows.old.totals q)) }
{
    let w = windows.window();
    let time = batch.value(row, w.time as usize);
    let key = batch.value(row, w.key as usize);
    let size = w.size as u64;
    let slide = w.slide as u64;
    let mut back = first;
    while back < size {
        let start = time - back as i64;
        if (start as i128) < windows.from {
            add_at(windows, Pane { start, key }, batch, row)?;
        }
        back += slide;
    }
    Ok(())
}

/// Brings a record in at the windows of its time that begin at `from` or later. There are none of a time before it.
#[inline(always)]
fn add_later(windows: &mut Windows, batch: &Batch, row: usize, first: u64) -> Result<(), AllocError>
    requires row_in { row < length batch.now.rows }
    requires window { CanAggregate batch.now.width windows.old.window }
    requires time { IsTime (at windows.old.window.time (slice_index_or batch.now.rows row [])) }
    requires rest { int_rem_euclid (at windows.old.window.time (slice_index_or batch.now.rows row []) -ℤ windows.old.window.offset) windows.old.window.slide ≡ pos first }
    requires room { HasRoomFor windows.old.window (slice_index_or batch.now.rows row [] ∷ []) windows.old.totals }
    ensures window_stays { windows.new.window ≡ windows.old.window }
    ensures from_stays { windows.new.from ≡ windows.old.from }
    ensures added { OnOk result (TakesInLater (slice_index_or batch.now.rows row []) windows.old windows.new) }
{
    let time = batch.value(row, windows.window().time as usize);
    if (time as i128) < windows.from {
        return Ok(());
    }
    windows.add_to_slice(batch, row, first)
}

/// Brings a record in at each window of its time. The last of them begins `first` before it.
fn add_record(
    windows: &mut Windows,
    batch: &Batch,
    row: usize,
    first: u64,
) -> Result<(), AllocError>
    requires row_in { row < length batch.now.rows }
    requires window { CanAggregate batch.now.width windows.old.window }
    requires time { IsTime (at windows.old.window.time (slice_index_or batch.now.rows row [])) }
    requires rest { int_rem_euclid (at windows.old.window.time (slice_index_or batch.now.rows row []) -ℤ windows.old.window.offset) windows.old.window.slide ≡ pos first }
    requires room { HasRoomFor windows.old.window (slice_index_or batch.now.rows row [] ∷ []) windows.old.totals }
    ensures window_stays { windows.new.window ≡ windows.old.window }
    ensures added { OnOk result (TakesIn (slice_index_or batch.now.rows row [] ∷ []) windows.old windows.new) }
{
    let w = windows.window();
    let time = batch.value(row, w.time as usize);
    // Where windows may be made of slices the slide divides the size, so that the oldest window of a time begins a
    // size less a slide before its last; else all begin before `from`.
    let oldest = time - first as i64 - (w.size - w.slide);
    add_later(windows, batch, row, first)?;
    if (oldest as i128) < windows.from {
        add_from(windows, batch, row, first)?;
    }
    Ok(())
}

/// The fewest rows of a batch that are brought in together: to list the places of fewer costs more.
const FEWEST_ROWS: usize = 4;

/// Brings each record of a batch in at each window of its time.
pub(crate) fn add_batch(windows: &mut Windows, batch: &Batch) -> Result<(), AllocError>
    requires window { CanAggregate batch.now.width windows.old.window }
    requires times { All (λ r. IsTime (at windows.old.window.time r)) batch.now.rows }
    requires room { HasRoomFor windows.old.window batch.now.rows windows.old.totals }
    ensures window_stays { windows.new.window ≡ windows.old.window }
    ensures added { OnOk result (TakesIn batch.now.rows windows.old windows.new) }
{
    let w = windows.window();
    if FEWEST_ROWS <= batch.len() && w.slide == w.size && windows.from == NOWHERE {
        return add_together(
            windows.alloc,
            &mut windows.places,
            &mut windows.opened,
            batch,
        );
    }
    let mut start = None;
    for row in 0..batch.len() {
        let w = windows.window();
        let time = batch.value(row, w.time as usize);
        let first = back_to_start(w, time, &mut start);
        add_record(windows, batch, row, first)?;
    }
    Ok(())
}
