//! Records of windows that follow one another, brought in together.

ghost use Rattle.std.specs.Prelude.{◌≡◌, true, false, OnOk, is_some};
ghost use Rattle.std.specs.List.{All};
ghost use Rattle.plain_data.specs.Record.{at as value_at};
ghost use Rattle.plan_model.specs.declared.spec.Pane.{Pane as PaneValue};
ghost use Rattle.plan_model.specs.Windows.{IsTime};
ghost use Rattle.plan_model.specs.Aggregates.{merge};
ghost use Rattle.plan_model.specs.Rows.{aggregate_at};
ghost use Rattle.window_state.specs.Open.{has_open, AreOpen};
ghost use Rattle.window_state.specs.State.{HasRoom};
ghost use Rattle.window_state.specs.Windows.{acc_at, total_at, CanAggregate, IsStart};

use crate::opened::{OpenPanes, open_pane};
use crate::places::Places;
use columns::Batch;
use place_words::PlacedRow;
use plan_model::Pane;
use std::alloc::{AllocError, Global};
use window_slices::back_to_start;

/// Brings the records of a batch in, each in the one window of its time, where windows are as long as their slide.
/// Those whose pane has a place are brought in aggregate by aggregate, which costs half of what they cost one by one.
pub(crate) fn add_together(
    alloc: Global,
    places: &mut Places,
    opened: &mut OpenPanes,
    batch: &Batch,
) -> Result<(), AllocError>
    requires window { CanAggregate batch.now.width places.old.window }
    requires one { places.old.window.slide ≡ places.old.window.size }
    requires times { All (λ r. IsTime (value_at places.old.window.time r)) batch.now.rows }
    requires room { HasRoom places.old.window batch.now.rows (total_at places.old.entries) }
    requires opened { AreOpen opened.old.entries (total_at places.old.entries) }
    ensures window_stays { places.new.window ≡ places.old.window }
    ensures added { OnOk result ((q : PaneValue) → total_at places.new.entries q ≡ merge places.old.window.aggregates (total_at places.old.entries q) (aggregate_at places.old.window batch.now.rows q)) }
    ensures opened { AreOpen opened.new.entries (total_at places.new.entries) }
    ensures open_stay { (q : PaneValue) → has_open opened.old.entries q ≡ true → has_open opened.new.entries q ≡ true }
    ensures starts { (q : PaneValue) → is_some (acc_at places.new.entries q) ≡ true → is_some (acc_at places.old.entries q) ≡ false → IsStart q.start }
{
    let time_column = places.window().time as usize;
    let key_column = places.window().key as usize;
    let mut rows = Vec::with_capacity(alloc, batch.len())?;
    let mut start = None;
    for row in 0..batch.len() {
        let time = batch.value(row, time_column);
        let first = back_to_start(places.window(), time, &mut start);
        let pane = Pane {
            start: time - first as i64,
            key: batch.value(row, key_column),
        };
        match places.words_at(&pane) {
            Some(at) => rows.push_reserved(PlacedRow { row, at }),
            None => {
                open_pane(alloc, opened, pane)?;
                places.push_first(pane, batch, row)?;
            }
        }
    }
    places.add_rows(rows.as_slice(), batch);
    Ok(())
}
