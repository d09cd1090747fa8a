//! The panes of open windows, by the start of their window.

ghost use Rattle.std.specs.Prelude.{◌≡◌, ℤ, List, not, pos, int_lt, ◌-ℤ◌, ◌++◌, ◌&&◌, ◌||◌, ◌↔◌, ◌<◌, length, true, false, IfOk, IfSome, IfNone, OnOk, OnErr, if◌then◌else◌};
ghost use Rattle.std.specs.List.{All};
ghost use Rattle.std.specs.List.Sorted.{IsStrictlySortedBy};
ghost use Rattle.std.specs.Ordering.{int_cmp, int_eq};
ghost use Rattle.plan_model.specs.declared.spec.Pane.{Pane as PaneValue};
ghost use Rattle.std.specs.Int.{int_rem_euclid};
ghost use Rattle.plan_model.specs.PlanData.{IsWindow};
ghost use Rattle.plan_model.specs.Rows.{is_due as due, pane_cmp};
ghost use Rattle.plan_model.specs.Windows.{IsTime, is_window_of};
ghost use Rattle.window_slices.specs.KeySlices.{has_slice};
ghost use Rattle.window_state.specs.Windows.{has_pane, is_pane};
ghost use Rattle.window_state.specs.Open.{has_open, has_key, panes_from, OpensOnly};

use crate::firing::is_due;
use plan_model::{Pane, WindowSpec};
use std::alloc::{AllocError, Global};
use std::collections::BTreeMap;
use window_slices::{Slice, start_above, start_below};

/// For each start of an open window the keys that have a pane there, in the order in which they came. They are put in
/// order only when their window fires, which costs less than to keep all panes in order.
pub(crate) type OpenPanes = BTreeMap<i64, Vec<i64>>;

/// Puts a pane behind those of its start. Where no memory is to be had, nothing has changed.
pub(crate) fn open_pane(alloc: Global, opened: &mut OpenPanes, pane: Pane) -> Result<(), AllocError>
    ensures opened { OnOk result ((q : PaneValue) → has_open opened.new.entries q ≡ (if is_pane pane q then true else has_open opened.old.entries q)) }
    ensures err { OnErr result ((q : PaneValue) → has_open opened.new.entries q ≡ has_open opened.old.entries q) }
{
    if let Some(keys) = opened.get_mut(&pane.start) {
        return match keys.push(pane.key) {
            Ok(()) => Ok(()),
            Err(_) => Err(AllocError),
        };
    }
    // Where keys are sparse most starts have one.
    let mut keys = Vec::with_capacity(alloc, 1)?;
    keys.push(pane.key)?;
    match opened.insert(pane.start, keys) {
        Ok(_) => Ok(()),
        Err(_) => Err(AllocError),
    }
}

/// Opens the panes of a key at the windows of a time that begin at `from` or later and have none of the key's slices
/// yet. The last window of the time begins `first` before it.
pub(crate) fn open_new(
    alloc: Global,
    opened: &mut OpenPanes,
    w: &WindowSpec,
    from: i128,
    record: Pane,
    first: u64,
    slices: &[Slice],
) -> Result<(), AllocError>
    requires window { IsWindow w.now }
    requires time { IsTime record.start }
    requires rest { int_rem_euclid (record.start -ℤ w.now.offset) w.now.slide ≡ pos first }
    requires whole { int_rem_euclid w.now.size w.now.slide ≡ pos 0 }
    ensures opened { OnOk result ((q : PaneValue) → int_eq record.key q.key ≡ true → is_window_of w.now record.start q.start ≡ true → int_lt q.start from ≡ false
        → (has_open opened.new.entries q || has_slice w.now q.start slices.now) ≡ true) }
    ensures still { (q : PaneValue) → has_open opened.old.entries q ≡ true → has_open opened.new.entries q ≡ true }
    ensures only { OpensOnly w.now record.key record.start opened.old.entries opened.new.entries }
{
    let slice = record.start - first as i64;
    let below = start_below(slices, slice);
    let above = start_above(slices, slice);
    let size = w.size as u64;
    let slide = w.slide as u64;
    let mut back = first;
    while back < size {
        let start = record.start - back as i64;
        // The windows before this one have the slice before.
        if (start as i128) < from || below.is_some_and(|b| start <= b) {
            break;
        }
        let end = start + w.size;
        if above.is_none_or(|b| end <= b) {
            open_pane(
                alloc,
                opened,
                Pane {
                    start,
                    key: record.key,
                },
            )?;
        }
        back += slide;
    }
    Ok(())
}

/// Puts the panes of a start behind others, in the order of their keys, each once. `sorted` is where keys are put in
/// order.
fn push_panes(
    panes: &mut Vec<Pane>,
    start: i64,
    keys: &[i64],
    sorted: &mut Vec<i64>,
) -> Result<(), AllocError>
    ensures { OnOk result ((those : List ℤ) × IsStrictlySortedBy int_cmp those × ((k : ℤ) → has_key k those ≡ has_key k keys.now)
        × (panes.new.items ≡ panes.old.items ++ panes_from start those)) }
{
    sorted.clear();
    sorted.extend_from_slice(keys)?;
    sorted.sort_unstable();
    sorted.dedup();
    for key in sorted.as_slice() {
        panes.push(Pane { start, key: *key })?;
    }
    Ok(())
}

/// The panes whose windows fire by the watermark, in order.
pub(crate) fn due_panes(
    alloc: Global,
    opened: &OpenPanes,
    w: &WindowSpec,
    watermark: i64,
) -> Result<Vec<Pane>, AllocError>
    ensures ordered { IfOk result (λ panes. IsStrictlySortedBy pane_cmp panes.items) }
    ensures those { IfOk result (λ panes. (q : PaneValue) → has_pane panes.items q ≡ (due w.now watermark q.start && has_open opened.now.entries q)) }
{
    let mut panes = Vec::new(alloc);
    let mut sorted = Vec::new(alloc);
    for (start, keys) in opened {
        if !is_due(w, watermark, *start) {
            break;
        }
        push_panes(&mut panes, *start, keys.as_slice(), &mut sorted)?;
    }
    Ok(panes)
}

/// The panes of windows that begin at `from` or later, in order.
pub(crate) fn later_panes(
    alloc: Global,
    opened: &OpenPanes,
    from: i128,
) -> Result<Vec<Pane>, AllocError>
    ensures ordered { IfOk result (λ panes. IsStrictlySortedBy pane_cmp panes.items) }
    ensures those { IfOk result (λ panes. (q : PaneValue) → has_pane panes.items q ≡ (not (int_lt q.start from) && has_open opened.now.entries q)) }
{
    let mut panes = Vec::new(alloc);
    let mut sorted = Vec::new(alloc);
    for (start, keys) in opened {
        if from <= *start as i128 {
            push_panes(&mut panes, *start, keys.as_slice(), &mut sorted)?;
        }
    }
    Ok(panes)
}

/// Whether each window fires by the watermark: the last does.
pub(crate) fn are_all_due(opened: &OpenPanes, w: &WindowSpec, watermark: i64) -> bool
    ensures { result ≡ true ↔ All (λ e. due w.now watermark e.0 ≡ true) opened.now.entries }
{
    match opened.last_key_value() {
        Some((start, _)) => is_due(w, watermark, *start),
        None => true,
    }
}

/// Takes the panes of the first window out, where it fires by the watermark. All windows have one size, so that those
/// that fire come before those that do not.
pub(crate) fn pop_due(
    opened: &mut OpenPanes,
    w: &WindowSpec,
    watermark: i64,
) -> Option<(i64, Vec<i64>)>
    ensures taken { IfSome result (λ first. (q : PaneValue) → has_open opened.new.entries q ≡ (if int_eq q.start first.0 then false else has_open opened.old.entries q)) }
    ensures those { IfSome result (λ first. (q : PaneValue) → int_eq q.start first.0 ≡ true → has_open opened.old.entries q ≡ has_key q.key first.1.items) }
    ensures due { IfSome result (λ first. due w.now watermark first.0 ≡ true) }
    ensures fewer { IfSome result (λ first. length opened.new.entries < length opened.old.entries) }
    ensures none { IfNone result (All (λ e. due w.now watermark e.0 ≡ false) opened.old.entries) }
    ensures same { IfNone result (opened.new.entries ≡ opened.old.entries) }
{
    let (start, _) = opened.first_key_value()?;
    if is_due(w, watermark, *start) {
        opened.pop_first()
    } else {
        None
    }
}
