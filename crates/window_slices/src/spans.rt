//! Spans of time, each as long as a window: a window lies in two of them, so that a row looks at the slices of two.

ghost use Rattle.std.specs.Prelude.{◌≡◌, ℤ, true, false, ◌<◌, ◌≤◌, ◌<ℤ◌, ◌≤ℤ◌, ◌+ℤ◌, [], int_le, length, slice_index_or, OnOk, OnErr};
ghost use Rattle.std.specs.List.{All};
ghost use Rattle.std.specs.Option.{option_map};
ghost use Rattle.plan_model.specs.declared.spec.Pane.{Pane as PaneValue};
ghost use Rattle.plan_model.specs.declared.limits.TheConstants.{MOST_AGGREGATES};
ghost use Rattle.plan_model.specs.PlanData.{IsWindow, has_column};
ghost use Rattle.window_slices.specs.KeySlices.{CanTakeOne, IsCounted, PanesTakeOne, acc_with, has_start, slices_of};
ghost use Rattle.window_slices.specs.Spans.{AreInSpans, in_spans, keyed_at, span_start};

use crate::key_slices::{
    Slice, Slices, add_slice, add_to_known, is_start, merge_slices, rest_of, slices_of_key,
};
use aggregates::Acc;
use columns::Batch;
use indexmap::IndexMap;
use pane_hashes::HashKeys;
use plan_model::{Pane, WindowSpec};
use std::alloc::{AllocError, Global};
use std::collections::BTreeMap;

/// The slices in each span, by its start.
pub type Spans = BTreeMap<i128, Slices>;

/// Where the span begins that a number lies in.
pub fn span_of(w: &WindowSpec, number: i64) -> i128
    requires { IsWindow w.now }
    ensures { result ≡ span_start w.now number }
{
    number as i128 - rest_of(number, w.offset, w.size) as i128
}

/// The slices of a key in the span that begins at `span`.
pub fn slices_in(spans: &Spans, span: i128, key: i64) -> &[Slice]
    ensures { result.now ≡ slices_of (keyed_at spans.now.entries span) key }
{
    match spans.get(&span) {
        Some(slices) => slices_of_key(slices, key),
        None => &[],
    }
}

/// Brings a record in at a slice, if it is there, and says whether it is: `slice` says where it starts and of which key
/// it is.
pub fn add_to_slice(
    spans: &mut Spans,
    w: &WindowSpec,
    slice: Pane,
    batch: &Batch,
    row: usize,
) -> bool
    requires row_in { row < length batch.now.rows }
    requires window { IsWindow w.now }
    requires columns_in { All (has_column batch.now.width) w.now.aggregates }
    requires few { length w.now.aggregates ≤ MOST_AGGREGATES }
    requires kinds { AreInSpans w.now spans.old.entries }
    requires room { CanTakeOne slice.start (slices_of (keyed_at spans.old.entries (span_start w.now slice.start)) slice.key) }
    ensures there { result ≡ has_start slice.start (slices_of (keyed_at spans.old.entries (span_start w.now slice.start)) slice.key) }
    ensures added { result ≡ true → PanesTakeOne w.now slice (slice_index_or batch.now.rows row []) (in_spans w.now spans.old.entries) (in_spans w.now spans.new.entries) }
    ensures kinds { AreInSpans w.now spans.new.entries }
    ensures same { result ≡ false → (b k : ℤ) → slices_of (keyed_at spans.new.entries b) k ≡ slices_of (keyed_at spans.old.entries b) k }
{
    match spans.get_mut(&span_of(w, slice.start)) {
        Some(slices) => add_to_known(slices, w, slice, batch, row),
        None => false,
    }
}

/// Brings a record in at a slice: `slice` says where it starts and of which key it is. A span that is new has its keys
/// hashed by `keys`.
///
/// # Errors
///
/// Only where memory runs out. What the slices come to is then as it was.
pub fn add_in_span(
    alloc: Global,
    keys: HashKeys,
    spans: &mut Spans,
    w: &WindowSpec,
    slice: Pane,
    batch: &Batch,
    row: usize,
) -> Result<(), AllocError>
    requires row_in { row < length batch.now.rows }
    requires window { IsWindow w.now }
    requires columns_in { All (has_column batch.now.width) w.now.aggregates }
    requires some { 1 ≤ length w.now.aggregates }
    requires few { length w.now.aggregates ≤ MOST_AGGREGATES }
    requires kinds { AreInSpans w.now spans.old.entries }
    requires room { CanTakeOne slice.start (slices_of (keyed_at spans.old.entries (span_start w.now slice.start)) slice.key) }
    ensures added { OnOk result (PanesTakeOne w.now slice (slice_index_or batch.now.rows row []) (in_spans w.now spans.old.entries) (in_spans w.now spans.new.entries)) }
    ensures kinds { AreInSpans w.now spans.new.entries }
    ensures err { OnErr result ((b k : ℤ) → slices_of (keyed_at spans.new.entries b) k ≡ slices_of (keyed_at spans.old.entries b) k) }
{
    let span = span_of(w, slice.start);
    if let Some(slices) = spans.get_mut(&span) {
        return add_slice(alloc, slices, w, slice, batch, row);
    }
    let mut first = IndexMap::with_hasher(alloc, keys);
    add_slice(alloc, &mut first, w, slice, batch, row)?;
    match spans.insert(span, first) {
        Ok(_) => Ok(()),
        Err(_) => Err(AllocError),
    }
}

/// What stands in a pane by the slices of its key.
pub fn pane_total(spans: &Spans, w: &WindowSpec, pane: &Pane) -> Option<Acc>
    requires window { IsWindow w.now }
    requires kinds { AreInSpans w.now spans.now.entries }
    requires few { IsCounted (in_spans w.now spans.now.entries pane.now) }
    ensures { result ≡ option_map (acc_with w.now) (in_spans w.now spans.now.entries pane.now) }
{
    if !is_start(w, pane.start) {
        return None;
    }
    let span = span_of(w, pane.start);
    let next = span + w.size as i128;
    let mut total = None;
    merge_slices(&mut total, slices_in(spans, span, pane.key), w, pane.start);
    merge_slices(&mut total, slices_in(spans, next, pane.key), w, pane.start);
    total
}

/// Whether a span ends at `from` or before.
fn ends_by(w: &WindowSpec, span: i128, from: i128) -> bool
    requires { IsWindow w.now }
    ensures { result ≡ int_le (span +ℤ w.now.size) from }
{
    match span.checked_add(w.size as i128) {
        Some(end) => end <= from,
        None => false,
    }
}

/// Drops the spans that end at `from` or before.
pub fn drop_spans(spans: &mut Spans, w: &WindowSpec, from: i128)
    requires { IsWindow w.now }
    ensures later { (q : PaneValue) → from ≤ℤ q.start → in_spans w.now spans.new.entries q ≡ in_spans w.now spans.old.entries q }
    ensures kinds { AreInSpans w.now spans.old.entries → AreInSpans w.now spans.new.entries }
    ensures dropped { All (λ e. from <ℤ (e.0 +ℤ w.now.size)) spans.new.entries }
{
    while let Some((span, _)) = spans.first_key_value() {
        if !ends_by(w, *span, from) {
            return;
        }
        spans.pop_first();
    }
}
