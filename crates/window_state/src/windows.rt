//! Open windows.

ghost use Rattle.std.specs.Prelude.{◌≡◌, true, false, pos, int_lt, int_le, ◌-ℤ◌, ◌≤ℤ◌, ◌<ℤ◌, OnOk, OnErr, IfOk, IfSome, None, map, if◌then◌else◌, [], ◌∷◌, length, slice_index_or, ◌<◌};
ghost use Rattle.std.specs.FinMap as map_of;
ghost use Rattle.std.specs.Int.{int_rem_euclid};
ghost use Rattle.std.specs.List.{All};
ghost use Rattle.std.specs.Option.{option_map};
ghost use Rattle.plain_data.specs.Record.{at};
ghost use Rattle.plan_model.specs.declared.spec.Pane.{Pane as PaneValue};
ghost use Rattle.plan_model.specs.Windows.{IsTime};
ghost use Rattle.plan_model.specs.Aggregates.{Aggregated, aggregate_of};
ghost use Rattle.window_state.specs.Open.{has_open};
ghost use Rattle.window_slices.specs.KeySlices.{acc_with};
ghost use Rattle.window_state.specs.State.{HasRoomFor, TakesInLater};
ghost use Rattle.window_state.specs.Windows.{AreWhole, IsOperator, CanAggregate, IsStart, acc_at, has_pane, is_pane};
ghost use Rattle.window_state.specs.Parts.{accs_in, entries_of, panes_in, IsPartOf};

use crate::opened::{OpenPanes, open_new, open_pane};
use crate::places::Places;
use aggregates::Acc;
use columns::Batch;
use packed_parts::PackedParts;
use pane_hashes::HashKeys;
use plan_model::{Numbers, Pane, WindowSpec};
use std::alloc::{AllocError, Global};
use std::collections::BTreeMap;
use std::marker::Model;
use window_slices::{Spans, add_in_span, add_to_slice, pane_total, slices_in, span_of};

/// For how many windows of a time a record goes to a slice of time instead of to each of them. With fewer there is
/// nothing to gain. The slide has to divide the size, so that spans begin where windows do.
const FEWEST_WINDOWS: i64 = 4;

/// Behind every start of a window.
pub(crate) const NOWHERE: i128 = 1 << 64;

/// The open windows of a window operator, and the panes by their starts. What stands in the panes of windows that begin
/// before `from` is in `places`, and of those that begin later it is what their slices come to. `keys` are the secret
/// numbers by which the keys of a new span's slices are hashed.
pub(crate) struct Windows {
    pub alloc: Global,
    keys: HashKeys,
    pub from: i128,
    pub places: Places,
    pub spans: Spans,
    pub opened: OpenPanes,
}

// By hand, since a proof goes over a derived drop field by field.
impl Drop for Windows {
    fn drop(self) {
        let Windows {
            alloc: _,
            keys: _,
            from: _,
            places: _,
            spans: _,
            opened: _,
        } = self;
    }
}

impl Model for Windows {
    ghost use Rattle.window_state.specs.State.{OpenWindows};

    ghost Value = { OpenWindows };

    ghost use Rattle.std.specs.Coded.{codes};
    ghost use Rattle.window_state.specs.Codes.{windows_code};

    ghost coded = { Prim.hlevel (codes, windows_code) };

    ghost use Rattle.window_state.specs.StateView.{windows_view, IsWindowsInside};

    ghost view = { windows_view };

    ghost invariant = { IsWindowsInside };
}

impl Windows {
    /// No windows of the operator. Their panes will be hashed by the keys.
    pub fn new(alloc: Global, keys: HashKeys, window: WindowSpec) -> Windows
        requires { IsOperator window }
        ensures window { result.window ≡ window }
        ensures none { result.totals ≡ map_of.empty }
    {
        let from = earliest_from(&window);
        Windows {
            alloc,
            keys,
            from,
            places: Places::new(alloc, keys, window),
            spans: BTreeMap::new(alloc),
            opened: BTreeMap::new(alloc),
        }
    }

    /// The windows of the operator that hold the parts. Where a pane stands twice, the first part counts.
    pub fn from_parts(
        alloc: Global,
        keys: HashKeys,
        window: WindowSpec,
        parts: &PackedParts,
    ) -> Result<Windows, AllocError>
        requires operator { IsOperator window }
        requires parts { All (IsPartOf window) parts.now }
        ensures window { IfOk result (λ windows. windows.window ≡ window) }
        ensures parts { IfOk result (λ windows. windows.totals ≡ map_of.from_entries (entries_of parts.now)) }
    {
        let from = first_from(&window, parts);
        let places = places_of(alloc, keys, window, parts)?;
        let opened = open_of(alloc, parts)?;
        Ok(Windows {
            alloc,
            keys,
            from,
            places,
            spans: BTreeMap::new(alloc),
            opened,
        })
    }

    /// The window operator.
    pub fn window(&self) -> &WindowSpec
        ensures { result.now ≡ self.now.window }
    {
        self.places.window()
    }

    /// The number of each aggregate in a pane, if anything stands there.
    pub fn numbers(&self, alloc: Global, pane: &Pane) -> Result<Option<Numbers>, AllocError>
        ensures numbers { IfOk result (λ found. found ≡ option_map (λ (a : Aggregated). a.numbers) (map_of.get self.now.totals pane.now)) }
        ensures start { IfOk result (λ found. IfSome found (λ numbers. IsStart pane.now.start)) }
        ensures operator { IfOk result (λ found. IsOperator self.now.window) }
    {
        if (pane.start as i128) < self.from {
            return self.places.numbers(alloc, pane);
        }
        match pane_total(&self.spans, self.places.window(), pane) {
            Some(acc) => Ok(Some(numbers_of(alloc, acc.numbers())?)),
            None => Ok(None),
        }
    }

    /// The accumulator of a pane of a window that begins at `from` or later, if anything stands there.
    pub fn later_acc(&self, pane: &Pane) -> Option<Acc>
        requires { int_lt pane.now.start self.now.from ≡ false }
        ensures acc { result ≡ option_map (acc_with self.now.window) (map_of.get self.now.totals pane.now) }
        ensures part { IfSome result (λ a. IsPartOf self.now.window (record { pane = pane.now; acc = a })) }
    {
        pane_total(&self.spans, self.places.window(), pane)
    }

    /// Brings a record in in a pane where nothing stands, of a window that begins before `from`. Where no memory is to
    /// be had, what stands in the panes is as it was.
    pub fn put_first(&mut self, pane: Pane, batch: &Batch, row: usize) -> Result<(), AllocError>
        requires row_in { row < length batch.now.rows }
        requires window { CanAggregate batch.now.width self.old.window }
        requires start { IsStart pane.start }
        requires before { pane.start <ℤ self.old.from }
        requires absent { map_of.get self.old.totals pane ≡ None }
        ensures put { OnOk result ((q : PaneValue) → map_of.get self.new.totals q
            ≡ (if is_pane pane q then aggregate_of self.old.window.aggregates (slice_index_or batch.now.rows row [] ∷ []) else map_of.get self.old.totals q)) }
        ensures err { OnErr result (self.new ≡ self.old) }
        ensures window_stays { self.new.window ≡ self.old.window }
        ensures from_stays { self.new.from ≡ self.old.from }
    {
        open_pane(self.alloc, &mut self.opened, pane)?;
        self.places.push_first(pane, batch, row)?;
        Ok(())
    }

    /// The same as `add_to_slice` of a record whose last window begins at `from` or later and has its time, where the
    /// slice may have to be made first.
    fn begin_slice(&mut self, batch: &Batch, row: usize, first: u64) -> Result<(), AllocError>
        requires row_in { row < length batch.now.rows }
        requires window { CanAggregate batch.now.width self.old.window }
        requires time { IsTime (at self.old.window.time (slice_index_or batch.now.rows row [])) }
        requires rest { int_rem_euclid (at self.old.window.time (slice_index_or batch.now.rows row []) -ℤ self.old.window.offset) self.old.window.slide ≡ pos first }
        requires late { int_lt (at self.old.window.time (slice_index_or batch.now.rows row []) -ℤ pos first) self.old.from ≡ false }
        requires long { int_le self.old.window.size (pos first) ≡ false }
        requires room { HasRoomFor self.old.window (slice_index_or batch.now.rows row [] ∷ []) self.old.totals }
        ensures window_stays { self.new.window ≡ self.old.window }
        ensures from_stays { self.new.from ≡ self.old.from }
        ensures added { OnOk result (TakesInLater (slice_index_or batch.now.rows row []) self.old self.new) }
    {
        let w = self.places.window();
        let time = batch.value(row, w.time as usize);
        let key = batch.value(row, w.key as usize);
        let start = time - first as i64;
        let slices = slices_in(&self.spans, span_of(w, start), key);
        open_new(
            self.alloc,
            &mut self.opened,
            w,
            self.from,
            Pane { start: time, key },
            first,
            slices,
        )?;
        add_in_span(
            self.alloc,
            self.keys,
            &mut self.spans,
            w,
            Pane { start, key },
            batch,
            row,
        )?;
        Ok(())
    }

    /// Brings a record in at the slice of its time: at each window of its time that begins at `from` or later. The last
    /// window of its time begins `first` before it.
    pub fn add_to_slice(&mut self, batch: &Batch, row: usize, first: u64) -> Result<(), AllocError>
        requires row_in { row < length batch.now.rows }
        requires window { CanAggregate batch.now.width self.old.window }
        requires time { IsTime (at self.old.window.time (slice_index_or batch.now.rows row [])) }
        requires rest { int_rem_euclid (at self.old.window.time (slice_index_or batch.now.rows row []) -ℤ self.old.window.offset) self.old.window.slide ≡ pos first }
        requires room { HasRoomFor self.old.window (slice_index_or batch.now.rows row [] ∷ []) self.old.totals }
        ensures window_stays { self.new.window ≡ self.old.window }
        ensures from_stays { self.new.from ≡ self.old.from }
        ensures added { OnOk result (TakesInLater (slice_index_or batch.now.rows row []) self.old self.new) }
    {
        let w = self.places.window();
        let time = batch.value(row, w.time as usize);
        let last = time - first as i64;
        if (last as i128) < self.from || w.size <= time - last {
            return Ok(());
        }
        let key = batch.value(row, w.key as usize);
        // The slide divides the size, so that a slice starts where a window does. Mostly it is there, and so its
        // windows are open.
        let slice = Pane { start: last, key };
        if add_to_slice(&mut self.spans, w, slice, batch, row) {
            return Ok(());
        }
        self.begin_slice(batch, row, first)
    }
}

/// From where on the windows of an operator are made of slices, where nothing stands in any.
fn earliest_from(w: &WindowSpec) -> i128
    requires { IsOperator w.now }
    ensures { AreWhole w.now result }
{
    if w.size.rem_euclid(w.slide) != 0 || w.size / w.slide < FEWEST_WINDOWS {
        NOWHERE
    } else {
        i64::MIN as i128
    }
}

/// The same, where parts stand in some already.
fn first_from(w: &WindowSpec, parts: &PackedParts) -> i128
    requires operator { IsOperator w.now }
    ensures parts { All (λ part. part.pane.start <ℤ result) parts.now }
    ensures whole { AreWhole w.now result }
{
    let mut from = earliest_from(w);
    for i in 0..parts.len() {
        from = from.max(parts.entry(i).pane.start as i128 + 1);
    }
    from
}

/// Numbers as those of a row.
fn numbers_of(alloc: Global, numbers: &[i128]) -> Result<Numbers, AllocError>
    ensures { IfOk result (λ made. made ≡ numbers.now) }
{
    let mut made = Numbers::new();
    for number in numbers {
        made.push(alloc, *number)?;
    }
    Ok(made)
}

/// What stands in the panes of the parts. Room is made for all of them first.
fn places_of(
    alloc: Global,
    keys: HashKeys,
    window: WindowSpec,
    parts: &PackedParts,
) -> Result<Places, AllocError>
    requires operator { IsOperator window }
    requires parts { All (IsPartOf window) parts.now }
    ensures window { IfOk result (λ places. places.window ≡ window) }
    ensures first { IfOk result (λ places. (q : PaneValue) → acc_at places.entries q ≡ acc_at (accs_in parts.now) q) }
{
    let mut places = Places::with_capacity(alloc, keys, window, parts.len())?;
    for i in 0..parts.len() {
        places.put_entry(parts.entry(i))?;
    }
    Ok(places)
}

/// The panes of the parts, by their starts.
fn open_of(alloc: Global, parts: &PackedParts) -> Result<OpenPanes, AllocError>
    ensures { IfOk result (λ opened. (q : PaneValue) → has_open opened.entries q ≡ has_pane (panes_in parts.now) q) }
{
    let mut opened = BTreeMap::new(alloc);
    for i in 0..parts.len() {
        open_pane(alloc, &mut opened, parts.entry(i).pane)?;
    }
    Ok(opened)
}
