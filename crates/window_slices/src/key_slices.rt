//! Slices of time: what the records of a key come to between two cuts. Time is cut where a window starts and where one
//! ends.

ghost use Rattle.std.specs.Prelude.{◌≡◌, ◌⊎◌, ℤ, pos, true, false, ◌<◌, ◌≤◌, ◌<ℤ◌, ◌≤ℤ◌, ◌-ℤ◌, [], map, length, slice_index_or, Some, OnOk, OnErr, IfSome, IfNone};
ghost use Rattle.std.specs.List.{All, HoldsAt};
ghost use Rattle.std.specs.Int.{int_rem_euclid};
ghost use Rattle.std.specs.Option.{option_map};
ghost use Rattle.plan_model.specs.declared.limits.TheConstants.{MOST_AGGREGATES};
ghost use Rattle.plan_model.specs.PlanData.{has_column};
ghost use Rattle.plan_model.specs.Windows as times;
ghost use Rattle.plan_model.specs.Aggregates.{merge};
ghost use Rattle.aggregates.specs.Kinds.{kind_of};
ghost use Rattle.window_slices.specs.KeySlices.{IsSliceOf, AreSlices, CanTakeOne, IsCounted, IsUpTo, IsFrom, TakesOne, PanesTakeOne, acc_with, has_start, slices_of, slices_total, sliced, total_of};

use aggregates::Acc;
use columns::Batch;
use indexmap::IndexMap;
use pane_hashes::HashKeys;
use plan_model::{Pane, WindowSpec};
use std::alloc::{AllocError, Global};

/// What the records of one slice of time and one key come to.
#[derive(Clone, Copy, Debug)]
pub struct Slice {
    /// Where it starts.
    pub start: i64,
    /// What the records come to.
    pub acc: Acc,
}

/// The slices of each key, in the order in which they came. A key's hash is that of a pane with one number.
pub type Slices = IndexMap<i64, Vec<Slice>, HashKeys>;

/// Whether the window that begins at `start` has a time.
fn is_within(w: &WindowSpec, start: i64, time: i64) -> bool
    ensures { result ≡ times.is_within w.now start time }
{
    start <= time && (time as i128) < start as i128 + w.size as i128
}

/// How far a number is behind the last of the numbers that lie whole steps from `offset`.
pub(crate) fn rest_of(number: i64, offset: i64, step: i64) -> i64
    requires { pos 1 ≤ℤ step }
    ensures value { result ≡ int_rem_euclid (number -ℤ offset) step }
    ensures low { pos 0 ≤ℤ result }
    ensures high { result <ℤ step }
{
    // Numbers of 128 bits are divided by a function of many steps.
    match number.checked_sub(offset) {
        Some(past) => past.rem_euclid(step),
        None => (number as i128 - offset as i128).rem_euclid(step as i128) as i64,
    }
}

/// Whether a window of the operator begins at `start`.
pub(crate) fn is_start(w: &WindowSpec, start: i64) -> bool
    requires { pos 1 ≤ℤ w.now.slide }
    ensures { result ≡ times.is_start w.now start }
{
    rest_of(start, w.offset, w.slide) == 0
}

/// The place of the last slice that starts at `start`: a record's slice is mostly the last.
fn place_of(slices: &[Slice], start: i64) -> Option<usize>
    ensures there { IfSome result (λ i. (i < length slices.now) × HoldsAt (λ x. x.start ≡ start) slices.now i) }
    ensures none { IfNone result (has_start start slices.now ≡ false) }
{
    let mut place = slices.len();
    while place > 0 {
        place -= 1;
        if slices[place].start == start {
            return Some(place);
        }
    }
    None
}

/// The greater of a number and one that was found, of those that are less than `start`.
fn below(found: Option<i64>, number: i64, start: i64) -> Option<i64>
    ensures kept { IfSome found (λ other. IsUpTo result other) }
    ensures reached { number <ℤ start → IsUpTo result number }
    ensures one { IfSome result (λ b. (found ≡ Some b) ⊎ ((b ≡ number) × (b <ℤ start))) }
{
    if start <= number {
        return found;
    }
    match found {
        Some(other) if number <= other => found,
        _ => Some(number),
    }
}

/// The greatest start of a slice that is less than `start`.
pub fn start_below(slices: &[Slice], start: i64) -> Option<i64>
    ensures there { IfSome result (λ b. (b <ℤ start) × (has_start b slices.now ≡ true)) }
    ensures greatest { All (λ x. x.start <ℤ start → IsUpTo result x.start) slices.now }
{
    let mut found = None;
    for slice in slices {
        found = below(found, slice.start, start);
    }
    found
}

/// The lesser of a number and one that was found, of those that are more than `start`.
fn above(found: Option<i64>, number: i64, start: i64) -> Option<i64>
    ensures kept { IfSome found (λ other. IsFrom result other) }
    ensures reached { start <ℤ number → IsFrom result number }
    ensures one { IfSome result (λ b. (found ≡ Some b) ⊎ ((b ≡ number) × (start <ℤ b))) }
{
    if number <= start {
        return found;
    }
    match found {
        Some(other) if other <= number => found,
        _ => Some(number),
    }
}

/// The least start of a slice that is more than `start`.
pub fn start_above(slices: &[Slice], start: i64) -> Option<i64>
    ensures there { IfSome result (λ b. (start <ℤ b) × (has_start b slices.now ≡ true)) }
    ensures least { All (λ x. start <ℤ x.start → IsFrom result x.start) slices.now }
{
    let mut found = None;
    for slice in slices {
        found = above(found, slice.start, start);
    }
    found
}

/// The slices of a key.
pub(crate) fn slices_of_key(slices: &Slices, key: i64) -> &[Slice]
    ensures { result.now ≡ slices_of slices.now.entries key }
{
    match slices.get(&key) {
        Some(slices) => slices.as_slice(),
        None => &[],
    }
}

/// Brings a record in at the slice that starts at `start`, if there is one, and says whether there is.
fn add_there(slices: &mut Vec<Slice>, w: &WindowSpec, start: i64, batch: &Batch, row: usize) -> bool
    requires row_in { row < length batch.now.rows }
    requires columns_in { All (has_column batch.now.width) w.now.aggregates }
    requires few { length w.now.aggregates ≤ MOST_AGGREGATES }
    requires kinds { All (IsSliceOf w.now) slices.old.items }
    requires room { CanTakeOne start slices.old.items }
    ensures there { result ≡ has_start start slices.old.items }
    ensures added { result ≡ true → TakesOne w.now start (slice_index_or batch.now.rows row []) slices.old.items slices.new.items }
    ensures kinds { All (IsSliceOf w.now) slices.new.items }
    ensures same { result ≡ false → slices.new.items ≡ slices.old.items }
{
    match place_of(slices.as_slice(), start) {
        Some(place) => {
            slices.as_mut_slice()[place].acc.add(w, batch, row);
            true
        }
        None => false,
    }
}

/// Brings a record in at the slice that starts at `start`.
fn add_to(
    slices: &mut Vec<Slice>,
    w: &WindowSpec,
    start: i64,
    batch: &Batch,
    row: usize,
) -> Result<(), AllocError>
    requires row_in { row < length batch.now.rows }
    requires columns_in { All (has_column batch.now.width) w.now.aggregates }
    requires some { 1 ≤ length w.now.aggregates }
    requires few { length w.now.aggregates ≤ MOST_AGGREGATES }
    requires kinds { All (IsSliceOf w.now) slices.old.items }
    requires room { CanTakeOne start slices.old.items }
    ensures added { OnOk result (TakesOne w.now start (slice_index_or batch.now.rows row []) slices.old.items slices.new.items) }
    ensures kinds { All (IsSliceOf w.now) slices.new.items }
    ensures err { OnErr result (slices.new.items ≡ slices.old.items) }
{
    if add_there(slices, w, start, batch, row) {
        return Ok(());
    }
    let acc = Acc::first(w, batch, row);
    match slices.push(Slice { start, acc }) {
        Ok(()) => Ok(()),
        Err(_) => Err(AllocError),
    }
}

/// Brings a record in at the slice of its key that starts at `start`, if there is one, and says whether there is.
pub(crate) fn add_to_known(
    slices: &mut Slices,
    w: &WindowSpec,
    slice: Pane,
    batch: &Batch,
    row: usize,
) -> bool
    requires row_in { row < length batch.now.rows }
    requires columns_in { All (has_column batch.now.width) w.now.aggregates }
    requires few { length w.now.aggregates ≤ MOST_AGGREGATES }
    requires kinds { AreSlices w.now slices.old.entries }
    requires room { CanTakeOne slice.start (slices_of slices.old.entries slice.key) }
    ensures there { result ≡ has_start slice.start (slices_of slices.old.entries slice.key) }
    ensures added { result ≡ true → PanesTakeOne w.now slice (slice_index_or batch.now.rows row []) (sliced w.now slices.old.entries) (sliced w.now slices.new.entries) }
    ensures kinds { AreSlices w.now slices.new.entries }
    ensures same { result ≡ false → (k : ℤ) → slices_of slices.new.entries k ≡ slices_of slices.old.entries k }
{
    match slices.get_mut(&slice.key) {
        Some(slices) => add_there(slices, w, slice.start, batch, row),
        None => false,
    }
}

/// Brings a record in at the slice of its key that starts at `start`.
pub(crate) fn add_slice(
    alloc: Global,
    slices: &mut Slices,
    w: &WindowSpec,
    slice: Pane,
    batch: &Batch,
    row: usize,
) -> Result<(), AllocError>
    requires row_in { row < length batch.now.rows }
    requires columns_in { All (has_column batch.now.width) w.now.aggregates }
    requires some { 1 ≤ length w.now.aggregates }
    requires few { length w.now.aggregates ≤ MOST_AGGREGATES }
    requires kinds { AreSlices w.now slices.old.entries }
    requires room { CanTakeOne slice.start (slices_of slices.old.entries slice.key) }
    ensures added { OnOk result (PanesTakeOne w.now slice (slice_index_or batch.now.rows row []) (sliced w.now slices.old.entries) (sliced w.now slices.new.entries)) }
    ensures kinds { AreSlices w.now slices.new.entries }
    ensures err { OnErr result ((k : ℤ) → slices_of slices.new.entries k ≡ slices_of slices.old.entries k) }
{
    if let Some(slices) = slices.get_mut(&slice.key) {
        return add_to(slices, w, slice.start, batch, row);
    }
    // Most keys have few slices in a span where they have few records.
    let mut first = Vec::with_capacity(alloc, 1)?;
    add_to(&mut first, w, slice.start, batch, row)?;
    match slices.insert(slice.key, first) {
        Ok(_) => Ok(()),
        Err(_) => Err(AllocError),
    }
}

/// Merges the slices in the window that begins at `start` with what stands in `total`.
pub(crate) fn merge_slices(total: &mut Option<Acc>, slices: &[Slice], w: &WindowSpec, start: i64)
    requires kinds { All (IsSliceOf w.now) slices.now }
    requires own { IfSome total.old (λ a. a.kinds ≡ map kind_of w.now.aggregates) }
    requires few { IsCounted (merge w.now.aggregates (total_of total.old) (slices_total w.now start slices.now)) }
    ensures { total.new ≡ option_map (acc_with w.now) (merge w.now.aggregates (total_of total.old) (slices_total w.now start slices.now)) }
{
    for slice in slices {
        if is_within(w, start, slice.start) {
            match total {
                Some(acc) => Acc::merge(acc, &slice.acc),
                None => *total = Some(slice.acc),
            }
        }
    }
}
