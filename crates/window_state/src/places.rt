//! The places of panes.

ghost use Rattle.std.specs.Prelude.{◌≡◌, ℕ, true, false, pos, ◌+◌, ◌++◌, ◌∷◌, [], ◌^◌, ◌<◌, ◌≤◌, ◌*◌, ◌&&◌, length, map, replicate, slice_index_or, IfOk, IfSome, IfNone, not, OnOk, OnErr, Some, None, is_some, if◌then◌else◌};
ghost use Rattle.std.specs.List.{All, IsDistinct, list_any};
ghost use Rattle.std.specs.List.Sorted.{IsStrictlySortedBy};
ghost use Rattle.std.specs.Option.{option_map, option_or};
ghost use Rattle.std.specs.Ordering.{int_eq};
ghost use Rattle.plan_model.specs.declared.spec.Pane.{Pane as PaneValue};
ghost use Rattle.plan_model.specs.Aggregates.{aggregate_of, merge};
ghost use Rattle.plan_model.specs.Rows.{aggregate_at, pane_cmp};
ghost use Rattle.aggregates.specs.Kinds.{AccData, IsAcc, kind_of};
ghost use Rattle.savepoint_codec.specs.EntriesView.{entry_data};
ghost use Rattle.packed_parts.specs.Packing.{part_of};
ghost use Rattle.window_state.specs.Windows.{acc_at, has_pane, is_pane, total_at, CanAggregate, IsOperator, IsStart};
ghost use Rattle.window_state.specs.Open.{has_key};
ghost use Rattle.window_state.specs.Parts.{IsPartOf};
ghost use Rattle.window_state.specs.Placing.{last_pane, panes_placed, records_placed, HasWordsAt, IsPlaceIn};
ghost use Rattle.window_state.specs.State.{HasRoom};

use columns::Batch;
use indexmap::IndexSet;
use packed_parts::Packing;
use pane_hashes::HashKeys;
use place_words::{
    PlacedRow, add_record, add_rows, copy_narrow, copy_numbers, row_numbers_at, stride_of,
    write_entry, write_first,
};
use plan_model::{MOST_AGGREGATES, Numbers, Pane, WindowSpec};
use savepoint_codec::{Entry, Numbers as EntryNumbers};
use std::alloc::{AllocError, Global};
use std::marker::Model;

/// A pane that has a place, and how many places come before that.
#[derive(Clone, Copy)]
pub(crate) struct Placed {
    pub pane: Pane,
    pub place: usize,
}

/// What stands in panes, in one list of words: a pane has a place, and a place has as many words as the
/// operator's aggregates need. So a pane takes no more memory than its numbers do, and its index.
#[derive(Drop)]
pub(crate) struct Places {
    window: WindowSpec,
    stride: usize,
    panes: IndexSet<Pane, HashKeys>,
    words: Vec<i64>,
}

impl Model for Places {
    ghost use Rattle.window_state.specs.Places.{PlacesData};

    ghost Value = { PlacesData };

    ghost use Rattle.window_state.specs.PlacesView.{places_view, IsPlacesInside};

    ghost view = { places_view };

    ghost invariant = { IsPlacesInside };
}

impl Places {
    /// No places of the operator. Their panes will be hashed by the keys.
    pub fn new(alloc: Global, keys: HashKeys, window: WindowSpec) -> Places
        requires { IsOperator window }
        ensures { result ≡ record { window = window; entries = [] } }
    {
        let stride = stride_of(window.aggregates.as_slice());
        Places {
            window,
            stride,
            panes: IndexSet::with_hasher(alloc, keys),
            words: Vec::new(alloc),
        }
    }

    /// The same, with room for so many places.
    pub fn with_capacity(
        alloc: Global,
        keys: HashKeys,
        window: WindowSpec,
        n: usize,
    ) -> Result<Places, AllocError>
        requires { IsOperator window }
        ensures { IfOk result (λ places. places ≡ record { window = window; entries = [] }) }
    {
        let stride = stride_of(window.aggregates.as_slice());
        let panes = IndexSet::with_capacity_and_hasher(alloc, n, keys)?;
        let words = Vec::with_capacity(alloc, n.saturating_mul(stride))?;
        Ok(Places {
            window,
            stride,
            panes,
            words,
        })
    }

    /// The window operator.
    pub fn window(&self) -> &WindowSpec
        ensures { result.now ≡ self.now.window }
    {
        &self.window
    }

    /// Whether a quarter of the places that there is memory for are taken.
    pub fn is_filled(&self) -> bool {
        self.panes.capacity() / 4 <= self.panes.len()
    }

    /// The number of each aggregate in a pane, if it has a place.
    pub fn numbers(&self, alloc: Global, pane: &Pane) -> Result<Option<Numbers>, AllocError>
        ensures numbers { IfOk result (λ found. found ≡ option_map (λ (a : AccData). a.total.numbers) (acc_at self.now.entries pane.now)) }
        ensures start { IfOk result (λ found. IfSome found (λ numbers. IsStart pane.now.start)) }
        ensures operator { IfOk result (λ found. IsOperator self.now.window) }
    {
        let Some(place) = self.panes.get_index_of(pane) else {
            return Ok(None);
        };
        let at = place * self.stride;
        let count = self.words[at] as u64;
        let aggregates = self.window.aggregates.as_slice();
        let numbers = row_numbers_at(alloc, self.words.as_slice(), at + 1, aggregates, count)?;
        Ok(Some(numbers))
    }

    /// The panes that have a place, in order, each with its place.
    pub fn in_order(&self, alloc: Global) -> Result<Vec<Placed>, AllocError>
        ensures ordered { IfOk result (λ placed. IsStrictlySortedBy pane_cmp (panes_placed placed.items)) }
        ensures those { IfOk result (λ placed. (q : PaneValue) → has_pane (panes_placed placed.items) q ≡ is_some (acc_at self.now.entries q)) }
        ensures places { IfOk result (λ placed. All (IsPlaceIn self.now.entries) placed.items) }
    {
        let mut placed = Vec::with_capacity(alloc, self.panes.len())?;
        for (place, pane) in self.panes.as_slice().iter().enumerate() {
            placed.push(Placed { pane: *pane, place })?;
        }
        placed.sort_unstable_by_key(|it| it.pane);
        Ok(placed)
    }

    /// Puts what stands in a place behind the parts.
    pub fn push_part(&self, parts: &mut Packing, placed: Placed) -> Result<(), AllocError>
        requires kinds { parts.old.kinds ≡ map kind_of self.now.window.aggregates }
        requires place { IsPlaceIn self.now.entries placed }
        ensures pushed { OnOk result ((a : AccData) → acc_at self.now.entries placed.pane ≡ Some a
            → parts.new ≡ record parts.old { parts = parts.old.parts ++ record { pane = placed.pane; acc = a } ∷ [] }) }
        ensures err { OnErr result (parts.new ≡ parts.old) }
        ensures there { is_some (acc_at self.now.entries placed.pane) ≡ true }
        ensures sound { (a : AccData) → acc_at self.now.entries placed.pane ≡ Some a → IsPartOf self.now.window (record { pane = placed.pane; acc = a }) }
    {
        let at = placed.place * self.stride;
        let count = self.words[at] as u64;
        let aggregates = self.window.aggregates.as_slice();
        let mut room = [0; MOST_AGGREGATES];
        let numbers = &mut room[..aggregates.len()];
        if copy_narrow(self.words.as_slice(), at + 1, aggregates, count, numbers) {
            return parts.push_entry(Entry {
                pane: placed.pane,
                count,
                numbers: EntryNumbers::Narrow(numbers),
            });
        }
        self.push_wide(parts, placed)
    }

    /// The same of numbers of which one does not fit in 64 bits, or of any.
    fn push_wide(&self, parts: &mut Packing, placed: Placed) -> Result<(), AllocError>
        requires kinds { parts.old.kinds ≡ map kind_of self.now.window.aggregates }
        requires place { IsPlaceIn self.now.entries placed }
        ensures pushed { OnOk result ((a : AccData) → acc_at self.now.entries placed.pane ≡ Some a
            → parts.new ≡ record parts.old { parts = parts.old.parts ++ record { pane = placed.pane; acc = a } ∷ [] }) }
        ensures err { OnErr result (parts.new ≡ parts.old) }
        ensures there { is_some (acc_at self.now.entries placed.pane) ≡ true }
        ensures sound { (a : AccData) → acc_at self.now.entries placed.pane ≡ Some a → IsPartOf self.now.window (record { pane = placed.pane; acc = a }) }
    {
        let first = placed.place * self.stride;
        let count = self.words[first] as u64;
        let aggregates = self.window.aggregates.as_slice();
        let mut room = [0; MOST_AGGREGATES];
        let numbers = &mut room[..aggregates.len()];
        copy_numbers(self.words.as_slice(), first + 1, aggregates, count, numbers);
        parts.push_entry(Entry {
            pane: placed.pane,
            count,
            numbers: EntryNumbers::Wide(numbers),
        })
    }

    /// Brings a record in, if the pane has a place, and says whether it has one.
    pub fn add(&mut self, pane: &Pane, batch: &Batch, row: usize) -> bool
        requires row_in { row < length batch.now.rows }
        requires window { CanAggregate batch.now.width self.old.window }
        requires room { (a : AccData) → acc_at self.old.entries pane.now ≡ Some a → a.total.count < 2 ^ 41 }
        ensures window_stays { self.new.window ≡ self.old.window }
        ensures found { result ≡ is_some (acc_at self.old.entries pane.now) }
        ensures added { result ≡ true → (q : PaneValue) → total_at self.new.entries q
            ≡ (if is_pane pane.now q then merge self.old.window.aggregates (total_at self.old.entries q) (aggregate_of self.old.window.aggregates (slice_index_or batch.now.rows row [] ∷ []))
            else total_at self.old.entries q) }
        ensures panes { (q : PaneValue) → is_some (acc_at self.new.entries q) ≡ is_some (acc_at self.old.entries q) }
        ensures none { result ≡ false → self.new ≡ self.old }
    {
        let Some(place) = self.panes.get_index_of(pane) else {
            return false;
        };
        let at = place * self.stride;
        let aggregates = self.window.aggregates.as_slice();
        add_record(self.words.as_mut_slice(), at, aggregates, batch, row);
        true
    }

    /// Where the words of a pane's place begin, if it has one.
    pub fn words_at(&self, pane: &Pane) -> Option<usize>
        ensures there { is_some result ≡ is_some (acc_at self.now.entries pane.now) }
        ensures at { IfSome result (HasWordsAt self.now pane.now) }
    {
        let Some(place) = self.panes.get_index_of(pane) else {
            return None;
        };
        Some(place * self.stride)
    }

    /// Brings rows of a batch in, each in the one window of its time, where windows are as long as their slide. A row
    /// names where the words of its pane's place begin.
    pub fn add_rows(&mut self, rows: &[PlacedRow], batch: &Batch)
        requires rows_in { All (λ r. r.row < length batch.now.rows) rows.now }
        requires window { CanAggregate batch.now.width self.old.window }
        requires one { self.old.window.slide ≡ self.old.window.size }
        requires places { All (λ r. HasWordsAt self.old (last_pane self.old.window (slice_index_or batch.now.rows r.row [])) r.at) rows.now }
        requires room { HasRoom self.old.window (records_placed batch.now.rows rows.now) (total_at self.old.entries) }
        ensures window_stays { self.new.window ≡ self.old.window }
        ensures added { (q : PaneValue) → total_at self.new.entries q ≡ merge self.old.window.aggregates (total_at self.old.entries q) (aggregate_at self.old.window (records_placed batch.now.rows rows.now) q) }
        ensures panes { (q : PaneValue) → is_some (acc_at self.new.entries q) ≡ is_some (acc_at self.old.entries q) }
    {
        let aggregates = self.window.aggregates.as_slice();
        add_rows(self.words.as_mut_slice(), rows, aggregates, batch);
    }

    /// Gives a pane a place, and brings a record in.
    pub fn push_first(&mut self, pane: Pane, batch: &Batch, row: usize) -> Result<(), AllocError>
        requires row_in { row < length batch.now.rows }
        requires window { CanAggregate batch.now.width self.old.window }
        requires start { IsStart pane.start }
        requires absent { acc_at self.old.entries pane ≡ None }
        ensures window_stays { self.new.window ≡ self.old.window }
        ensures added { OnOk result ((q : PaneValue) → total_at self.new.entries q
            ≡ (if is_pane pane q then aggregate_of self.old.window.aggregates (slice_index_or batch.now.rows row [] ∷ []) else total_at self.old.entries q)) }
        ensures panes { OnOk result ((q : PaneValue) → is_some (acc_at self.new.entries q) ≡ (if is_pane pane q then true else is_some (acc_at self.old.entries q))) }
        ensures words { OnOk result ((q : PaneValue) (x : ℕ) → HasWordsAt self.old q x → HasWordsAt self.new q x) }
        ensures err { OnErr result (self.new ≡ self.old) }
    {
        let at = push_place(&mut self.panes, &mut self.words, self.stride, pane)?;
        let aggregates = self.window.aggregates.as_slice();
        write_first(self.words.as_mut_slice(), at, aggregates, batch, row);
        Ok(())
    }

    /// Gives the pane of an entry a place, and puts there what the entry says. Where it has one, all stays as it is.
    pub fn put_entry(&mut self, entry: Entry<'_>) -> Result<(), AllocError>
        requires start { IsStart entry.pane.start }
        requires sound { IsAcc (part_of (map kind_of self.old.window.aggregates) (entry_data entry)).acc }
        ensures window_stays { self.new.window ≡ self.old.window }
        ensures put { OnOk result ((q : PaneValue) → acc_at self.new.entries q
            ≡ option_or (acc_at self.old.entries q) (if is_pane entry.entry.pane q then Some (part_of (map kind_of self.old.window.aggregates) (entry_data entry.entry)).acc else None)) }
        ensures err { OnErr result (self.new ≡ self.old) }
    {
        let Some(at) = new_place(&mut self.panes, &mut self.words, self.stride, entry.pane)? else {
            return Ok(());
        };
        let aggregates = self.window.aggregates.as_slice();
        let words = self.words.as_mut_slice();
        write_entry(words, at, aggregates, entry.count, entry.numbers);
        Ok(())
    }

    /// Takes a pane's place. The words of the last place move there.
    pub fn remove(&mut self, pane: &Pane)
        ensures window_stays { self.new.window ≡ self.old.window }
        ensures taken { (q : PaneValue) → acc_at self.new.entries q ≡ (if is_pane pane.now q then None else acc_at self.old.entries q) }
    {
        if let Some((place, _)) = self.panes.swap_remove_full(pane) {
            let last = self.words.len() - self.stride;
            let words = self.words.as_mut_slice();
            words.copy_within(last.., place * self.stride);
            self.words.truncate(last);
        }
    }

    /// Takes the places of keys at a start.
    pub fn remove_keys(&mut self, start: i64, keys: &[i64])
        ensures window_stays { self.new.window ≡ self.old.window }
        ensures taken { (q : PaneValue) → acc_at self.new.entries q ≡ (if int_eq q.start start && has_key q.key keys.now then None else acc_at self.old.entries q) }
    {
        for key in keys {
            self.remove(&Pane { start, key: *key });
        }
    }

    /// Takes all places.
    pub fn clear(&mut self)
        ensures { self.new ≡ record self.old { entries = [] } }
    {
        self.panes.clear();
        self.words.clear();
    }
}

/// Gives a pane the place after the last, with so many words, and says where they begin.
fn push_place(
    panes: &mut IndexSet<Pane, HashKeys>,
    words: &mut Vec<i64>,
    stride: usize,
    pane: Pane,
) -> Result<usize, AllocError>
    requires absent { list_any (is_pane pane) panes.old.keys ≡ false }
    requires small { stride ≤ 17 }
    ensures at { IfOk result (λ at. at ≡ length words.old.items) }
    ensures panes { OnOk result (panes.new.keys ≡ panes.old.keys ++ pane ∷ []) }
    ensures unique { OnOk result (IsDistinct is_pane panes.new.keys) }
    ensures words { OnOk result (words.new.items ≡ words.old.items ++ replicate stride (pos 0)) }
    ensures panes_err { OnErr result (panes.new.keys ≡ panes.old.keys) }
    ensures words_err { OnErr result (words.new.items ≡ words.old.items) }
{
    let at = words.as_slice().len();
    words.resize(at + stride, 0)?;
    match panes.insert(pane) {
        Ok(_) => Ok(at),
        Err(_) => {
            words.truncate(at);
            Err(AllocError)
        }
    }
}

/// The same, where it has no place yet. Where it has one nothing changes.
fn new_place(
    panes: &mut IndexSet<Pane, HashKeys>,
    words: &mut Vec<i64>,
    stride: usize,
    pane: Pane,
) -> Result<Option<usize>, AllocError>
    requires small { stride ≤ 17 }
    ensures absent { IfOk result (λ new. is_some new ≡ not (list_any (is_pane pane) panes.old.keys)) }
    ensures at { IfOk result (λ new. IfSome new (λ at. at ≡ length words.old.items)) }
    ensures panes { IfOk result (λ new. IfSome new (λ at. panes.new.keys ≡ panes.old.keys ++ pane ∷ [])) }
    ensures unique { IfOk result (λ new. IsDistinct is_pane panes.new.keys) }
    ensures words { IfOk result (λ new. IfSome new (λ at. words.new.items ≡ words.old.items ++ replicate stride (pos 0))) }
    ensures panes_stay { IfOk result (λ new. IfNone new (panes.new.keys ≡ panes.old.keys)) }
    ensures words_stay { IfOk result (λ new. IfNone new (words.new.items ≡ words.old.items)) }
    ensures panes_err { OnErr result (panes.new.keys ≡ panes.old.keys) }
    ensures words_err { OnErr result (words.new.items ≡ words.old.items) }
{
    let end = words.as_slice().len();
    words.resize(end + stride, 0)?;
    let is_new = panes.insert(pane);
    if !matches!(is_new, Ok(true)) {
        words.truncate(end);
    }
    match is_new {
        Ok(true) => Ok(Some(end)),
        Ok(false) => Ok(None),
        Err(_) => Err(AllocError),
    }
}
