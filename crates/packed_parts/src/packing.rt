//! Parts as they are packed.

ghost use Rattle.std.specs.Prelude.{◌≡◌, true, ◌<◌, ◌++◌, ◌∷◌, [], length, map, slice_get, Some, OnOk, OnErr, IfOk};
ghost use Rattle.std.specs.List.{All};
ghost use Rattle.aggregates.specs.Kinds.{is_entry, IsAcc};
ghost use Rattle.packed_parts.specs.Packing.{entry_of, part_of};
ghost use Rattle.savepoint_codec.specs.EntriesView.{entry_data};

use crate::part::Part;
use aggregates::{Acc, Kind};
use plan_model::MOST_AGGREGATES;
use savepoint_codec::{Entries, Entry, Numbers};
use std::alloc::{AllocError, Global};
use std::marker::Model;

/// Parts of the same kinds, which stand there once, packed one by one. A part takes 24 bytes, and 8 for each number
/// while all of them fit in 64 bits, else 16.
#[derive(Debug, Drop)]
pub struct Packing {
    kinds: Vec<Kind>,
    entries: Entries,
}

impl Model for Packing {
    ghost use Rattle.packed_parts.specs.Packing.{PackingData};
    ghost use Rattle.packed_parts.specs.PackingView.{packing_view, IsPackingInside};

    ghost Value = { PackingData };

    ghost view = { packing_view };

    ghost invariant = { IsPackingInside };
}

/// A part, put behind the entries as one more.
fn push_part(entries: &mut Entries, part: &Part) -> Result<(), AllocError>
    requires { length part.now.acc.kinds ≡ entries.old.width }
    ensures says { OnOk result (entries.new ≡ record entries.old { entries = entries.old.entries ++ entry_of part.now ∷ [] }) }
    ensures err { OnErr result (entries.new ≡ entries.old) }
    ensures sound { IsAcc part.now.acc }
{
    entries.push(Entry {
        pane: part.pane,
        count: part.acc.count(),
        numbers: Numbers::Wide(part.acc.numbers()),
    })
}

/// An entry of these kinds, as a part.
fn part_in(kinds: &[Kind], entry: Entry<'_>) -> Part
    requires { IsAcc (part_of kinds.now (entry_data entry)).acc }
    ensures { result ≡ part_of kinds.now (entry_data entry.entry) }
{
    let mut room = [0; MOST_AGGREGATES];
    let numbers = &mut room[..kinds.len()];
    entry.numbers.copy_to(numbers);
    Part {
        pane: entry.pane,
        acc: Acc::of(kinds, entry.count, numbers),
    }
}

impl Packing {
    /// No parts, of these kinds.
    pub fn new(alloc: Global, kinds: Vec<Kind>) -> Packing
        ensures { result ≡ record { kinds = kinds.items; parts = [] } }
    {
        let entries = Entries::new(alloc, kinds.len());
        Packing { kinds, entries }
    }

    /// Makes room for so many parts more.
    ///
    /// # Errors
    ///
    /// Only where memory runs out.
    pub fn reserve(&mut self, additional: usize) -> Result<(), AllocError>
        ensures { self.new ≡ self.old }
    {
        self.entries.reserve(additional)
    }

    /// The kinds of the parts.
    pub fn kinds(&self) -> &[Kind]
        ensures { result.now ≡ self.now.kinds }
    {
        self.kinds.as_slice()
    }

    /// How many parts there are.
    pub fn len(&self) -> usize
        ensures { result ≡ length self.now.parts }
    {
        self.entries.len()
    }

    /// Part i, counted from 0.
    pub fn part(&self, i: usize) -> Part
        requires { i < length self.now.parts }
        ensures is { slice_get self.now.parts i ≡ Some result }
        ensures kinds { result.acc.kinds ≡ self.now.kinds }
    {
        part_in(&self.kinds, self.entries.entry(i))
    }

    /// Part i, counted from 0, as it is packed.
    pub fn entry(&self, i: usize) -> Entry<'_>
        requires { i < length self.now.parts }
        ensures is { slice_get (map entry_of self.now.parts) i ≡ Some (entry_data result) }
        ensures sound { All (λ part. IsAcc part.acc) self.now.parts }
    {
        self.entries.entry(i)
    }

    /// One part more, after those that are there.
    ///
    /// # Errors
    ///
    /// Only where memory runs out; then all is as it was.
    pub fn push(&mut self, part: &Part) -> Result<(), AllocError>
        requires { part.now.acc.kinds ≡ self.old.kinds }
        ensures ok { OnOk result (self.new ≡ record self.old { parts = self.old.parts ++ part.now ∷ [] }) }
        ensures err { OnErr result (self.new ≡ self.old) }
    {
        push_part(&mut self.entries, part)
    }

    /// One part more, after those that are there: an entry of their kinds, as it is packed.
    ///
    /// # Errors
    ///
    /// Only where memory runs out; then all is as it was.
    pub fn push_entry(&mut self, entry: Entry<'_>) -> Result<(), AllocError>
        requires { IsAcc (part_of self.old.kinds (entry_data entry)).acc }
        ensures ok { OnOk result (self.new ≡ record self.old { parts = self.old.parts ++ part_of self.old.kinds (entry_data entry.entry) ∷ [] }) }
        ensures err { OnErr result (self.new ≡ self.old) }
    {
        self.entries.push(entry)?;
        Ok(())
    }

    /// More parts, after those that are there: entries of their kinds.
    ///
    /// # Errors
    ///
    /// Only where memory runs out; then all is as it was.
    pub fn append(&mut self, entries: &Entries) -> Result<(), AllocError>
        requires { All (λ e. is_entry self.old.kinds e.total.count e.total.numbers ≡ true) entries.now.entries }
        ensures ok { OnOk result (self.new ≡ record self.old { parts = self.old.parts ++ map (part_of self.old.kinds) entries.now.entries }) }
        ensures err { OnErr result (self.new ≡ self.old) }
    {
        self.entries.append(entries)?;
        Ok(())
    }

    /// The same again.
    ///
    /// # Errors
    ///
    /// Only where memory runs out.
    pub fn copy(&self, alloc: Global) -> Result<Packing, AllocError>
        ensures { IfOk result (λ copied. copied ≡ self.now) }
    {
        Ok(Packing {
            kinds: Vec::from_slice(alloc, self.kinds.as_slice())?,
            entries: self.entries.copy(alloc)?,
        })
    }
}
