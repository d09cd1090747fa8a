//! What stands in the panes of a key group, in little memory.

ghost use Rattle.std.specs.Prelude.{◌≡◌, ◌<◌, ◌++◌, ◌∷◌, [], length, slice_get, Some, OnOk, OnErr, IfOk};
ghost use Rattle.std.specs.List.{All};

use crate::numbers::{NumberList, Numbers};
use plan_model::Pane;
use std::alloc::{AllocError, Global};
use std::marker::Model;

/// An entry but for its numbers.
#[derive(Clone, Copy, Debug)]
struct Head {
    pane: Pane,
    count: u64,
}

/// What the records of a pane come to: how many there are, and a number for each aggregate.
#[derive(Clone, Copy, Debug)]
pub struct Entry<'a> {
    pub pane: Pane,
    pub count: u64,
    pub numbers: Numbers<'a>,
}

/// Entries in order, with as many numbers each. They take no more memory than their bytes in a savepoint.
#[derive(Debug)]
pub struct Entries {
    alloc: Global,
    width: usize,
    heads: Vec<Head>,
    numbers: NumberList,
}

// By hand, since a proof goes over a derived drop field by field.
impl Drop for Entries {
    fn drop(self) {
        let Entries {
            alloc: _,
            width: _,
            heads: _,
            numbers: _,
        } = self;
    }
}

impl Model for Entries {
    ghost use Rattle.savepoint_codec.specs.EntriesData.{EntriesData};
    ghost use Rattle.savepoint_codec.specs.EntriesView.{entries_view, IsEntriesInside};

    ghost Value = { EntriesData };

    ghost view = { entries_view };

    ghost invariant = { IsEntriesInside };
}

impl Entries {
    ghost use Rattle.savepoint_codec.specs.EntriesView.{entry_data};
    ghost use Rattle.savepoint_codec.specs.Numbers.{numbers_of};

    /// No entries, each with so many numbers.
    pub fn new(alloc: Global, width: usize) -> Entries
        ensures { result ≡ record { width = width; entries = [] } }
    {
        Entries {
            alloc,
            width,
            heads: Vec::new(alloc),
            numbers: NumberList::new(alloc),
        }
    }

    /// Makes room for so many entries more.
    ///
    /// # Errors
    ///
    /// Only where memory runs out.
    pub fn reserve(&mut self, additional: usize) -> Result<(), AllocError>
        ensures { self.new ≡ self.old }
    {
        self.heads.reserve_exact(additional)?;
        self.numbers.reserve(additional.saturating_mul(self.width))
    }

    /// One entry more, after those that are there.
    ///
    /// # Errors
    ///
    /// Only where memory runs out; then all is as it was.
    pub fn push(&mut self, entry: Entry<'_>) -> Result<(), AllocError>
        requires { length (numbers_of entry.numbers) ≡ self.old.width }
        ensures ok { OnOk result (self.new ≡ record self.old { entries = self.old.entries ++ entry_data entry.entry ∷ [] }) }
        ensures err { OnErr result (self.new ≡ self.old) }
    {
        self.heads.reserve(1)?;
        self.numbers.extend(self.alloc, entry.numbers)?;
        self.heads.push_reserved(Head {
            pane: entry.pane,
            count: entry.count,
        });
        Ok(())
    }

    /// More entries, after those that are there.
    ///
    /// # Errors
    ///
    /// Only where memory runs out; then all is as it was.
    pub fn append(&mut self, more: &Entries) -> Result<(), AllocError>
        requires { All (λ e. length e.total.numbers ≡ self.old.width) more.now.entries }
        ensures ok { OnOk result (self.new ≡ record self.old { entries = self.old.entries ++ more.now.entries }) }
        ensures err { OnErr result (self.new ≡ self.old) }
    {
        self.heads.reserve(more.heads.len())?;
        self.numbers.extend(self.alloc, more.numbers.all())?;
        self.heads.extend_from_slice(&more.heads)
    }

    /// The same entries again.
    ///
    /// # Errors
    ///
    /// Only where memory runs out.
    pub fn copy(&self, alloc: Global) -> Result<Entries, AllocError>
        ensures { IfOk result (λ copied. copied ≡ self.now) }
    {
        let mut copied = Entries::new(alloc, self.width);
        copied.append(self)?;
        Ok(copied)
    }

    /// How many entries there are.
    pub fn len(&self) -> usize
        ensures { result ≡ length self.now.entries }
    {
        self.heads.len()
    }

    /// Entry i, counted from 0.
    pub fn entry(&self, i: usize) -> Entry<'_>
        requires { i < length self.now.entries }
        ensures { slice_get self.now.entries i ≡ Some (entry_data result) }
    {
        let head = self.heads[i];
        Entry {
            pane: head.pane,
            count: head.count,
            numbers: self.numbers.part(i * self.width, self.width),
        }
    }
}
