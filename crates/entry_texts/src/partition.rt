//! The text of a partition, as its rows come.

use crate::writing::{end_partition, put_row};
use import_entries::{EntryRule, PlaceFault, Progress};
use std::alloc::{AllocError, Global};

/// Why a row is not put.
#[derive(Clone, Copy, Debug, PartialEq, Eq)]
pub enum PutFault {
    /// It goes nowhere.
    Place(PlaceFault),
    /// No memory was to be had.
    Memory,
}

impl From<PlaceFault> for PutFault {
    ghost use Rattle.std.specs.Prelude.{◌≡◌};
    ghost use Rattle.entry_texts.specs.declared.partition.PutFault.TheVariants.{Place};

    ghost from_gives = { λ fault e. e ≡ Place fault };

    fn from(fault: PlaceFault) -> PutFault {
        PutFault::Place(fault)
    }
}

impl From<AllocError> for PutFault {
    ghost use Rattle.std.specs.Prelude.{◌≡◌};
    ghost use Rattle.entry_texts.specs.declared.partition.PutFault.TheVariants.{Memory};

    ghost from_gives = { λ _ e. e ≡ Memory };

    fn from(_e: AllocError) -> PutFault {
        PutFault::Memory
    }
}

/// The text of a partition, row by row, from which what is written elsewhere can be taken out.
#[derive(Drop)]
pub struct PartitionText {
    rule: EntryRule,
    progress: Progress,
    is_empty: bool,
    text: String,
}

impl PartitionText {
    ghost use Rattle.std.specs.Prelude.{◌≡◌, ℕ, ◌++◌, [], List, codes, OnOk, string_bytes};
    ghost use Rattle.entry_texts.specs.Partitions.{Row, Holds, Puts, HoldsWhole, rule_of, text_of};

    /// The text of a partition without rows, so far.
    pub fn new(alloc: Global, rule: EntryRule) -> PartitionText
        ensures none { Holds [] [] result }
        ensures rule { rule_of result ≡ rule }
    {
        PartitionText {
            rule,
            progress: Progress::new(),
            is_empty: true,
            text: String::new(alloc),
        }
    }

    /// Puts the next row: its time, its first number and the others.
    ///
    /// # Errors
    ///
    /// `Place` where it goes nowhere, and then nothing is changed; `Memory`.
    pub fn put(&mut self, time: i64, first: i64, others: &[i64]) -> Result<(), PutFault>
        ensures rule { rule_of self.new ≡ rule_of self.old }
        ensures puts { (before : List Row) (written : List ℕ) → Holds before written self.old
            → Puts before written (record { time = time; first = first; others = others.now }) self.old self.new result }
    {
        let place = self.progress.place(self.rule, time)?;
        put_row(&mut self.text, place, self.is_empty, first, others)?;
        self.is_empty = false;
        Ok(())
    }

    /// Ends the partition.
    ///
    /// # Errors
    ///
    /// Only where memory runs out.
    pub fn end(&mut self) -> Result<(), AllocError>
        ensures rule { rule_of self.new ≡ rule_of self.old }
        ensures ends { (before : List Row) (written : List ℕ) → Holds before written self.old → OnOk result (HoldsWhole before written self.new) }
    {
        end_partition(&mut self.text, self.is_empty)
    }

    /// The text that was not taken out.
    pub fn text(&self) -> &str
        ensures { result.now ≡ text_of self.now }
    {
        self.text.as_str()
    }

    /// Takes the text out.
    pub fn clear_text(&mut self)
        ensures rule { rule_of self.new ≡ rule_of self.old }
        ensures none { text_of self.new ≡ [] }
        ensures taken { (before : List Row) (written : List ℕ) → Holds before written self.old → Holds before (written ++ text_of self.old) self.new }
    {
        self.text.clear();
    }
}
