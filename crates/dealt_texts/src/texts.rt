//! The texts of a partition of all parts, as the rows of the whole come.

use crate::dealing::Dealing;
use crate::each::{empty_texts, end_all, place_all, push_at};
use crate::part::PartText;
use entry_texts::PutFault;
use import_entries::{EntryRule, Place, Progress};
use std::alloc::{AllocError, Global};

/// The texts of a partition of each part of an input, row by row of the whole, from which what is written elsewhere can
/// be taken out.
#[derive(Drop)]
pub struct PartTexts {
    rule: EntryRule,
    progress: Progress,
    dealing: Dealing,
    texts: Vec<PartText>,
    /// The places of those that the last row made longer, from the first to behind the last.
    grown: (usize, usize),
}

/// The places of the texts, of so many, that a row makes longer which goes to the part at this one.
fn grown_by(place: Place, owner: usize, parts: usize) -> (usize, usize) {
    match place {
        Place::Joins => (owner, owner.saturating_add(1)),
        Place::Begins(_) => (0, parts),
    }
}

impl PartTexts {
    ghost use Rattle.std.specs.Prelude.{◌≡◌, ℕ, [], List, OnOk, IfOk};
    ghost use Rattle.entry_texts.specs.Partitions.{Row};
    ghost use Rattle.dealt_texts.specs.Steps.{text_at};
    ghost use Rattle.dealt_texts.specs.Texts.{HoldsParts, HoldWhole, PutsRow, rule_of, dealing_of, texts_of, grown_of, more_at};

    /// The texts of a partition without rows, so far.
    ///
    /// # Errors
    ///
    /// Only where memory runs out.
    pub fn new(alloc: Global, rule: EntryRule, dealing: Dealing) -> Result<PartTexts, AllocError>
        ensures none { IfOk result (HoldsParts [] (λ i. [])) }
        ensures rule { IfOk result (λ texts. rule_of texts ≡ rule) }
        ensures dealing { IfOk result (λ texts. dealing_of texts ≡ dealing) }
    {
        Ok(PartTexts {
            rule,
            progress: Progress::new(),
            dealing,
            texts: empty_texts(alloc, dealing.parts())?,
            grown: (0, 0),
        })
    }

    /// Puts the next row of the whole into the part that it goes to: its time, its first number and the others. A
    /// watermark before it goes to all parts.
    ///
    /// # Errors
    ///
    /// `Place` where it goes nowhere, and then nothing is changed; `Memory`.
    pub fn put(&mut self, time: i64, first: i64, others: &[i64]) -> Result<(), PutFault>
        ensures rule { rule_of self.new ≡ rule_of self.old }
        ensures dealing { dealing_of self.new ≡ dealing_of self.old }
        ensures puts { (before : List Row) (written : ℕ → List ℕ) → HoldsParts before written self.old
            → PutsRow before written (record { time = time; first = first; others = others.now }) self.old self.new result }
    {
        let place = self.progress.place(self.rule, time)?;
        let owner = self.dealing.owner(first, others);
        self.grown = grown_by(place, owner, self.texts.len());
        place_all(&mut self.texts, place)?;
        push_at(&mut self.texts, owner, first, others)?;
        Ok(())
    }

    /// Ends the partition in each part.
    ///
    /// # Errors
    ///
    /// Only where memory runs out.
    pub fn end(&mut self) -> Result<(), AllocError>
        ensures rule { rule_of self.new ≡ rule_of self.old }
        ensures dealing { dealing_of self.new ≡ dealing_of self.old }
        ensures ends { (before : List Row) (written : ℕ → List ℕ) → HoldsParts before written self.old → OnOk result (HoldWhole before written self.new) }
    {
        end_all(&mut self.texts)
    }

    /// The places of the parts whose texts the last row made longer: that of the first, and that behind the last.
    pub fn grown(&self) -> (usize, usize)
        ensures { result ≡ grown_of self.now }
    {
        let (first, end) = self.grown;
        (first, end)
    }

    /// The texts that were not taken out, each at its part's place.
    pub fn texts(&self) -> &[PartText]
        ensures { result.now ≡ texts_of self.now }
    {
        &self.texts
    }

    /// Takes the text of the part at a place out, if there is one.
    pub fn clear_text(&mut self, place: usize)
        ensures rule { rule_of self.new ≡ rule_of self.old }
        ensures dealing { dealing_of self.new ≡ dealing_of self.old }
        ensures taken { (before : List Row) (written : ℕ → List ℕ) → HoldsParts before written self.old
            → HoldsParts before (more_at place (text_at (texts_of self.old) place).text written) self.new }
    {
        if let Some(text) = self.texts.get_mut(place) {
            text.clear();
        }
    }
}
