//! What is found wrong in a text.

ghost use Rattle.std.specs.Prelude.{◌≡◌};

use std::alloc::{AllocError, Global};
use std::marker::Model;

/// At most so many places of one text are told.
pub const MOST_PLACES: usize = 20;

/// A place at which a text does not meet a requirement: its offset in bytes, and a sentence of what stands
/// there and what is wanted.
#[derive(Debug, Drop)]
pub struct Finding {
    pub offset: usize,
    pub sentence: String,
}

/// The places of a text, in the order in which they were found: at most [`MOST_PLACES`].
#[derive(Debug, Drop)]
pub struct Findings {
    places: Vec<Finding>,
    end: usize,
}

impl Model for Findings {
    ghost use Rattle.text_places.specs.Findings.{FindingsData, AreFindings};

    ghost Value = { FindingsData };

    ghost view = { λ f. record { end = f.end; places = f.places.items } };

    ghost invariant = { λ f. AreFindings (record { end = f.end; places = f.places.items }) };
}

impl Findings {
    ghost use Rattle.std.specs.Prelude.{◌≡◌, ◌==◌, [], OnOk, OnErr, length, min};
    ghost use Rattle.text_places.specs.Findings.{AreFindings, with_place};

    /// None yet, of a text of so many bytes.
    pub fn new(alloc: Global, end: usize) -> Findings
        ensures { result ≡ record { end = end; places = [] } }
    {
        Findings {
            places: Vec::new(alloc),
            end,
        }
    }

    /// Whether nothing was found.
    pub fn is_empty(&self) -> bool
        ensures { result ≡ (length self.now.places == 0) }
    {
        self.places.is_empty()
    }

    /// Keeps one more place, unless there are [`MOST_PLACES`] already. One past the end of the text is at its
    /// end.
    ///
    /// # Errors
    ///
    /// Where memory runs out; the places are then those that there were.
    pub fn tell(&mut self, offset: usize, sentence: String) -> Result<(), AllocError>
        ensures told { OnOk result (self.new ≡ with_place self.old (record { offset = min offset self.old.end; sentence = sentence })) }
        ensures refused { OnErr result (self.new ≡ self.old) }
    {
        if self.places.len() < MOST_PLACES {
            let offset = offset.min(self.end);
            self.places.push(Finding { offset, sentence })?;
        }
        Ok(())
    }

    /// The places.
    pub fn places(&self) -> &[Finding]
        ensures says { result.now ≡ self.now.places }
        ensures sound { AreFindings self.now }
    {
        self.places.as_slice()
    }
}
