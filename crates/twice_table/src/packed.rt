//! Texts behind one another.

ghost use Rattle.std.specs.Prelude.{◌≡◌, ◌<◌, ◌≤◌, true, [], length, slice_index_or};
ghost use Rattle.std.specs.List.{slice_range};
ghost use Rattle.twice_table.specs.Packed.{cut, are_ends, start_of};

use std::alloc::{AllocError, Global};
use std::marker::Model;

/// Where the text at a place begins, of texts that end at such places.
fn start_of(ends: &[usize], place: usize) -> usize
    requires { place ≤ length ends.now }
    ensures { result ≡ start_of 0 ends.now place }
{
    match place {
        0 => 0,
        _ => ends[place - 1],
    }
}

/// The bytes from one place up to another.
fn between(bytes: &[u8], start: usize, end: usize) -> &[u8]
    requires order { start ≤ end }
    requires within { end ≤ length bytes.now }
    ensures { result.now ≡ slice_range bytes.now start end }
{
    &bytes[start..end]
}

/// The text at a place, of texts that end at such places.
fn text_at<'b>(bytes: &'b [u8], ends: &[usize], place: usize) -> &'b [u8]
    requires ends { are_ends 0 ends.now (length bytes.now) ≡ true }
    requires within { place < length ends.now }
    ensures { result.now ≡ slice_index_or (cut 0 ends.now bytes.now) place [] }
{
    between(bytes, start_of(ends, place), ends[place])
}

/// Where the last text ends, of texts that end at such places.
fn last_end(ends: &[usize]) -> usize
    ensures { result ≡ start_of 0 ends.now (length ends.now) }
{
    start_of(ends, ends.len())
}

/// Texts of any bytes in one buffer, in the order in which they came.
#[derive(Drop)]
pub(crate) struct PackedTexts {
    /// The bytes of the texts, behind one another. What stands behind the end of the last text is of none.
    bytes: Vec<u8>,
    /// Where each text ends, and the next one begins.
    ends: Vec<usize>,
}

impl Model for PackedTexts {
    ghost use Rattle.std.specs.Prelude.{◌≡◌, ℕ, List, length, true};
    ghost use Rattle.twice_table.specs.Packed.{cut, are_ends};

    ghost Value = { List (List ℕ) };

    ghost view = { λ t. cut 0 t.ends.items t.bytes.items };

    ghost invariant = { λ t. are_ends 0 t.ends.items (length t.bytes.items) ≡ true };
}

impl PackedTexts {
    ghost use Rattle.std.specs.Prelude.{◌≡◌, ◌-◌, ◌<◌, [], ◌∷◌, ◌++◌, length, take, slice_index_or, OnOk, OnErr};

    /// No texts.
    pub(crate) fn new(alloc: Global) -> PackedTexts
        ensures { result ≡ [] }
    {
        PackedTexts {
            bytes: Vec::new(alloc),
            ends: Vec::new(alloc),
        }
    }

    /// How many texts there are.
    pub(crate) fn len(&self) -> usize
        ensures { result ≡ length self.now }
    {
        self.ends.len()
    }

    /// The text at a place.
    pub(crate) fn get(&self, place: usize) -> &[u8]
        requires { place < length self.now }
        ensures { result.now ≡ slice_index_or self.now place [] }
    {
        text_at(&self.bytes, &self.ends, place)
    }

    /// Puts a text behind the others.
    ///
    /// # Errors
    ///
    /// Only where memory runs out, and then the texts stay as they are.
    pub(crate) fn push(&mut self, text: &[u8]) -> Result<(), AllocError>
        ensures texts { OnOk result (self.new ≡ self.old ++ text.now ∷ []) }
        ensures err { OnErr result (self.new ≡ self.old) }
    {
        self.bytes.truncate(last_end(&self.ends));
        self.bytes.extend_from_slice(text)?;
        self.ends.push(self.bytes.len())?;
        Ok(())
    }

    /// Takes the last text away.
    pub(crate) fn pop(&mut self)
        ensures { self.new ≡ take (length self.old - 1) self.old }
    {
        let _ = self.ends.pop();
    }
}
