//! Parts that were packed.

ghost use Rattle.std.specs.Prelude.{◌≡◌, ◌<◌, [], length, map, slice_get, Some, IfOk};
ghost use Rattle.std.specs.List.{All};
ghost use Rattle.aggregates.specs.Kinds.{IsAcc};
ghost use Rattle.packed_parts.specs.Packing.{entry_of};
ghost use Rattle.savepoint_codec.specs.EntriesView.{entry_data};

use crate::packing::Packing;
use crate::part::Part;
use savepoint_codec::Entry;
use std::alloc::{AllocError, Global};
use std::marker::Model;

/// Parts of the same kinds, in little memory.
#[derive(Debug, Drop)]
pub struct PackedParts {
    packing: Packing,
}

impl Model for PackedParts {
    ghost use Rattle.std.specs.Prelude.{List};
    ghost use Rattle.packed_parts.specs.declared.part.Part.{Part};

    ghost Value = { List Part };

    ghost view = { λ p. p.packing.parts };
}

impl PackedParts {
    /// No parts.
    pub fn empty(alloc: Global) -> PackedParts
        ensures { result ≡ [] }
    {
        PackedParts::from_packing(Packing::new(alloc, Vec::new(alloc)))
    }

    /// The parts that were packed.
    pub fn from_packing(packing: Packing) -> PackedParts
        ensures { result ≡ packing.parts }
    {
        PackedParts { packing }
    }

    /// How many parts there are.
    pub fn len(&self) -> usize
        ensures { result ≡ length self.now }
    {
        self.packing.len()
    }

    /// Part i, counted from 0.
    pub fn part(&self, i: usize) -> Part
        requires { i < length self.now }
        ensures { slice_get self.now i ≡ Some result }
    {
        self.packing.part(i)
    }

    /// Part i, counted from 0, as it is packed.
    pub fn entry(&self, i: usize) -> Entry<'_>
        requires { i < length self.now }
        ensures is { slice_get (map entry_of self.now) i ≡ Some (entry_data result) }
        ensures sound { All (λ part. IsAcc part.acc) self.now }
    {
        self.packing.entry(i)
    }

    /// The same again.
    ///
    /// # Errors
    ///
    /// Only where memory runs out.
    pub fn copy(&self, alloc: Global) -> Result<PackedParts, AllocError>
        ensures { IfOk result (λ parts. parts ≡ self.now) }
    {
        Ok(PackedParts::from_packing(self.packing.copy(alloc)?))
    }
}
