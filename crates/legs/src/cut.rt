//! A cut of an input.

ghost use Rattle.std.specs.Prelude.{◌≡◌, ◌≤◌, ◌↔◌, IfOk, IsTrue, length};
ghost use Rattle.std.specs.List.{AllZip};

use plain_data::Items;
use std::alloc::{AllocError, Global};
use stream_model::{Partition, Source};

/// A cut of an input: how many entries lie before it, for each source in plan order and each of its partitions.
#[derive(Debug, Drop)]
pub struct Cut {
    pub counts: Items<Items<u64>>,
}

impl Cut {
    ghost use Rattle.dataflow_model.specs.Leg as model;
    ghost use Rattle.stream_model.specs.Watermarks.{IsBefore, IsCut};

    /// The same cut again.
    ///
    /// # Errors
    ///
    /// Only where memory runs out.
    pub fn copy(&self, alloc: Global) -> Result<Cut, AllocError>
        ensures { IfOk result (λ cut. cut ≡ self.now) }
    {
        let sources = self.counts.as_slice();
        let mut counts = Vec::with_capacity(alloc, sources.len())?;
        for source in sources {
            counts.push(source.copy(alloc)?)?;
        }
        let counts = Items::from_vec(counts);
        Ok(Cut { counts })
    }

    /// How many entries of a partition lie before it; none, where it has no such partition.
    pub fn count(&self, source: u32, partition: u32) -> u64
        ensures { result ≡ model.count_at self.now.counts source partition }
    {
        match self.counts.as_slice().get(source as usize) {
            Some(counts) => counts
                .as_slice()
                .get(partition as usize)
                .copied()
                .unwrap_or(0),
            None => 0,
        }
    }

    /// Whether it is a cut of these sources: it has a count for each of their partitions and for no other, none past
    /// the partition's end.
    pub fn is_within(&self, sources: &[Source]) -> bool
        ensures { IsTrue result ↔ IsCut sources.now self.now.counts }
    {
        let cut = self.counts.as_slice();
        if sources.len() != cut.len() {
            return false;
        }
        for (source, counts) in sources.iter().zip(cut) {
            if !are_within(source.as_slice(), counts.as_slice()) {
                return false;
            }
        }
        true
    }

    /// Whether that cut has a count for the same partitions, none of them less: it is this one, or a later one.
    pub fn is_before(&self, later: &Cut) -> bool
        ensures { IsTrue result ↔ IsBefore self.now.counts later.now.counts }
    {
        let cut = self.counts.as_slice();
        let later = later.counts.as_slice();
        cut.len() == later.len()
            && cut.iter().zip(later).all(|(counts, others)| are_reached(
                counts.as_slice(),
                others.as_slice(),
            ))
    }
}

/// Whether there is a count for each of some counts, none of them less.
fn are_reached(counts: &[u64], others: &[u64]) -> bool
    ensures { IsTrue result ↔ AllZip (λ m n. m ≤ n) counts.now others.now }
{
    counts.len() == others.len()
        && counts
            .iter()
            .zip(others)
            .all(|(count, other)| *count <= *other)
}

/// Whether there is a count for each partition of a source, none past the partition's end.
fn are_within(partitions: &[Partition], counts: &[u64]) -> bool
    ensures { IsTrue result ↔ AllZip (λ p n. n ≤ length p) partitions.now counts.now }
{
    partitions.len() == counts.len()
        && partitions
            .iter()
            .zip(counts)
            .all(|(entries, count)| *count <= entries.len() as u64)
}
