//! How far legs have come.

ghost use Rattle.std.specs.Prelude.{◌≡◌, length, map, IfOk};
ghost use Rattle.stream_model.specs.Watermarks.{full_cut};
ghost use Rattle.redistribute.specs.StartData.{offsets_of};

use legs::Cut;
use plain_data::Items;
use redistribute::Start;
use savepoint_codec::SavedPartition;
use std::alloc::{AllocError, Global};
use stream_model::{Input, Partition};

fn offsets_in(alloc: Global, source: &[SavedPartition]) -> Result<Items<u64>, AllocError>
    ensures { IfOk result (λ counts. counts ≡ map (λ p. p.offset) source.now) }
{
    let counts = source
        .iter()
        .map(|partition| partition.offset)
        .collect::<Vec<u64>>(alloc)?;
    Ok(Items::from_vec(counts))
}

/// The cut at which a leg begins.
pub(crate) fn cut_of(alloc: Global, start: &Start) -> Result<Cut, AllocError>
    ensures { IfOk result (λ cut. cut.counts ≡ offsets_of start.now) }
{
    let mut counts = Vec::new(alloc);
    for source in start.sources() {
        counts.push(offsets_in(alloc, source.as_slice())?)?;
    }
    let counts = Items::from_vec(counts);
    Ok(Cut { counts })
}

fn lengths_in(alloc: Global, source: &[Partition]) -> Result<Items<u64>, AllocError>
    ensures { IfOk result (λ counts. counts ≡ map (λ entries. length entries) source.now) }
{
    let counts = source
        .iter()
        .map(|partition| partition.as_slice().len() as u64)
        .collect::<Vec<u64>>(alloc)?;
    Ok(Items::from_vec(counts))
}

/// The cut at the end of an input.
pub(crate) fn end_of(alloc: Global, input: &Input) -> Result<Cut, AllocError>
    ensures { IfOk result (λ cut. cut.counts ≡ full_cut input.now.sources) }
{
    let mut counts = Vec::new(alloc);
    for source in input.sources() {
        counts.push(lengths_in(alloc, source.as_slice())?)?;
    }
    let counts = Items::from_vec(counts);
    Ok(Cut { counts })
}
