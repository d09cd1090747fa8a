//! A cut that a leg cannot stop at.

use crate::saved::saved_under;
use legs::Cut;
use plan_model::Plan;
use savepoint_codec::{SavedPartition, SavedSource};
use std::alloc::{AllocError, Global};
use stream_model::{Input, Partition};
use text_places::Findings;

/// Tells of a count that is over the number of entries of its partition, or below what was read of it.
fn check_partition(
    alloc: Global,
    found: &mut Findings,
    uid: &str,
    place: usize,
    read: u64,
    entries: usize,
    count: u64,
) -> Result<(), AllocError> {
    if count > entries as u64 {
        let sentence = format!(in alloc;
            "partition {place} of {uid:?} has {entries} entries, and the cut has {count}"
        )?;
        return found.tell(0, sentence);
    }
    if count < read {
        let sentence = format!(in alloc;
            "{read} entries of partition {place} of {uid:?} were read before the savepoint, and the cut has {count}: no leg goes back"
        )?;
        return found.tell(0, sentence);
    }
    Ok(())
}

/// How many entries of a partition were read.
fn read_of(saved: &[SavedPartition], place: usize) -> u64 {
    match saved.get(place) {
        Some(partition) => partition.offset,
        None => 0,
    }
}

/// Tells of the counts of a source that do not fit its partitions.
fn check_source(
    alloc: Global,
    found: &mut Findings,
    uid: &str,
    saved: &[SavedPartition],
    partitions: &[Partition],
    counts: &[u64],
) -> Result<(), AllocError> {
    let (wanted, given) = (partitions.len(), counts.len());
    if wanted != given {
        let sentence = format!(in alloc;
            "the source {uid:?} has {wanted} partitions, and the cut has {given} counts of it, with commas between them"
        )?;
        return found.tell(0, sentence);
    }
    for (place, (entries, count)) in partitions.iter().zip(counts).enumerate() {
        check_partition(
            alloc,
            found,
            uid,
            place,
            read_of(saved, place),
            entries.len(),
            *count,
        )?;
    }
    Ok(())
}

/// Tells of a cut of another number of sources.
fn check_sources(
    alloc: Global,
    found: &mut Findings,
    wanted: usize,
    given: usize,
) -> Result<(), AllocError> {
    if wanted == given {
        return Ok(());
    }
    let sentence = format!(in alloc;
        "the plan has {wanted} sources, and the cut has {given}, with `/` between them"
    )?;
    found.tell(0, sentence)
}

/// Tells of what of a cut does not fit an input, or the sources of the savepoint that a leg begins at.
pub(crate) fn check_stop(
    alloc: Global,
    found: &mut Findings,
    plan: &Plan,
    input: &Input,
    sources: &[SavedSource],
    cut: &Cut,
) -> Result<(), AllocError> {
    let counts = cut.counts.as_slice();
    check_sources(alloc, found, plan.sources().len(), counts.len())?;
    let parts = input.sources().iter().zip(counts);
    for (spec, (partitions, counts)) in plan.sources().iter().zip(parts) {
        let uid = spec.uid.as_str();
        let saved = saved_under(sources, uid);
        let partitions = partitions.as_slice();
        check_source(alloc, found, uid, saved, partitions, counts.as_slice())?;
    }
    Ok(())
}
