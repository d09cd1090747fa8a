//! What a savepoint has for the sources of a plan.

ghost use Rattle.std.specs.Prelude.{◌≡◌, option_copied, map, bytes_eq, IfOk};
ghost use Rattle.std.specs.List.{find};
ghost use Rattle.restore.specs.Saved as said;

use plain_data::Items;
use plan_model::SourceSpec;
use savepoint_codec::{SavedPartition, SavedSource};
use std::alloc::{AllocError, Global};

/// The source with a uid.
fn source_named<'s>(sources: &'s [SavedSource], uid: &str) -> Option<&'s SavedSource>
    ensures { option_copied result ≡ find (λ s. bytes_eq s.uid uid.now) sources.now }
{
    sources.iter().find(|source| source.uid.as_str() == uid)
}

/// The partitions of the source with a uid; none where there is no such source.
pub fn saved_under<'s>(sources: &'s [SavedSource], uid: &str) -> &'s [SavedPartition]
    ensures { result.now ≡ said.saved_under uid.now sources.now }
{
    match source_named(sources, uid) {
        Some(source) => source.partitions.as_slice(),
        None => &[],
    }
}

fn copy_under(
    alloc: Global,
    sources: &[SavedSource],
    uid: &str,
) -> Result<Items<SavedPartition>, AllocError>
    ensures { IfOk result (λ partitions. partitions ≡ said.saved_under uid.now sources.now) }
{
    let partitions = saved_under(sources, uid);
    Ok(Items::from_vec(Vec::from_slice(alloc, partitions)?))
}

/// The partitions of each of a plan's sources, in plan order.
pub fn saved_sources(
    alloc: Global,
    specs: &[SourceSpec],
    sources: &[SavedSource],
) -> Result<Items<Items<SavedPartition>>, AllocError>
    ensures { IfOk result (λ saved. saved ≡ map (λ s. said.saved_under s.uid sources.now) specs.now) }
{
    let mut saved = Vec::new(alloc);
    for spec in specs {
        saved.push(copy_under(alloc, sources, spec.uid.as_str())?)?;
    }
    Ok(Items::from_vec(saved))
}
