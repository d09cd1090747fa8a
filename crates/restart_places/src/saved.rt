//! What a savepoint has of the sources of a plan.

ghost use Rattle.std.specs.Prelude.{◌≡◌, option_copied, bytes_eq};
ghost use Rattle.std.specs.List.{find, list_any};
ghost use Rattle.restore.specs.Saved as said;

use plan_model::SourceSpec;
use savepoint_codec::{SavedPartition, SavedSource};
use text_places::{Findings, MOST_PLACES};

/// The source with a uid.
fn source_named<'s>(sources: &'s [SavedSource], uid: &str) -> Option<&'s SavedSource>
    ensures { option_copied result ≡ find (λ s. bytes_eq s.uid uid.now) sources.now }
{
    sources.iter().find(|source| source.uid.as_str() == uid)
}

/// The partitions of the source with a uid; none where there is no such source.
pub(crate) fn saved_under<'s>(sources: &'s [SavedSource], uid: &str) -> &'s [SavedPartition]
    ensures { result.now ≡ said.saved_under uid.now sources.now }
{
    match source_named(sources, uid) {
        Some(source) => source.partitions.as_slice(),
        None => &[],
    }
}

/// Whether the plan has a source with a uid.
pub(crate) fn is_planned(specs: &[SourceSpec], uid: &str) -> bool
    ensures { result ≡ list_any (λ s. bytes_eq s.uid uid.now) specs.now }
{
    specs.iter().any(|spec| spec.uid.as_str() == uid)
}

/// Whether a savepoint has a source with a uid.
pub(crate) fn is_saved(sources: &[SavedSource], uid: &str) -> bool
    ensures { result ≡ list_any (λ x. bytes_eq x.uid uid.now) sources.now }
{
    sources.iter().any(|source| source.uid.as_str() == uid)
}

fn source_watermark(source: &SavedSource) -> i64 {
    let watermarks = source.partitions.as_slice().iter().map(|p| p.watermark);
    watermarks.fold(i64::MAX, |least, watermark| least.min(watermark))
}

/// The least watermark of the partitions of sources.
pub(crate) fn least_watermark(sources: &[SavedSource]) -> i64 {
    let watermarks = sources.iter().map(source_watermark);
    watermarks.fold(i64::MAX, |least, watermark| least.min(watermark))
}

/// Whether there are places enough.
pub(crate) fn is_full(found: &Findings) -> bool {
    found.places().len() >= MOST_PLACES
}
