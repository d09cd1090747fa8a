//! What a savepoint must meet by the plan alone, one function for each requirement.

ghost use Rattle.std.specs.Prelude.{◌≡◌, ◌==◌, length, bytes_eq, IfOk};
ghost use Rattle.std.specs.List.{list_all, list_any, zip};
ghost use Rattle.aggregates.specs.Kinds.{kind_of};
ghost use Rattle.savepoint_codec.specs.Fields.{kind_code};
ghost use Rattle.restore.specs.Saved.{saved_under};
ghost use Rattle.restore.specs.Requirements as required;

use crate::saved;
use aggregates::Kind;
use plan_model::{Aggregate, Plan, SourceSpec};
use plan_record::Recorded;
use savepoint_codec::{Contents, SavedSource};
use std::alloc::{AllocError, Global};

/// Whether the plan has as many key groups.
#[tactic(auto, unfolding(crate::specs::Requirements::has_max))]
pub fn has_max(plan: &Plan, contents: &Contents) -> bool
    ensures { result ≡ required.has_max plan.now contents.now }
{
    u32::from(contents.max) == plan.max()
}

/// Whether each source of the savepoint is one of the plan's, and its window is the plan's.
#[tactic(auto, unfolding(crate::specs::Requirements::has_known_uids))]
pub fn has_known_uids(plan: &Plan, contents: &Contents) -> bool
    ensures { result ≡ required.has_known_uids plan.now contents.now }
{
    are_planned(plan.sources(), contents.sources.as_slice())
        && contents.window_uid.as_str() == plan.window().uid.as_str()
}

fn are_planned(specs: &[SourceSpec], sources: &[SavedSource]) -> bool
    ensures { result ≡ list_all (λ x. list_any (λ s. bytes_eq s.uid x.uid) specs.now) sources.now }
{
    sources
        .iter()
        .all(|source| is_planned(specs, source.uid.as_str()))
}

fn is_planned(specs: &[SourceSpec], uid: &str) -> bool
    ensures { result ≡ list_any (λ s. bytes_eq s.uid uid.now) specs.now }
{
    specs.iter().any(|spec| spec.uid.as_str() == uid)
}

/// Whether each source of the plan is in the savepoint.
#[tactic(auto, unfolding(crate::specs::Requirements::has_all_uids))]
pub fn has_all_uids(plan: &Plan, contents: &Contents) -> bool
    ensures { result ≡ required.has_all_uids plan.now contents.now }
{
    are_saved(contents.sources.as_slice(), plan.sources())
}

fn are_saved(sources: &[SavedSource], specs: &[SourceSpec]) -> bool
    ensures { result ≡ list_all (λ s. list_any (λ x. bytes_eq x.uid s.uid) sources.now) specs.now }
{
    specs
        .iter()
        .all(|spec| is_saved(sources, spec.uid.as_str()))
}

fn is_saved(sources: &[SavedSource], uid: &str) -> bool
    ensures { result ≡ list_any (λ x. bytes_eq x.uid uid.now) sources.now }
{
    sources.iter().any(|source| source.uid.as_str() == uid)
}

/// Whether the plan has the record and the kinds of aggregates that the savepoint's had.
///
/// # Errors
///
/// Only where memory runs out.
#[tactic(auto, unfolding(crate::specs::Requirements::has_plan))]
pub fn has_plan(alloc: Global, plan: &Plan, contents: &Contents) -> Result<bool, AllocError>
    ensures { IfOk result (λ met. met ≡ required.has_plan plan.now contents.now) }
{
    let bytes = plan.record(alloc)?;
    let kinds = contents.kinds.as_slice();
    let aggregates = plan.window().aggregates.as_slice();
    Ok(is_record(contents.plan_record.as_slice(), &bytes) && are_kinds(kinds, aggregates))
}

fn is_record(saved: &[u8], bytes: &[u8]) -> bool
    ensures { result ≡ bytes_eq saved.now bytes.now }
{
    saved == bytes
}

fn are_kinds(kinds: &[Kind], aggregates: &[Aggregate]) -> bool
    ensures { result ≡ required.are_kinds kinds.now aggregates.now }
{
    kinds.len() == aggregates.len() && are_alike(kinds, aggregates)
}

fn are_alike(kinds: &[Kind], aggregates: &[Aggregate]) -> bool
    ensures { result ≡ list_all (λ x. kind_code x.0 == kind_code (kind_of x.1)) (zip kinds.now aggregates.now) }
{
    kinds
        .iter()
        .zip(aggregates)
        .all(|(kind, aggregate)| is_kind(*kind, *aggregate))
}

fn is_kind(kind: Kind, aggregate: Aggregate) -> bool
    ensures { result ≡ (kind_code kind == kind_code (kind_of aggregate)) }
{
    kind == Kind::of(aggregate)
}

/// Whether each source has as many partitions as the plan says.
#[tactic(auto, unfolding(crate::specs::Requirements::has_partitions))]
pub fn has_partitions(plan: &Plan, contents: &Contents) -> bool
    ensures { result ≡ required.has_partitions plan.now contents.now }
{
    have_partitions(contents.sources.as_slice(), plan.sources())
}

fn have_partitions(sources: &[SavedSource], specs: &[SourceSpec]) -> bool
    ensures { result ≡ list_all (λ s. length (saved_under s.uid sources.now) == s.partitions) specs.now }
{
    specs.iter().all(|spec| has_count(sources, spec))
}

fn has_count(sources: &[SavedSource], spec: &SourceSpec) -> bool
    ensures { result ≡ (length (saved_under spec.now.uid sources.now) == spec.now.partitions) }
{
    saved::saved_under(sources, spec.uid.as_str()).len() == spec.partitions as usize
}
