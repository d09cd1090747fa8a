//! The bounds of the sources, the last part of a plan's record.

ghost use Rattle.std.specs.Prelude.{◌≡◌, ◌<◌, ◌≤◌, ◌++◌, ◌∷◌, [], length, map, bytes_eq, option_copied, OnOk, IfOk};
ghost use Rattle.std.specs.List.{find};
ghost use Rattle.plan_record.specs.PlanRecord.{bound_of as bound_under, placed, bound_field, bounds_bytes};

use byte_fields::{put_i64, put_u8};
use plan_model::SourceSpec;
use std::alloc::{AllocError, Global};
use std::collections::BTreeSet;

/// The source with a uid.
fn source_named<'s>(sources: &'s [SourceSpec], uid: &str) -> Option<&'s SourceSpec>
    ensures { option_copied result ≡ find (λ s. bytes_eq s.uid uid.now) sources.now }
{
    sources.iter().find(|source| source.uid.as_str() == uid)
}

/// The bound of the source with a uid.
fn bound_of(sources: &[SourceSpec], uid: &str) -> Option<i64>
    ensures { result ≡ bound_under sources.now uid.now }
{
    source_named(sources, uid)?.bound
}

/// Adds the bound, where there is one, with its place.
fn push_bound(bounds: &mut Vec<(u8, i64)>, place: u8, bound: Option<i64>) -> Result<(), AllocError>
    ensures { OnOk result (bounds.new.items ≡ bounds.old.items ++ placed place (bound ∷ [])) }
{
    if let Some(bound) = bound {
        bounds.push((place, bound))?;
    }
    Ok(())
}

/// The bounds that there are, each with the place of its uid.
pub fn bounds_at(
    alloc: Global,
    sources: &[SourceSpec],
    uids: &BTreeSet<&str>,
) -> Result<Vec<(u8, i64)>, AllocError>
    requires { length uids.now.keys < 256 }
    ensures says { IfOk result (λ bounds. bounds.items ≡ placed 0 (map (bound_under sources.now) (map (λ uid. uid.now) uids.now.keys))) }
    ensures few { IfOk result (λ bounds. length bounds.items ≤ length uids.now.keys) }
{
    let mut bounds = Vec::new(alloc);
    let mut place = 0;
    for uid in uids {
        push_bound(&mut bounds, place, bound_of(sources, *uid))?;
        place += 1;
    }
    Ok(bounds)
}

#[tactic(auto, unfolding(crate::specs::PlanRecord::bound_field))]
fn put_bound(out: &mut Vec<u8>, place: u8, bound: i64) -> Result<(), AllocError>
    ensures { OnOk result (out.new.items ≡ out.old.items ++ bound_field.spell (place, bound)) }
{
    put_u8(out, place)?;
    put_i64(out, bound)
}

/// Nothing where there are none.
pub fn put_bounds(out: &mut Vec<u8>, bounds: &[(u8, i64)]) -> Result<(), AllocError>
    requires { length bounds.now < 256 }
    ensures { OnOk result (out.new.items ≡ out.old.items ++ bounds_bytes bounds.now) }
{
    if bounds.is_empty() {
        return Ok(());
    }
    put_u8(out, bounds.len() as u8)?;
    for (place, bound) in bounds {
        put_bound(out, *place, *bound)?;
    }
    Ok(())
}
