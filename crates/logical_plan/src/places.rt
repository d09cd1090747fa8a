//! Each uid's place in plan order.

ghost use Rattle.std.specs.Prelude.{◌≡◌, true, false, not, ◌∷◌, [], ◌++◌, map, IfOk, MatchOption, if◌then◌else◌, bytes_eq};
ghost use Rattle.std.specs.List.{list_any};
ghost use Rattle.plan_model.specs.Uids.{are_distinct};
ghost use Rattle.logical_plan.specs.Requirements.{text_uids};
ghost use Rattle.plan_model.specs.Places.{texts};

use crate::text::{FilterText, PlanText, SourceText};
use indexmap::IndexSet;
use std::alloc::{AllocError, Global};

/// Adds a uid, unless it is there already.
#[tactic(auto, using(plain_data::proofs::Facts::list_any_map))]
fn add(alloc: Global, places: &mut IndexSet<String>, uid: &str) -> Result<bool, AllocError>
    ensures added { IfOk result (λ r. r ≡ not (list_any (bytes_eq uid.now) (texts places.old))) }
    ensures texts { IfOk result (λ r. texts places.new
        ≡ (if r then texts places.old ++ uid.now ∷ [] else texts places.old)) }
{
    let uid = String::from_str(alloc, uid)?;
    Ok(places.insert(uid)?)
}

fn source_uids(alloc: Global, sources: &[SourceText]) -> Result<Vec<&str>, AllocError>
    ensures { IfOk result (λ uids. map (λ uid. uid.now) uids.items ≡ map (λ s. s.uid) sources.now) }
{
    let mut uids = Vec::new(alloc);
    for source in sources {
        uids.push(source.uid.as_str())?;
    }
    Ok(uids)
}

fn filter_uids(alloc: Global, filters: &[FilterText]) -> Result<Vec<&str>, AllocError>
    ensures { IfOk result (λ uids. map (λ uid. uid.now) uids.items ≡ map (λ f. f.uid) filters.now) }
{
    let mut uids = Vec::new(alloc);
    for filter in filters {
        uids.push(filter.uid.as_str())?;
    }
    Ok(uids)
}

/// The uids in plan order.
pub fn uids_of(alloc: Global, text: &PlanText) -> Result<Vec<&str>, AllocError>
    ensures { IfOk result (λ uids. map (λ uid. uid.now) uids.items ≡ text_uids text.now) }
{
    let mut uids = source_uids(alloc, text.sources.as_slice())?;
    let filters = filter_uids(alloc, text.filters.as_slice())?;
    uids.extend_from_slice(&filters)?;
    uids.push(text.window.uid.as_str())?;
    Ok(uids)
}

/// A set of the uids in their order, or None where two are the same.
pub fn places_of(alloc: Global, uids: &[&str]) -> Result<Option<IndexSet<String>>, AllocError>
    ensures { IfOk result (λ found. MatchOption found (are_distinct (map (λ uid. uid.now) uids.now) ≡ false)
        (λ places. (are_distinct (map (λ uid. uid.now) uids.now) ≡ true) × (texts places ≡ map (λ uid. uid.now) uids.now))) }
{
    let mut places = IndexSet::new(alloc);
    for uid in uids {
        let is_new = add(alloc, &mut places, *uid)?;
        if !is_new {
            return Ok(None);
        }
    }
    Ok(Some(places))
}
