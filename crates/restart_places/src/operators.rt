//! The operators of a savepoint beside those of a plan.

use crate::saved::{is_planned, is_saved, saved_under};
use plan_model::{Plan, SourceSpec};
use savepoint_codec::{Contents, SavedSource};
use std::alloc::{AllocError, Global};
use text_places::Findings;

/// Tells of another number of key groups.
pub(crate) fn check_max(
    alloc: Global,
    found: &mut Findings,
    plan: &Plan,
    contents: &Contents,
) -> Result<(), AllocError> {
    let (saved, planned) = (contents.max, plan.max());
    let sentence = format!(in alloc;
        "the savepoint has {saved} key groups, and `maxParallelism` of the plan is {planned}: it stays as it was while a job goes on"
    )?;
    found.tell(0, sentence)
}

/// Tells of a source of the savepoint that the plan has not.
fn check_planned(
    alloc: Global,
    found: &mut Findings,
    specs: &[SourceSpec],
    uid: &str,
) -> Result<(), AllocError> {
    if is_planned(specs, uid) {
        return Ok(());
    }
    let sentence = format!(in alloc;
        "the savepoint has a source {uid:?}, and the plan has none of that uid: a source keeps its uid while a job goes on"
    )?;
    found.tell(0, sentence)
}

/// Tells of a window that has another uid in the plan.
fn check_window(
    alloc: Global,
    found: &mut Findings,
    saved: &str,
    planned: &str,
) -> Result<(), AllocError> {
    if saved == planned {
        return Ok(());
    }
    let sentence = format!(in alloc;
        "the window is {saved:?} in the savepoint, and {planned:?} in the plan: a window keeps its uid while a job goes on"
    )?;
    found.tell(0, sentence)
}

/// Tells of the operators of the savepoint that the plan has not.
pub(crate) fn check_known(
    alloc: Global,
    found: &mut Findings,
    plan: &Plan,
    contents: &Contents,
) -> Result<(), AllocError> {
    for source in contents.sources.as_slice() {
        check_planned(alloc, found, plan.sources(), source.uid.as_str())?;
    }
    let planned = plan.window().uid.as_str();
    check_window(alloc, found, contents.window_uid.as_str(), planned)
}

/// Tells of a source of the plan that the savepoint has not.
fn check_saved(
    alloc: Global,
    found: &mut Findings,
    sources: &[SavedSource],
    uid: &str,
) -> Result<(), AllocError> {
    if is_saved(sources, uid) {
        return Ok(());
    }
    let sentence = format!(in alloc;
        "the plan has a source {uid:?}, and the savepoint has none of that uid: no source is added while a job goes on"
    )?;
    found.tell(0, sentence)
}

/// Tells of the sources of the plan that the savepoint has not.
pub(crate) fn check_all_saved(
    alloc: Global,
    found: &mut Findings,
    plan: &Plan,
    contents: &Contents,
) -> Result<(), AllocError> {
    for spec in plan.sources() {
        check_saved(alloc, found, contents.sources.as_slice(), spec.uid.as_str())?;
    }
    Ok(())
}

/// Tells of a source that has another number of partitions in the plan.
fn check_count(
    alloc: Global,
    found: &mut Findings,
    spec: &SourceSpec,
    saved: usize,
) -> Result<(), AllocError> {
    let planned = spec.partitions;
    if saved == planned as usize {
        return Ok(());
    }
    let uid = spec.uid.as_str();
    let sentence = format!(in alloc;
        "the source {uid:?} has {saved} partitions in the savepoint, and {planned} in the plan: a new file is no new partition; put its lines behind those of an old one"
    )?;
    found.tell(0, sentence)
}

/// Tells of the sources that have another number of partitions in the plan.
pub(crate) fn check_counts(
    alloc: Global,
    found: &mut Findings,
    plan: &Plan,
    contents: &Contents,
) -> Result<(), AllocError> {
    for spec in plan.sources() {
        let saved = saved_under(contents.sources.as_slice(), spec.uid.as_str()).len();
        check_count(alloc, found, spec, saved)?;
    }
    Ok(())
}
