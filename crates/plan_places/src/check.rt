//! From a fault to its places.

ghost use Rattle.place_notes.specs.Notes.{TellsMore};

use crate::{counts, numbers, shape, uids, window};
use logical_plan::PlanFault;
use place_notes::{Notes, behind};
use std::alloc::AllocError;
use text_places::Placed;

/// The faults of a plan that is JSON, in the order of their requirements.
const FAULTS: [PlanFault; 15] = [
    PlanFault::Member,
    PlanFault::Columns,
    PlanFault::ColumnIndex,
    PlanFault::MaxParallelism,
    PlanFault::Sources,
    PlanFault::Partitions,
    PlanFault::Uid,
    PlanFault::UidTwice,
    PlanFault::Filters,
    PlanFault::WindowSize,
    PlanFault::WindowSlide,
    PlanFault::WindowOffset,
    PlanFault::Panes,
    PlanFault::Aggregates,
    PlanFault::Bound,
];

/// Tells of the places at which a plan, which is JSON, does not meet the requirement of a fault, the first that it does
/// not meet, and then of those at which it does not meet a later one.
pub fn tell_places(notes: &mut Notes, plan: &Placed<'_>, fault: PlanFault) -> Result<(), AllocError>
    ensures { TellsMore notes.old notes.new }
{
    check_one(notes, plan, fault)?;
    for next in behind(&FAULTS, fault) {
        if notes.is_full() {
            break;
        }
        notes.go_on(*next)?;
        check_one(notes, plan, *next)?;
    }
    Ok(())
}

/// Tells of the places at which a plan does not meet the requirement of a fault.
fn check_one(notes: &mut Notes, plan: &Placed<'_>, fault: PlanFault) -> Result<(), AllocError>
    ensures { TellsMore notes.old notes.new }
{
    match fault {
        PlanFault::NotJson | PlanFault::Memory => Ok(()),
        PlanFault::Member => shape::check_shape(notes, plan),
        PlanFault::Columns => numbers::check_columns(notes, plan),
        PlanFault::ColumnIndex => numbers::check_column_indices(notes, plan),
        PlanFault::MaxParallelism => numbers::check_max(notes, plan),
        PlanFault::Sources => counts::check_sources(notes, plan),
        PlanFault::Partitions => numbers::check_partitions(notes, plan),
        PlanFault::Uid => uids::check_uids(notes, plan),
        PlanFault::UidTwice => uids::check_uids_twice(notes, plan),
        PlanFault::Filters => counts::check_conditions(notes, plan),
        PlanFault::WindowSize => window::check_length(notes, plan, "size"),
        PlanFault::WindowSlide => window::check_length(notes, plan, "slide"),
        PlanFault::WindowOffset => window::check_offset(notes, plan),
        PlanFault::Panes => window::check_panes(notes, plan),
        PlanFault::Aggregates => counts::check_aggregates(notes, plan),
        PlanFault::Bound => numbers::check_bounds(notes, plan),
    }
}
