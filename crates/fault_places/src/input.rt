//! The places of an input.

use crate::entries::{Test, check_entries, check_forms};
use input_texts::InputFault;
use json::Token;
use place_notes::{Notes, Owner, behind, tell_other};
use plan_model::{Plan, SourceSpec};
use std::alloc::AllocError;
use text_places::{Part, Placed, part_named};

/// Tells of the values that are of another form than an input's.
fn check_shape(notes: &mut Notes, input: &Placed<'_>) -> Result<(), AllocError> {
    if !matches!(input.token, Token::BeginObject) {
        return tell_other(notes, Owner::One("the input"), input, "an object");
    }
    let sources = input.parts(notes.alloc())?;
    for source in &sources {
        check_forms(notes, source)?;
    }
    Ok(())
}

/// Tells of a name under which the plan has no source.
fn check_planned(
    notes: &mut Notes,
    part: &Part<'_>,
    sources: &[SourceSpec],
) -> Result<(), AllocError> {
    let name = part.name;
    if sources.iter().any(|source| source.uid.as_str() == name) {
        return Ok(());
    }
    let sentence = format!(in notes.alloc(); "the plan has no source {name:?}")?;
    notes.tell(part.offset, sentence)
}

/// Tells of a source of the plan that no part names.
fn check_given(
    notes: &mut Notes,
    input: &Placed<'_>,
    parts: &[Part<'_>],
    uid: &str,
) -> Result<(), AllocError> {
    if part_named(parts, uid).is_some() {
        return Ok(());
    }
    let sentence = format!(in notes.alloc(); "the source {uid:?} of the plan is missing here")?;
    notes.tell(input.offset, sentence)
}

/// Tells of sources that the plan has not, and of those of the plan that are missing.
fn check_names(
    notes: &mut Notes,
    input: &Placed<'_>,
    parts: &[Part<'_>],
    sources: &[SourceSpec],
) -> Result<(), AllocError> {
    for part in parts {
        check_planned(notes, part, sources)?;
    }
    for source in sources {
        check_given(notes, input, parts, source.uid.as_str())?;
    }
    Ok(())
}

/// Tells of a source that has another number of partitions than the plan says.
fn check_count(notes: &mut Notes, source: &SourceSpec, part: &Part<'_>) -> Result<(), AllocError> {
    let count = part.value.parts(notes.alloc())?.len();
    let wanted = source.partitions;
    if count == wanted as usize {
        return Ok(());
    }
    let uid = source.uid.as_str();
    let sentence = format!(in notes.alloc();
        "the source {uid:?} has {count} partitions here, and {wanted} in the plan"
    )?;
    notes.tell(part.value.offset, sentence)
}

fn check_counts(
    notes: &mut Notes,
    parts: &[Part<'_>],
    sources: &[SourceSpec],
) -> Result<(), AllocError> {
    for source in sources {
        if let Some(part) = part_named(parts, source.uid.as_str()) {
            check_count(notes, source, part)?;
        }
    }
    Ok(())
}

/// Tells of what in the entries does not pass a test, source by source.
fn check_all_entries(
    notes: &mut Notes,
    parts: &[Part<'_>],
    plan: &Plan,
    fault: InputFault,
) -> Result<(), AllocError> {
    for source in plan.sources() {
        if let Some(part) = part_named(parts, source.uid.as_str()) {
            check_entries(notes, &part.value, test_of(plan, source, fault))?;
        }
    }
    Ok(())
}

/// What the entries of a source have to pass so that the requirement of a fault is met.
fn test_of(plan: &Plan, source: &SourceSpec, fault: InputFault) -> Test {
    let time = plan.window().time as usize;
    match fault {
        InputFault::Width => Test::Width(plan.columns() as usize),
        InputFault::Number => Test::Number,
        InputFault::Rows => Test::Rows,
        InputFault::TimeRange => Test::TimeRange(time),
        InputFault::Kind => Test::Kind(source.bound.is_some()),
        _ => Test::Late {
            time,
            bound: source.bound,
        },
    }
}

/// The faults of an input that is JSON, in the order of their requirements, but for the last: a record is late where
/// all else is met.
const FAULTS: [InputFault; 8] = [
    InputFault::Member,
    InputFault::Source,
    InputFault::Partitions,
    InputFault::Width,
    InputFault::Number,
    InputFault::Rows,
    InputFault::TimeRange,
    InputFault::Kind,
];

/// Tells of the places at which an input, which is JSON, does not meet the requirement of a fault, the first that it
/// does not meet, and then of those at which it does not meet a later one.
pub(crate) fn check(
    notes: &mut Notes,
    plan: &Plan,
    input: &Placed<'_>,
    fault: InputFault,
) -> Result<(), AllocError> {
    check_one(notes, plan, input, fault)?;
    for next in behind(&FAULTS, fault) {
        if notes.is_full() {
            break;
        }
        notes.go_on(*next)?;
        check_one(notes, plan, input, *next)?;
    }
    Ok(())
}

/// Tells of the places at which an input does not meet the requirement of a fault.
fn check_one(
    notes: &mut Notes,
    plan: &Plan,
    input: &Placed<'_>,
    fault: InputFault,
) -> Result<(), AllocError> {
    if fault == InputFault::Member {
        return check_shape(notes, input);
    }
    if !matches!(input.token, Token::BeginObject) {
        return Ok(());
    }
    let parts = input.parts(notes.alloc())?;
    match fault {
        InputFault::Source => check_names(notes, input, &parts, plan.sources()),
        InputFault::Partitions => check_counts(notes, &parts, plan.sources()),
        _ => check_all_entries(notes, &parts, plan, fault),
    }
}
