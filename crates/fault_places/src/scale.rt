//! The places of a scale.

use json::Token;
use key_groups::MOST_SUBTASKS;
use layout_rules::{MOST_CAPACITY, ScaleFault};
use place_notes::{
    Form, Member, Notes, Owner, Range, Rule, Shape, behind, check_object, check_range, member_of,
    tell_other,
};
use plan_model::{FilterSpec, Plan, SourceSpec};
use std::alloc::AllocError;
use text_places::{Part, Placed, part_named};

const SCALE_MEMBERS: [Rule; 2] = [
    Rule {
        name: "ring",
        form: Form::Whole,
        may_be_absent: false,
    },
    Rule {
        name: "operators",
        form: Form::Object,
        may_be_absent: false,
    },
];

const OPERATOR_MEMBERS: [Rule; 2] = [
    Rule {
        name: "parallelism",
        form: Form::Whole,
        may_be_absent: false,
    },
    Rule {
        name: "chain",
        form: Form::Flag,
        may_be_absent: true,
    },
];

fn scale_shape() -> Shape {
    Shape {
        rules: &SCALE_MEMBERS,
        names: "ring and operators",
    }
}

fn operator_shape() -> Shape {
    Shape {
        rules: &OPERATOR_MEMBERS,
        names: "parallelism, and perhaps chain",
    }
}

/// Tells of the operators whose members are missing, unknown or of another form.
fn check_operators(notes: &mut Notes, operators: &Placed<'_>) -> Result<(), AllocError> {
    if !matches!(operators.token, Token::BeginObject) {
        return tell_other(
            notes,
            Owner::One("`operators` of the scale"),
            operators,
            "an object",
        );
    }
    let parts = operators.parts(notes.alloc())?;
    for part in &parts {
        let owner = Owner::Named("operator", part.name);
        check_object(notes, owner, &part.value, operator_shape())?;
    }
    Ok(())
}

/// Tells of the members that are missing, unknown or of another form.
fn check_shape(notes: &mut Notes, scale: &Placed<'_>) -> Result<(), AllocError> {
    check_object(notes, Owner::One("the scale"), scale, scale_shape())?;
    match member_of(notes.alloc(), scale, "operators")? {
        Some(operators) => check_operators(notes, &operators),
        None => Ok(()),
    }
}

/// Tells of a name under which the plan has no operator.
fn check_known(notes: &mut Notes, plan: &Plan, part: &Part<'_>) -> Result<(), AllocError> {
    let name = part.name;
    if plan.place_of(name).is_some() {
        return Ok(());
    }
    let sentence = format!(in notes.alloc(); "the plan has no operator {name:?}")?;
    notes.tell(part.offset, sentence)
}

/// Tells of an operator of the plan that no part names.
fn check_given(
    notes: &mut Notes,
    operators: &Placed<'_>,
    parts: &[Part<'_>],
    uid: &str,
) -> Result<(), AllocError> {
    if part_named(parts, uid).is_some() {
        return Ok(());
    }
    let sentence = format!(in notes.alloc(); "the operator {uid:?} of the plan is missing here")?;
    notes.tell(operators.offset, sentence)
}

fn check_sources_given(
    notes: &mut Notes,
    operators: &Placed<'_>,
    parts: &[Part<'_>],
    sources: &[SourceSpec],
) -> Result<(), AllocError> {
    for source in sources {
        check_given(notes, operators, parts, source.uid.as_str())?;
    }
    Ok(())
}

fn check_filters_given(
    notes: &mut Notes,
    operators: &Placed<'_>,
    parts: &[Part<'_>],
    filters: &[FilterSpec],
) -> Result<(), AllocError> {
    for filter in filters {
        check_given(notes, operators, parts, filter.uid.as_str())?;
    }
    Ok(())
}

/// Tells of the operators of the plan that are missing.
fn check_all_given(
    notes: &mut Notes,
    plan: &Plan,
    operators: &Placed<'_>,
    parts: &[Part<'_>],
) -> Result<(), AllocError> {
    check_sources_given(notes, operators, parts, plan.sources())?;
    check_filters_given(notes, operators, parts, plan.filters())?;
    check_given(notes, operators, parts, plan.window().uid.as_str())
}

/// Tells of a parallelism that is not 1 to 64, or over the number of key groups.
fn check_parallelism(notes: &mut Notes, plan: &Plan, part: &Part<'_>) -> Result<(), AllocError> {
    let member = Member {
        owner: Owner::Named("operator", part.name),
        object: &part.value,
        name: "parallelism",
    };
    let most = i64::from(plan.max().min(MOST_SUBTASKS));
    check_range(notes, member, Range { least: 1, most })
}

/// Tells of each part that does not meet the requirement of a fault.
fn check_each(
    notes: &mut Notes,
    plan: &Plan,
    parts: &[Part<'_>],
    fault: ScaleFault,
) -> Result<(), AllocError> {
    for part in parts {
        if fault == ScaleFault::UnknownUid {
            check_known(notes, plan, part)?;
        } else {
            check_parallelism(notes, plan, part)?;
        }
    }
    Ok(())
}

/// Tells of the operators that do not meet the requirement of a fault.
fn check_under(
    notes: &mut Notes,
    plan: &Plan,
    scale: &Placed<'_>,
    fault: ScaleFault,
) -> Result<(), AllocError> {
    let Some(operators) = member_of(notes.alloc(), scale, "operators")? else {
        return Ok(());
    };
    let parts = operators.parts(notes.alloc())?;
    match fault {
        ScaleFault::MissingUid => check_all_given(notes, plan, &operators, &parts),
        ScaleFault::Tasks => notes.tell(
            operators.offset,
            String::from_str(notes.alloc(), "the layout has more than 256 tasks")?,
        ),
        _ => check_each(notes, plan, &parts, fault),
    }
}

/// Tells of a ring that holds not 1 to 1,024 messages.
fn check_ring(notes: &mut Notes, scale: &Placed<'_>) -> Result<(), AllocError> {
    let member = Member {
        owner: Owner::One("the scale"),
        object: scale,
        name: "ring",
    };
    let most = i64::from(MOST_CAPACITY);
    check_range(notes, member, Range { least: 1, most })
}

/// The faults of a scale that is JSON, in the order of their requirements, but for the last: how many tasks a layout
/// has is not counted here.
const FAULTS: [ScaleFault; 5] = [
    ScaleFault::Member,
    ScaleFault::UnknownUid,
    ScaleFault::MissingUid,
    ScaleFault::Parallelism,
    ScaleFault::Ring,
];

/// Tells of the places at which a scale, which is JSON, does not meet the requirement of a fault, the first that it
/// does not meet, and then of those at which it does not meet a later one.
pub(crate) fn check(
    notes: &mut Notes,
    plan: &Plan,
    scale: &Placed<'_>,
    fault: ScaleFault,
) -> Result<(), AllocError> {
    check_one(notes, plan, scale, fault)?;
    for next in behind(&FAULTS, fault) {
        if notes.is_full() {
            break;
        }
        notes.go_on(*next)?;
        check_one(notes, plan, scale, *next)?;
    }
    Ok(())
}

/// Tells of the places at which a scale does not meet the requirement of a fault.
fn check_one(
    notes: &mut Notes,
    plan: &Plan,
    scale: &Placed<'_>,
    fault: ScaleFault,
) -> Result<(), AllocError> {
    match fault {
        ScaleFault::NotJson | ScaleFault::Memory => Ok(()),
        ScaleFault::Member => check_shape(notes, scale),
        ScaleFault::Ring => check_ring(notes, scale),
        _ => check_under(notes, plan, scale, fault),
    }
}
