ghost use Rattle.stream_model.specs.InputData.{BelongsTo};
ghost use Rattle.layout_rules.specs.Scale.{IsScale};
ghost use Rattle.redistribute.specs.Begins.{IsStartIn};

use crate::making::stop_at;
use core_steps::Finish;
use layout_rules::Scale;
use leg_runs::run_leg_by;
use legs::{Cut, LegFault, Stop, Until};
use logical_plan::ReadPlan;
use plain_data::Items;
use plan_model::Plan;
use plan_scale::ReadScale;
use redistribute::Start;
use std::alloc::{AllocError, Global};
use std::process::Abort;
use std::random::RandomSource;
use std::test::Fail;
use stream_input::ReadInput;
use stream_model::Input;
use window_state::HashKeys;

const PLAN: &str =
    r#"{"columns":3,"maxParallelism":128,"time":0,"key":1,"sources":[{"uid":"s","partitions":2}],"window":{"uid":"w","size":10,"aggregates":[{"fn":"count"}]}}"#;

/// Three entries in each of two partitions.
const INPUT: &str =
    r#"{"s":[[{"rows":[[1,1,5],[12,1,7]]},{"watermark":9},{"rows":[[15,0,-3]]}],[{"rows":[[3,0,4]]},{"watermark":11},{"rows":[[13,1,2]]}]]}"#;

const ONE_ONE: &str = r#"{"ring":4,"operators":{"s":{"parallelism":1},"w":{"parallelism":1}}}"#;

/// A cut where so many entries of each partition were read.
fn cut_of(alloc: Global, counts: &[u64]) -> Result<Cut, AllocError> {
    let source = Items::from_vec(Vec::from_slice(alloc, counts)?);
    let counts = Items::from_vec(vec![in alloc; source]?);
    Ok(Cut { counts })
}

/// Cuts at which a leg is to take savepoints, where it stops, if it does, and whether it can take them.
#[derive(Clone, Copy)]
struct Case<'a> {
    saves: &'a [&'a [u64]],
    stop: Option<&'a [u64]>,
    can: bool,
}

fn check_case<R: AllocGlobal + Abort>(
    rt: &R,
    input: &Input,
    start: &Start,
    case: &Case<'_>,
) -> Result<(), Fail> {
    let alloc = rt.alloc();
    let mut saves = Vec::new(alloc);
    for counts in case.saves {
        saves.push(cut_of(alloc, *counts)?)?;
    }
    let stop = stop_at(alloc, case.stop)?;
    let expected = if case.can {
        Ok(())
    } else {
        Err(LegFault::SaveRange)
    };
    assert_eq!(rt;
        start.check_saves(input, &saves, &stop),
        expected,
        "{:?}",
        case.saves
    );
    let until = Until::from(stop);
    assert_eq!(rt; start.check_saves_until(input, &saves, &until), expected);
    Ok(())
}

fn check_cases<R: AllocGlobal + Abort>(rt: &R, input: &Input, start: &Start) -> Result<(), Fail> {
    for case in [
        Case {
            saves: &[],
            stop: None,
            can: true,
        },
        Case {
            saves: &[&[2, 2]],
            stop: None,
            can: true,
        },
        Case {
            saves: &[&[0, 0], &[0, 0], &[3, 3]],
            stop: None,
            can: true,
        },
        Case {
            saves: &[&[2, 2], &[1, 3]],
            stop: None,
            can: false,
        },
        Case {
            saves: &[&[3, 4]],
            stop: None,
            can: false,
        },
        Case {
            saves: &[&[2]],
            stop: None,
            can: false,
        },
        Case {
            saves: &[&[1, 2], &[2, 2]],
            stop: Some(&[2, 2]),
            can: true,
        },
        Case {
            saves: &[&[2, 2]],
            stop: Some(&[2, 1]),
            can: false,
        },
    ] {
        check_case(rt, input, start, &case)?;
    }
    Ok(())
}

/// A leg takes so many savepoints, and not one more; where it may be asked to stop, none.
fn check_limits<R: AllocGlobal + Abort>(rt: &R, input: &Input, start: &Start) -> Result<(), Fail> {
    let alloc = rt.alloc();
    let one = [cut_of(alloc, &[1, 1])?];
    assert_eq!(rt;
        start.check_saves_until(input, &[], &Until::TillAsked),
        Ok(())
    );
    assert_eq!(rt;
        start.check_saves_until(input, &one, &Until::TillAsked),
        Err(LegFault::SaveRange)
    );
    let mut saves = Vec::new(alloc);
    for _ in 0..1024 {
        saves.push(cut_of(alloc, &[1, 1])?)?;
    }
    assert_eq!(rt; start.check_saves(input, &saves, &Stop::Never), Ok(()));
    saves.push(cut_of(alloc, &[1, 1])?)?;
    assert_eq!(rt;
        start.check_saves(input, &saves, &Stop::Never),
        Err(LegFault::SaveRange)
    );
    Ok(())
}

/// What a leg comes to that goes to its end: its rows, and what it has sealed, a barrier with rows and the savepoint's
/// number.
#[derive(Clone, Copy, Debug, PartialEq, Eq)]
struct Ended {
    rows: usize,
    sealed: Option<(u64, usize, u64)>,
}

fn ended_so(finish: &Finish) -> Option<Ended> {
    let Finish::Ended(rows, sealed) = finish else {
        return None;
    };
    let sealed = match sealed {
        Some(sealed) => Some((
            sealed.barrier,
            sealed.rows.len(),
            sealed.savepoint.contents().number,
        )),
        None => None,
    };
    Some(Ended {
        rows: rows.len(),
        sealed,
    })
}

/// What a leg comes to that takes savepoints at cuts, where it goes to its end, or why there is none.
fn ended_at(
    alloc: Global,
    keys: HashKeys,
    plan: &Plan,
    input: &Input,
    start: &Start,
    scale: &Scale,
    saves: &[Cut],
) -> Result<Option<Ended>, LegFault>
    requires belongs { BelongsTo plan.now input.now }
    requires scale { IsScale plan.now scale.now }
    requires starts { IsStartIn plan.now input.now start.now }
{
    let never = Stop::Never;
    let finish = run_leg_by(alloc, keys, plan, input, start, scale, saves, never, &[])?;
    let finish = Box::new(alloc, finish)?;
    Ok(ended_so(&finish))
}

fn check_legs_at<R: AllocGlobal + Abort + RandomSource>(
    rt: &R,
    plan: &Plan,
    input: &Input,
    start: &Start,
    scale: &Scale,
) -> Result<(), Fail>
    requires belongs { BelongsTo plan.now input.now }
    requires scale { IsScale plan.now scale.now }
    requires starts { IsStartIn plan.now input.now start.now }
{
    let alloc = rt.alloc();
    let keys = HashKeys::random(rt)?;
    let mut saves = Vec::new(alloc);
    for sealed in [None, Some((1, 0, 1)), Some((2, 2, 2)), Some((3, 2, 3))] {
        let ended = ended_at(alloc, keys, plan, input, start, scale, &saves);
        assert_eq!(rt; ended, Ok(Some(Ended { rows: 4, sealed })));
        let count = (saves.len() as u64).min(1) * 2;
        saves.push(cut_of(alloc, &[count, count])?)?;
    }
    saves.push(cut_of(alloc, &[1, 2])?)?;
    let refused = ended_at(alloc, keys, plan, input, start, scale, &saves);
    assert_eq!(rt; refused, Err(LegFault::SaveRange));
    Ok(())
}

fn check_legs<R: AllocGlobal + Abort + RandomSource>(
    rt: &R,
    plan: &Plan,
    input: &Input,
    start: &Start,
) -> Result<(), Fail>
    requires belongs { BelongsTo plan.now input.now }
    requires starts { IsStartIn plan.now input.now start.now }
{
    let alloc = rt.alloc();
    let scale = Box::new(alloc, Scale::read(alloc, plan, ONE_ONE.as_bytes())?)?;
    check_legs_at(rt, plan, input, start, &scale)
}

fn check_start<R: AllocGlobal + Abort + RandomSource>(
    rt: &R,
    plan: &Plan,
    input: &Input,
) -> Result<(), Fail>
    requires { BelongsTo plan.now input.now }
{
    let start = Box::new(rt.alloc(), Start::empty(rt.alloc(), plan, input)?)?;
    check_cases(rt, input, &start)?;
    check_limits(rt, input, &start)?;
    check_legs(rt, plan, input, &start)
}

fn check_plan<R: AllocGlobal + Abort + RandomSource>(rt: &R, plan: &Plan) -> Result<(), Fail> {
    let input = Box::new(rt.alloc(), Input::read(rt.alloc(), plan, INPUT.as_bytes())?)?;
    check_start(rt, plan, &input)
}

#[test]
fn a_leg_takes_savepoints_at_cuts_that_rise_to_its_stop(rt: HostRuntime) -> Result<(), Fail> {
    let plan = Box::new(rt.alloc(), Plan::read(rt.alloc(), PLAN.as_bytes())?)?;
    check_plan(&rt, &plan)
}
