ghost use Rattle.stream_model.specs.InputData.{BelongsTo};
ghost use Rattle.redistribute.specs.Begins.{IsStartIn};
ghost use Rattle.task_setups.specs.Legs.{IsLayoutOf};

use crate::making::{layout_at, stop_at};
use core_steps::{Finish, Given, Sealed, World};
use dataflow_laws::Step;
use legs::{LegFault, Stop};
use logical_plan::ReadPlan;
use plan_model::{Plan, Row};
use redistribute::Start;
use std::alloc::{AllocError, Global};
use std::process::Abort;
use std::random::RandomSource;
use std::test::Fail;
use stream_input::ReadInput;
use stream_model::Input;
use task_steps::StepFault;
use window_state::HashKeys;

const USAGE: &str =
    r#"{"columns":3,"maxParallelism":128,"time":0,"key":1,"sources":[{"uid":"s","partitions":2}],"window":{"uid":"w","size":10,"aggregates":[{"fn":"count"},{"fn":"sum","column":2}]}}"#;

const ONE_ONE: &str = r#"{"ring":4,"operators":{"s":{"parallelism":1},"w":{"parallelism":1}}}"#;

const TWO_THREE: &str = r#"{"ring":4,"operators":{"s":{"parallelism":2},"w":{"parallelism":3}}}"#;

const TWO_THREE_SHORT: &str =
    r#"{"ring":1,"operators":{"s":{"parallelism":2},"w":{"parallelism":3}}}"#;

/// Both keys are of the last of three subtasks of the window.
const THREE_AND_THREE: &str =
    r#"{"s":[[{"rows":[[1,1,5],[12,1,7]]},{"watermark":9},{"rows":[[15,0,-3]]}],[{"rows":[[3,0,4]]},{"watermark":11},{"rows":[[13,1,2]]}]]}"#;

/// Each step can be made now, or cannot, as it is said.
fn check_enabled<R: Abort>(rt: &R, world: &World, listed: &[(Step, bool)]) {
    for (step, can) in listed {
        assert_eq!(rt; world.enabled(*step), *can, "{step:?}");
    }
}

/// What comes of a step.
fn answer_of(world: &mut World, step: Step) -> Option<StepFault> {
    match world.apply(step) {
        Ok(()) => None,
        Err(fault) => Some(fault),
    }
}

const DONE: Option<StepFault> = None;

const REFUSED: Option<StepFault> = Some(StepFault::NotEnabled);

/// Each step in turn is made, or refused, as it is said.
fn play<R: Abort>(rt: &R, world: &mut World, steps: &[(Step, Option<StepFault>)]) {
    for (step, wanted) in steps {
        let can = world.enabled(*step);
        let answer = answer_of(world, *step);
        assert_eq!(rt; answer, *wanted, "{step:?}");
        assert_eq!(rt; can, answer.is_none(), "{step:?}");
    }
    assert!(rt; !world.has_failed());
}

/// None of the steps that cannot be made is made, and what can be made is the same after each.
fn check_refused<R: Abort>(rt: &R, world: &mut World, listed: &[(Step, bool)]) {
    check_enabled(rt, world, listed);
    for (step, can) in listed {
        if !*can {
            assert_eq!(rt; answer_of(world, *step), REFUSED, "{step:?}");
            check_enabled(rt, world, listed);
        }
    }
}

/// Whether a step of these, in turn, finds no memory.
fn finds_no_memory(world: &mut World, steps: &[(Step, Option<StepFault>)]) -> bool {
    for (step, _) in steps {
        if answer_of(world, *step) == Some(StepFault::Memory) {
            return true;
        }
    }
    false
}

/// A world that has failed makes no step.
fn check_failed<R: Abort>(rt: &R, world: &mut World, listed: &[(Step, bool)]) {
    assert!(rt; world.has_failed());
    for (step, _) in listed {
        assert!(rt; !world.enabled(*step));
        assert_eq!(rt;
            answer_of(world, *step),
            Some(StepFault::Failed),
            "{step:?}"
        );
    }
}

/// What is done to a world, and what comes of it.
#[derive(Clone, Copy)]
enum Part {
    /// Steps in turn, each made or refused.
    Steps(&'static [(Step, Option<StepFault>)]),
    /// Steps that can be made now, or cannot.
    Listed(&'static [(Step, bool)]),
    /// Steps in turn until one finds no memory, and steps that cannot be made after that.
    Failing(&'static [(Step, Option<StepFault>)], &'static [(Step, bool)]),
    /// What has been sealed by now.
    Sealed(Option<Seal>),
}

/// The number of a barrier, the rows before it, and the key groups that its savepoint has.
#[derive(Clone, Copy)]
struct Seal {
    barrier: u64,
    rows: &'static [Shown],
    groups: usize,
}

fn is_sealed_so(sealed: &Option<Sealed>, seal: &Option<Seal>) -> bool {
    match (sealed, seal) {
        (None, None) => true,
        (Some(sealed), Some(seal)) => {
            let contents = sealed.savepoint.contents();
            sealed.barrier == seal.barrier
                && are_shown(sealed.rows.as_slice(), seal.rows)
                && contents.number == seal.barrier
                && contents.groups.len() == seal.groups
        }
        _ => false,
    }
}

fn check_sealed<R: AllocGlobal + Abort>(
    rt: &R,
    world: &World,
    seal: &Option<Seal>,
) -> Result<(), AllocError> {
    let sealed = Box::new(rt.alloc(), world.sealed(rt.alloc())?)?;
    assert!(rt; is_sealed_so(&sealed, seal));
    Ok(())
}

fn play_part<R: AllocGlobal + Abort>(
    rt: &R,
    world: &mut World,
    part: &Part,
) -> Result<(), AllocError> {
    match part {
        Part::Steps(steps) => play(rt, world, steps),
        Part::Listed(listed) => check_refused(rt, world, listed),
        Part::Failing(steps, listed) => {
            if finds_no_memory(world, steps) {
                check_failed(rt, world, listed);
                check_sealed(rt, world, &None)?;
            }
        }
        Part::Sealed(seal) => check_sealed(rt, world, seal)?,
    }
    Ok(())
}

/// The start, the key and the numbers of a row.
type Shown = (i64, i64, [i64; 2]);

/// How a world has ended.
#[derive(Clone, Copy)]
enum Ending {
    GoesOn,
    /// With these rows, and this sealed on its way.
    Ended(&'static [Shown], Option<Seal>),
    Stopped(&'static [Shown]),
}

fn is_shown(row: &Row, shown: &Shown) -> bool {
    (row.start, row.key) == (shown.0, shown.1)
        && row
            .values
            .narrow()
            .is_some_and(|numbers| numbers == shown.2.as_slice())
}

fn are_shown(rows: &[Row], shown: &[Shown]) -> bool {
    rows.len() == shown.len() && rows.iter().zip(shown).all(|(row, one)| is_shown(row, one))
}

fn has_ended_so(finish: &Option<Finish>, ending: &Ending) -> bool {
    match (finish, ending) {
        (None, Ending::GoesOn) => true,
        (Some(Finish::Ended(rows, sealed)), Ending::Ended(shown, seal)) => {
            are_shown(rows.as_slice(), shown) && is_sealed_so(sealed, seal)
        }
        (Some(Finish::Stopped(rows, savepoint)), Ending::Stopped(shown)) => {
            are_shown(rows.as_slice(), shown) && savepoint.contents().number == 1
        }
        _ => false,
    }
}

fn ends_so(alloc: Global, world: Box<World>, ending: &Ending) -> Result<bool, AllocError> {
    let finish = Box::new(alloc, Box::into_inner(world).finish(alloc)?)?;
    Ok(has_ended_so(&finish, ending))
}

/// The world is finished or not, and has ended so.
fn check_end<R: AllocGlobal + Abort>(
    rt: &R,
    world: Box<World>,
    ending: &Ending,
) -> Result<(), AllocError> {
    let is_over = !matches!(ending, Ending::GoesOn);
    assert_eq!(rt; world.is_finished(), is_over);
    assert!(rt; ends_so(rt.alloc(), world, ending)?);
    Ok(())
}

/// What is tried: a leg of the job at a scale, to where so many entries were read or to its end, or with a savepoint
/// where it goes on there; what is done to its world, from its opening on, and how that has ended then.
#[derive(Clone, Copy)]
struct Case<'a> {
    scale: &'a str,
    stop: Option<&'a [u64]>,
    goes_on: bool,
    parts: &'a [Part],
    ending: Ending,
}

fn check_world<R: AllocGlobal + Abort>(
    rt: &R,
    keys: HashKeys,
    given: Given<'_>,
    stop: Stop,
    case: &Case<'_>,
) -> Result<(), LegFault>
    requires belongs { BelongsTo given.plan.now given.input.now }
    requires starts { IsStartIn given.plan.now given.input.now given.start.now }
    requires laid_out { IsLayoutOf given.plan.now given.layout.now }
{
    let world = World::new(rt.alloc(), keys, given, stop)?;
    let mut world = Box::new(rt.alloc(), world)?;
    for part in case.parts {
        play_part(rt, &mut world, part)?;
    }
    check_end(rt, world, &case.ending)?;
    Ok(())
}

fn check_given<R: AllocGlobal + Abort + RandomSource>(
    rt: &R,
    given: Given<'_>,
    case: &Case<'_>,
) -> Result<Result<(), LegFault>, Fail>
    requires belongs { BelongsTo given.plan.now given.input.now }
    requires starts { IsStartIn given.plan.now given.input.now given.start.now }
    requires laid_out { IsLayoutOf given.plan.now given.layout.now }
{
    let keys = HashKeys::random(rt)?;
    let stop = stop_at(rt.alloc(), case.stop)?;
    Ok(check_world(rt, keys, given, stop, case))
}

/// The leg takes a savepoint where it could stop, goes on, and runs to its end.
fn check_on_way<R: AllocGlobal + Abort + RandomSource>(
    rt: &R,
    given: Given<'_>,
    case: &Case<'_>,
) -> Result<Result<(), LegFault>, Fail>
    requires belongs { BelongsTo given.plan.now given.input.now }
    requires starts { IsStartIn given.plan.now given.input.now given.start.now }
    requires laid_out { IsLayoutOf given.plan.now given.layout.now }
{
    let keys = HashKeys::random(rt)?;
    let Stop::At(cut) = stop_at(rt.alloc(), case.stop)? else {
        return Ok(Ok(()));
    };
    let given = Given {
        plan: given.plan,
        input: given.input,
        start: given.start,
        layout: given.layout,
        saves: &[cut],
    };
    Ok(check_world(rt, keys, given, Stop::Never, case))
}

fn check_start<R: AllocGlobal + Abort + RandomSource>(
    rt: &R,
    plan: &Plan,
    input: &Input,
    start: &Start,
    case: &Case<'_>,
) -> Result<Result<(), LegFault>, Fail>
    requires belongs { BelongsTo plan.now input.now }
    requires starts { IsStartIn plan.now input.now start.now }
{
    let layout = Box::new(rt.alloc(), layout_at(rt.alloc(), plan, case.scale)?)?;
    let given = Given {
        plan,
        input,
        start,
        layout: &layout,
        saves: &[],
    };
    if case.goes_on {
        return check_on_way(rt, given, case);
    }
    check_given(rt, given, case)
}

fn check_input<R: AllocGlobal + Abort + RandomSource>(
    rt: &R,
    plan: &Plan,
    input: &Input,
    case: &Case<'_>,
) -> Result<Result<(), LegFault>, Fail>
    requires { BelongsTo plan.now input.now }
{
    let start = Box::new(rt.alloc(), Start::empty(rt.alloc(), plan, input)?)?;
    check_start(rt, plan, input, &start, case)
}

fn check_plan<R: AllocGlobal + Abort + RandomSource>(
    rt: &R,
    plan: &Plan,
    case: &Case<'_>,
) -> Result<Result<(), LegFault>, Fail> {
    let alloc = rt.alloc();
    let input = Box::new(alloc, Input::read(alloc, plan, THREE_AND_THREE.as_bytes())?)?;
    check_input(rt, plan, &input, case)
}

/// Tries a case of the plan and the input.
fn check<R: AllocGlobal + Abort + RandomSource>(
    rt: &R,
    case: Case<'_>,
) -> Result<Result<(), LegFault>, Fail> {
    let plan = Box::new(rt.alloc(), Plan::read(rt.alloc(), USAGE.as_bytes())?)?;
    check_plan(rt, &plan, &case)
}

const OPENS: &[(Step, bool)] = &[
    (Step::Open(0), true),
    (Step::Open(1), true),
    (Step::Open(2), false),
    (Step::Open(5), false),
    (Step::Open(6), false),
    (Step::Read(0, 0), false),
    (Step::Read(1, 1), false),
    (Step::Read(1, 0), false),
    (Step::Read(6, 0), false),
    (Step::Save(0), false),
    (Step::Save(5), false),
    (Step::Save(6), false),
    (Step::Stop(0), false),
    (Step::Stop(5), false),
    (Step::Stop(6), false),
    (Step::Close(0), false),
    (Step::Close(5), false),
    (Step::Close(6), false),
    (Step::Take(0, 0), false),
    (Step::Take(2, 0), false),
    (Step::Take(4, 1), false),
    (Step::Take(5, 2), false),
    (Step::Take(5, 3), false),
    (Step::Take(6, 0), false),
    (Step::Put(0), false),
    (Step::Put(2), false),
    (Step::Put(5), false),
    (Step::Put(6), false),
];

#[test]
fn only_sources_can_do_something_as_it_opens(rt: HostRuntime) -> Result<(), Fail> {
    let case = Case {
        scale: TWO_THREE,
        stop: None,
        goes_on: false,
        parts: &[Part::Listed(OPENS), Part::Sealed(None)],
        ending: Ending::GoesOn,
    };
    assert_eq!(rt; check(&rt, case)?, Ok(()));
    Ok(())
}

const READS: &[(Step, Option<StepFault>)] = &[
    (Step::Read(1, 1), REFUSED),
    (Step::Open(1), DONE),
    (Step::Open(1), REFUSED),
    (Step::Read(1, 0), REFUSED),
    (Step::Read(1, 2), REFUSED),
    (Step::Close(1), REFUSED),
    (Step::Read(0, 0), REFUSED),
    (Step::Read(1, 1), DONE),
    (Step::Read(1, 1), REFUSED),
    (Step::Open(0), DONE),
    (Step::Read(0, 1), REFUSED),
    (Step::Read(0, 0), DONE),
];

#[test]
fn a_subtask_reads_its_own_partitions(rt: HostRuntime) -> Result<(), Fail> {
    let case = Case {
        scale: TWO_THREE,
        stop: None,
        goes_on: false,
        parts: &[Part::Steps(READS)],
        ending: Ending::GoesOn,
    };
    assert_eq!(rt; check(&rt, case)?, Ok(()));
    Ok(())
}

const MOVES: &[(Step, Option<StepFault>)] = &[
    (Step::Open(0), DONE),
    (Step::Put(0), REFUSED),
    (Step::Read(0, 0), DONE),
    (Step::Take(4, 0), REFUSED),
    (Step::Put(0), DONE),
    (Step::Put(0), REFUSED),
    (Step::Take(4, 1), REFUSED),
    (Step::Take(3, 0), REFUSED),
    (Step::Take(4, 0), DONE),
    (Step::Take(4, 0), REFUSED),
    (Step::Put(4), REFUSED),
];

#[test]
fn a_record_is_put_and_taken(rt: HostRuntime) -> Result<(), Fail> {
    let case = Case {
        scale: TWO_THREE,
        stop: None,
        goes_on: false,
        parts: &[Part::Steps(MOVES)],
        ending: Ending::GoesOn,
    };
    assert_eq!(rt; check(&rt, case)?, Ok(()));
    Ok(())
}

const FILLS: &[(Step, Option<StepFault>)] = &[
    (Step::Open(0), DONE),
    (Step::Read(0, 0), DONE),
    (Step::Put(0), DONE),
    (Step::Read(0, 0), DONE),
    (Step::Put(0), DONE),
    (Step::Put(0), DONE),
    (Step::Put(0), REFUSED),
    (Step::Read(0, 0), REFUSED),
    (Step::Take(4, 0), DONE),
    (Step::Put(0), DONE),
    (Step::Put(0), REFUSED),
    (Step::Read(0, 0), DONE),
];

#[test]
fn a_full_ring_takes_no_more(rt: HostRuntime) -> Result<(), Fail> {
    let case = Case {
        scale: TWO_THREE_SHORT,
        stop: None,
        goes_on: false,
        parts: &[Part::Steps(FILLS)],
        ending: Ending::GoesOn,
    };
    assert_eq!(rt; check(&rt, case)?, Ok(()));
    Ok(())
}

const TO_THE_CUT: &[(Step, Option<StepFault>)] = &[
    (Step::Open(0), DONE),
    (Step::Read(0, 0), DONE),
    (Step::Put(0), DONE),
    (Step::Read(0, 1), DONE),
    (Step::Put(0), DONE),
    (Step::Read(0, 0), DONE),
    (Step::Put(0), REFUSED),
    (Step::Stop(0), REFUSED),
    (Step::Read(0, 1), DONE),
    (Step::Put(0), DONE),
    (Step::Take(1, 0), DONE),
    (Step::Take(1, 0), DONE),
    (Step::Put(1), REFUSED),
    (Step::Take(1, 0), DONE),
    (Step::Put(1), DONE),
    (Step::Take(2, 0), DONE),
    (Step::Put(1), DONE),
    (Step::Take(2, 0), DONE),
];

const TO_THE_END: &[(Step, Option<StepFault>)] = &[
    (Step::Stop(0), REFUSED),
    (Step::Read(0, 0), DONE),
    (Step::Put(0), DONE),
    (Step::Put(0), DONE),
    (Step::Close(0), REFUSED),
    (Step::Read(0, 1), DONE),
    (Step::Close(0), REFUSED),
    (Step::Put(0), DONE),
    (Step::Put(0), DONE),
    (Step::Close(0), DONE),
    (Step::Take(1, 0), DONE),
    (Step::Put(0), DONE),
    (Step::Take(1, 0), DONE),
    (Step::Put(1), DONE),
    (Step::Take(1, 0), DONE),
    (Step::Take(1, 0), DONE),
    (Step::Put(1), DONE),
    (Step::Put(1), DONE),
    (Step::Take(1, 0), DONE),
    (Step::Put(1), DONE),
    (Step::Take(2, 0), DONE),
    (Step::Take(2, 0), DONE),
    (Step::Take(2, 0), DONE),
    (Step::Take(2, 0), DONE),
    (Step::Take(2, 0), REFUSED),
];

const ROWS: &[Shown] = &[
    (0, 0, [1, 4]),
    (0, 1, [1, 5]),
    (10, 0, [1, -3]),
    (10, 1, [2, 9]),
];

#[test]
fn it_ends_with_all_rows(rt: HostRuntime) -> Result<(), Fail> {
    let case = Case {
        scale: ONE_ONE,
        stop: None,
        goes_on: false,
        parts: &[
            Part::Steps(TO_THE_CUT),
            Part::Steps(TO_THE_END),
            Part::Sealed(None),
        ],
        ending: Ending::Ended(ROWS, None),
    };
    assert_eq!(rt; check(&rt, case)?, Ok(()));
    Ok(())
}

const AT_THE_CUT: &[(Step, Option<StepFault>)] = &[
    (Step::Read(0, 0), REFUSED),
    (Step::Close(0), REFUSED),
    (Step::Stop(0), DONE),
    (Step::Stop(0), REFUSED),
    (Step::Put(0), DONE),
    (Step::Take(1, 0), DONE),
    (Step::Put(1), DONE),
    (Step::Take(2, 0), DONE),
    (Step::Take(2, 0), REFUSED),
];

const FIRST_ROWS: &[Shown] = &[(0, 0, [1, 4]), (0, 1, [1, 5])];

/// What is sealed where two entries of each partition were read: one pane is left.
const FIRST_SEAL: Seal = Seal {
    barrier: 1,
    rows: FIRST_ROWS,
    groups: 1,
};

#[test]
fn it_stops_at_its_cut(rt: HostRuntime) -> Result<(), Fail> {
    let case = Case {
        scale: ONE_ONE,
        stop: Some(&[2, 2]),
        goes_on: false,
        parts: &[
            Part::Steps(TO_THE_CUT),
            Part::Sealed(None),
            Part::Steps(AT_THE_CUT),
            Part::Sealed(Some(FIRST_SEAL)),
        ],
        ending: Ending::Stopped(FIRST_ROWS),
    };
    assert_eq!(rt; check(&rt, case)?, Ok(()));
    Ok(())
}

const ON_THE_WAY: &[(Step, Option<StepFault>)] = &[
    (Step::Read(0, 0), REFUSED),
    (Step::Stop(0), REFUSED),
    (Step::Close(0), REFUSED),
    (Step::Save(1), REFUSED),
    (Step::Save(0), DONE),
    (Step::Save(0), REFUSED),
    (Step::Read(0, 0), REFUSED),
    (Step::Put(0), DONE),
    (Step::Save(0), REFUSED),
    (Step::Take(1, 0), DONE),
    (Step::Put(1), DONE),
];

const BARRIER_AT_THE_SINK: &[(Step, Option<StepFault>)] = &[
    (Step::Take(2, 0), DONE),
    (Step::Take(2, 0), REFUSED),
];

#[test]
fn it_takes_a_savepoint_and_goes_on(rt: HostRuntime) -> Result<(), Fail> {
    let case = Case {
        scale: ONE_ONE,
        stop: Some(&[2, 2]),
        goes_on: true,
        parts: &[
            Part::Steps(&[(Step::Save(0), REFUSED)]),
            Part::Steps(TO_THE_CUT),
            Part::Steps(ON_THE_WAY),
            Part::Sealed(None),
            Part::Steps(BARRIER_AT_THE_SINK),
            Part::Sealed(Some(FIRST_SEAL)),
            Part::Steps(TO_THE_END),
            Part::Sealed(Some(FIRST_SEAL)),
        ],
        ending: Ending::Ended(ROWS, Some(FIRST_SEAL)),
    };
    assert_eq!(rt; check(&rt, case)?, Ok(()));
    Ok(())
}

// Where no allocation is made to fail there is memory.
#[test]
fn a_world_that_found_no_memory_has_failed(rt: HostRuntime) -> Result<(), Fail> {
    let case = Case {
        scale: ONE_ONE,
        stop: None,
        goes_on: false,
        parts: &[Part::Failing(TO_THE_CUT, OPENS)],
        ending: Ending::GoesOn,
    };
    let answer = check(&rt, case)?;
    assert!(rt; matches!(answer, Ok(()) | Err(LegFault::Memory)));
    Ok(())
}
