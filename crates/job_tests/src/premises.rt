//! What the headline theorem asks of legs and of starts, given by calls.

ghost use Rattle.std.specs.Prelude.{IfOk};
ghost use Rattle.redistribute.specs.Begins.{IsStartIn};
ghost use Rattle.stream_model.specs.InputData.{BelongsTo};
ghost use Rattle.task_setups.specs.Legs.{IsLayoutOf};

use crate::jobs::{INPUT, OTHER_PLAN, PLAN, SCALE, rows_of_leg};
use core_steps::{Finish, Given, World};
use job::{HashKeys, OpenGate};
use job_texts::JobFault;
use layout_rules::Scale;
use leg_runs::follow;
use legs::{Choice, Cut, Stop};
use lineages::{leg_of, start_from};
use logical_plan::ReadPlan;
use plain_data::Items;
use plan_compiler::{Layout, compile};
use plan_model::Plan;
use plan_scale::ReadScale;
use redistribute::Start;
use std::alloc::Global;
use std::process::Abort;
use std::test::Fail;
use stream_input::ReadInput;
use stream_model::Input;

pub fn layout_of(alloc: Global, plan: &Plan) -> Result<Layout, Fail>
    ensures { IfOk result (λ layout. IsLayoutOf plan.now layout) }
{
    let scale = Box::new(alloc, Scale::read(alloc, plan, SCALE.as_bytes())?)?;
    Ok(compile(alloc, plan, &scale)?)
}

/// Where two entries of each partition were read.
pub fn halfway(alloc: Global) -> Result<Cut, Fail> {
    let source = Items::from_vec(Vec::from_slice(alloc, &[2, 2])?);
    let counts = Items::from_vec(vec![in alloc; source]?);
    Ok(Cut { counts })
}

/// How many rows a leg has that makes so many steps at most, and whether it left a savepoint, if it ends.
fn rows_after(
    alloc: Global,
    keys: HashKeys,
    given: Given<'_>,
    stop: Stop,
    steps: usize,
) -> Result<Option<(usize, bool)>, Fail>
    requires belongs { BelongsTo given.plan.now given.input.now }
    requires starts { IsStartIn given.plan.now given.input.now given.start.now }
    requires laid_out { IsLayoutOf given.plan.now given.layout.now }
{
    let layout = given.layout;
    let choices = vec![in alloc; Choice { number: 0 }; steps]?;
    let mut world = Box::new(alloc, World::new(alloc, keys, given, stop)?)?;
    follow(alloc, &mut world, layout, &choices)?;
    match leg_of(alloc, Box::into_inner(world))? {
        Some(Finish::Ended(rows, _)) => Ok(Some((rows.len(), false))),
        Some(Finish::Stopped(rows, _)) => Ok(Some((rows.len(), true))),
        Some(Finish::Abandoned(_)) | None => Ok(None),
    }
}

fn check_legs(
    rt: &(impl AllocGlobal + Abort),
    keys: HashKeys,
    plan: &Plan,
    input: &Input,
) -> Result<(), Fail>
    requires { BelongsTo plan.now input.now }
{
    let start = Box::new(rt.alloc(), Start::empty(rt.alloc(), plan, input)?)?;
    check_legs_from(rt, keys, plan, input, &start)
}

/// What comes of so many steps, at most, of a leg that goes to the end, and of one that stops halfway.
fn check_steps(
    rt: &(impl AllocGlobal + Abort),
    keys: HashKeys,
    given: Given<'_>,
    steps: usize,
    wanted: [Option<(usize, bool)>; 2],
) -> Result<(), Fail>
    requires belongs { BelongsTo given.plan.now given.input.now }
    requires starts { IsStartIn given.plan.now given.input.now given.start.now }
    requires laid_out { IsLayoutOf given.plan.now given.layout.now }
{
    let alloc = rt.alloc();
    let whole = rows_after(alloc, keys, given, Stop::Never, steps)?;
    let half = rows_after(alloc, keys, given, Stop::At(halfway(alloc)?), steps)?;
    assert_eq!(rt; [whole, half], wanted);
    Ok(())
}

fn check_legs_from(
    rt: &(impl AllocGlobal + Abort),
    keys: HashKeys,
    plan: &Plan,
    input: &Input,
    start: &Start,
) -> Result<(), Fail>
    requires belongs { BelongsTo plan.now input.now }
    requires starts { IsStartIn plan.now input.now start.now }
{
    let layout = Box::new(rt.alloc(), layout_of(rt.alloc(), plan)?)?;
    let given = Given {
        plan,
        input,
        start,
        layout: &layout,
        saves: &[],
    };
    check_steps(rt, keys, given, 0, [None, None])?;
    check_steps(rt, keys, given, 5, [None, None])?;
    check_steps(rt, keys, given, 1000, [Some((4, false)), Some((2, true))])
}

fn check_legs_on_input(
    rt: &(impl AllocGlobal + Abort),
    keys: HashKeys,
    plan: &Plan,
) -> Result<(), Fail> {
    let input = Box::new(rt.alloc(), Input::read(rt.alloc(), plan, INPUT.as_bytes())?)?;
    check_legs(rt, keys, plan, &input)
}

#[test]
fn a_finished_world_is_a_leg(rt: HostRuntime) -> Result<(), Fail> {
    let keys = HashKeys::random(&rt)?;
    let plan = Box::new(rt.alloc(), Plan::read(rt.alloc(), PLAN.as_bytes())?)?;
    check_legs_on_input(&rt, keys, &plan)
}

/// Whether bytes give a start of an input at which each partition was read so far.
fn starts_at(
    alloc: Global,
    plan: &Plan,
    input: &Input,
    bytes: &[u8],
    read: u64,
) -> Result<bool, JobFault> {
    let start = Box::new(alloc, start_from(alloc, plan, input, bytes)?)?;
    Ok(
        start.sources().iter().all(|partitions| {
            partitions
                .as_slice()
                .iter()
                .all(|partition| partition.offset == read)
        }),
    )
}

/// Bytes give such a start, and others none.
fn check_start(rt: &(impl AllocGlobal + Abort), plan: &Plan, bytes: &[u8]) -> Result<(), Fail> {
    let alloc = rt.alloc();
    let input = Box::new(alloc, Input::read(alloc, plan, INPUT.as_bytes())?)?;
    assert_eq!(rt; starts_at(alloc, plan, &input, bytes, 2), Ok(true));
    assert_eq!(rt; starts_at(alloc, plan, &input, bytes, 1), Ok(false));
    for magic in [b"WSP1", b"WSP2"] {
        let none = starts_at(alloc, plan, &input, magic, 2);
        assert!(rt; matches!(none, Err(JobFault::Save(_))));
    }
    Ok(())
}

/// Bytes give no start by another plan.
fn check_refused(rt: &(impl AllocGlobal + Abort), other: &Plan, bytes: &[u8]) -> Result<(), Fail> {
    let alloc = rt.alloc();
    let input = Box::new(alloc, Input::read(alloc, other, INPUT.as_bytes())?)?;
    let none = starts_at(alloc, other, &input, bytes, 2);
    assert!(rt; matches!(none, Err(JobFault::Restore(_))));
    Ok(())
}

fn check_bytes(rt: &(impl AllocGlobal + Abort), bytes: &[u8]) -> Result<(), Fail> {
    let plan = Box::new(rt.alloc(), Plan::read(rt.alloc(), PLAN.as_bytes())?)?;
    check_start(rt, &plan, bytes)
}

fn check_other(rt: &(impl AllocGlobal + Abort), bytes: &[u8]) -> Result<(), Fail> {
    let other = Box::new(rt.alloc(), Plan::read(rt.alloc(), OTHER_PLAN.as_bytes())?)?;
    check_refused(rt, &other, bytes)
}

#[test]
fn a_start_comes_from_the_bytes_of_a_leg(rt: HostRuntime) -> Result<(), Fail> {
    let (_, saved) = rows_of_leg(&rt, SCALE, None, Some("2,2"), &OpenGate)?;
    let Some(bytes) = saved else {
        assert!(rt; false, "the leg leaves no savepoint");
        return Ok(());
    };
    check_bytes(&rt, &bytes)?;
    check_other(&rt, &bytes)
}
