//! A leg whose rings are made, and settled, by hand, and what workers do where one has failed.

ghost use Rattle.std.specs.Prelude.{◌≡◌, IfOk, IfSome, OnOk, length};
ghost use Rattle.stream_model.specs.InputData.{BelongsTo};
ghost use Rattle.legs.specs.Stops.{until_in};
ghost use Rattle.redistribute.specs.Begins.{IsStartIn};
ghost use Rattle.redistribute.specs.StartData.{offsets_of};
ghost use Rattle.redistribute.specs.Stopping.{CanGo};
ghost use Rattle.layout_rules.specs.Stages.{task_count};
ghost use Rattle.task_setups.specs.Legs.{IsLayoutOf};
ghost use Rattle.core_steps.specs.Given.{given_data};
ghost use Rattle.core_steps.specs.World.{IsSound};
ghost use Rattle.thread_runner.specs.Edges.{AreJoined, AreLeft, HasEdges, SameDones, in_names, out_names, put_tables, taken_tables};
ghost use Rattle.thread_runner.specs.Legs.{AreWorked, NoFaults};

use crate::making::{
    FOUR_EIGHT_SHORT, ONE_ONE, ROWS, THREE_AND_THREE, TWO_THREE, USAGE, layout_at, outcome_of,
};
use core_steps::{Finish, Given, finish_of};
use legs::{LegFault, Until};
use logical_plan::ReadPlan;
use plan_compiler::Layout;
use plan_model::Plan;
use redistribute::Start;
use std::alloc::{AllocError, Global};
use std::process::Abort;
use std::random::RandomSource;
use std::sync::Wait;
use std::sync::atomic::{AtomicBool, Ordering};
use std::test::Fail;
use std::thread::Threads;
use std::time::Clock;
use stream_input::ReadInput;
use stream_model::Input;
use task_setups::Leg;
use thread_runner::laws::{layouts_have_edges, workers_are_at_end, workers_hand_back_rings};
use thread_runner::{Done, OpenGate, has_fault, prepared, run_all, settle_all, tasks_of};
use window_state::HashKeys;

/// What workers hand back, with all edges settled, and how many messages lie on them.
fn settled(layout: &Layout, dones: Vec<Done>) -> (Vec<Done>, u64)
    requires count { length dones.items ≡ task_count layout.now.stages }
    requires edges { HasEdges layout.now.stages }
    requires joined { AreJoined layout.now.stages (out_names dones.items) (in_names dones.items) }
    ensures same { SameDones dones.items result.0.items }
    ensures left { AreLeft layout.now.stages (put_tables result.0.items) (taken_tables result.0.items) }
{
    let mut dones = dones;
    let left = settle_all(layout, dones.as_mut_slice());
    (dones, left)
}

/// How a leg ended whose workers had no fault, and how many messages are left on its rings.
fn settle(
    alloc: Global,
    given: Given<'_>,
    until: &Until,
    dones: Vec<Done>,
) -> Result<(Finish, u64), AllocError>
    requires sound { IsSound (given_data given (until_in until.now)) }
    requires worked { AreWorked (given_data given (until_in until.now)) dones.items }
    requires fine { NoFaults dones.items }
{
    let _edges = layouts_have_edges();
    let _rings = workers_hand_back_rings();
    let _end = workers_are_at_end();
    let (dones, left) = settled(given.layout, dones);
    let tasks = tasks_of(alloc, dones)?;
    Ok((finish_of(alloc, &given.begun(), until, tasks)?, left))
}

/// What the workers of a wired leg hand back, if none of them had a fault.
fn run_wired<R: AllocGlobal + Threads + Wait + Clock + Sync>(
    rt: &R,
    keys: HashKeys,
    given: Given<'_>,
    leg: &Leg<'_>,
) -> Result<Option<Vec<Done>>, LegFault>
    requires laid_out { IsLayoutOf given.plan.now given.layout.now }
    requires belongs { BelongsTo given.plan.now given.input.now }
    requires starts { IsStartIn given.plan.now given.input.now given.start.now }
    requires number { leg.now.number ≡ given.start.now.number }
    requires same { leg.now.saves.now ≡ given.saves.now }
    ensures stops { OnOk result (CanGo given.entry.input.now.sources (offsets_of given.entry.start.now) (until_in leg.now.until)) }
    ensures sound { OnOk result (IsSound (given_data given.entry (until_in leg.now.until))) }
    ensures worked { IfOk result (λ dones. IfSome dones (λ v. AreWorked (given_data given.entry (until_in leg.now.until)) v.items)) }
    ensures fine { IfOk result (λ dones. IfSome dones (λ v. NoFaults v.items)) }
{
    let jobs = prepared(rt.alloc(), keys, given, leg)?;
    let failed = AtomicBool::new(false);
    let dones = run_all(rt, rt.alloc(), given.input, jobs, &OpenGate, None, &failed)?;
    if has_fault(dones.as_slice()) {
        return Ok(None);
    }
    Ok(Some(dones))
}

/// The leg has all rows, and no message is left on its rings.
fn check_whole<R: AllocGlobal + Abort + Threads + Wait + Clock + Sync>(
    rt: &R,
    keys: HashKeys,
    given: Given<'_>,
    leg: &Leg<'_>,
) -> Result<(), LegFault>
    requires laid_out { IsLayoutOf given.plan.now given.layout.now }
    requires belongs { BelongsTo given.plan.now given.input.now }
    requires starts { IsStartIn given.plan.now given.input.now given.start.now }
    requires number { leg.now.number ≡ given.start.now.number }
    requires same { leg.now.saves.now ≡ given.saves.now }
{
    let Some(dones) = run_wired(rt, keys, given, leg)? else {
        return Err(LegFault::Memory);
    };
    let (finish, left) = settle(rt.alloc(), given, &leg.until, dones)?;
    assert_eq!(rt; left, 0);
    let outcome = outcome_of(rt.alloc(), finish, true)?;
    assert_eq!(rt; outcome.rows.as_str(), ROWS);
    assert!(rt; outcome.savepoint.is_none());
    Ok(())
}

/// Each of so many workers has ended early, and none has made a step.
fn check_early<R: Abort>(rt: &R, dones: &[Done], tasks: usize) {
    assert_eq!(rt; dones.len(), tasks);
    assert!(rt; has_fault(dones));
    for done in dones {
        assert_eq!(rt; done.fault, Some(LegFault::Memory));
        assert!(rt; !done.task.is_done());
        assert!(rt; !done.inputs.is_empty() || done.task.can_open());
    }
}

/// Workers that see the failure word set end at once, and hand back their tasks.
fn check_failed<R: AllocGlobal + Abort + Threads + Wait + Clock + Sync>(
    rt: &R,
    keys: HashKeys,
    given: Given<'_>,
    leg: &Leg<'_>,
    tasks: usize,
) -> Result<(), LegFault>
    requires laid_out { IsLayoutOf given.plan.now given.layout.now }
    requires belongs { BelongsTo given.plan.now given.input.now }
    requires starts { IsStartIn given.plan.now given.input.now given.start.now }
    requires number { leg.now.number ≡ given.start.now.number }
    requires same { leg.now.saves.now ≡ given.saves.now }
{
    let jobs = prepared(rt.alloc(), keys, given, leg)?;
    let failed = AtomicBool::new(true);
    let dones = run_all(rt, rt.alloc(), given.input, jobs, &OpenGate, None, &failed)?;
    check_early(rt, dones.as_slice(), tasks);
    assert!(rt; failed.load(Ordering::SeqCst));
    Ok(())
}

/// No job has no worker, and none that has a fault.
fn check_none<R: AllocGlobal + Abort + Threads + Wait + Clock + Sync>(
    rt: &R,
    input: &Input,
) -> Result<(), LegFault> {
    let failed = AtomicBool::new(false);
    let jobs = Vec::new(rt.alloc());
    let dones = run_all(rt, rt.alloc(), input, jobs, &OpenGate, None, &failed)?;
    assert!(rt; dones.is_empty());
    assert!(rt; !has_fault(dones.as_slice()));
    assert!(rt; !failed.load(Ordering::SeqCst));
    Ok(())
}

/// What is tried at a scale.
#[derive(Clone, Copy)]
enum Trial {
    Whole,
    /// With so many tasks.
    Failed(usize),
    None,
}

fn check_leg<R: AllocGlobal + Abort + Threads + Wait + Clock + Sync>(
    rt: &R,
    keys: HashKeys,
    given: Given<'_>,
    leg: &Leg<'_>,
    trial: Trial,
) -> Result<(), LegFault>
    requires laid_out { IsLayoutOf given.plan.now given.layout.now }
    requires belongs { BelongsTo given.plan.now given.input.now }
    requires starts { IsStartIn given.plan.now given.input.now given.start.now }
    requires number { leg.now.number ≡ given.start.now.number }
    requires same { leg.now.saves.now ≡ given.saves.now }
{
    match trial {
        Trial::Whole => check_whole(rt, keys, given, leg),
        Trial::Failed(tasks) => check_failed(rt, keys, given, leg, tasks),
        Trial::None => check_none(rt, given.input),
    }
}

fn check_given<R: AllocGlobal + Abort + RandomSource + Threads + Wait + Clock + Sync>(
    rt: &R,
    given: Given<'_>,
    trial: Trial,
) -> Result<(), Fail>
    requires laid_out { IsLayoutOf given.plan.now given.layout.now }
    requires belongs { BelongsTo given.plan.now given.input.now }
    requires starts { IsStartIn given.plan.now given.input.now given.start.now }
{
    let keys = HashKeys::random(rt)?;
    let leg = Leg {
        number: given.start.number(),
        saves: given.saves,
        until: Until::ToEnd,
    };
    Ok(check_leg(rt, keys, given, &leg, trial)?)
}

fn check_started<R: AllocGlobal + Abort + RandomSource + Threads + Wait + Clock + Sync>(
    rt: &R,
    plan: &Plan,
    input: &Input,
    start: &Start,
    scale: &str,
    trial: Trial,
) -> Result<(), Fail>
    requires belongs { BelongsTo plan.now input.now }
    requires starts { IsStartIn plan.now input.now start.now }
{
    let layout = Box::new(rt.alloc(), layout_at(rt.alloc(), plan, scale)?)?;
    let given = Given {
        plan,
        input,
        start,
        layout: &layout,
        saves: &[],
    };
    check_given(rt, given, trial)
}

fn check_input<R: AllocGlobal + Abort + RandomSource + Threads + Wait + Clock + Sync>(
    rt: &R,
    plan: &Plan,
    input: &Input,
    scale: &str,
    trial: Trial,
) -> Result<(), Fail>
    requires { BelongsTo plan.now input.now }
{
    let start = Box::new(rt.alloc(), Start::empty(rt.alloc(), plan, input)?)?;
    check_started(rt, plan, input, &start, scale, trial)
}

fn check_plan<R: AllocGlobal + Abort + RandomSource + Threads + Wait + Clock + Sync>(
    rt: &R,
    plan: &Plan,
    scale: &str,
    trial: Trial,
) -> Result<(), Fail> {
    let alloc = rt.alloc();
    let input = Box::new(alloc, Input::read(alloc, plan, THREE_AND_THREE.as_bytes())?)?;
    check_input(rt, plan, &input, scale, trial)
}

fn check<R: AllocGlobal + Abort + RandomSource + Threads + Wait + Clock + Sync>(
    rt: &R,
    scale: &str,
    trial: Trial,
) -> Result<(), Fail> {
    let plan = Box::new(rt.alloc(), Plan::read(rt.alloc(), USAGE.as_bytes())?)?;
    check_plan(rt, &plan, scale, trial)
}

#[test]
fn a_leg_that_is_wired_by_hand_has_all_rows(rt: HostRuntime) -> Result<(), Fail> {
    check(&rt, ONE_ONE, Trial::Whole)?;
    check(&rt, TWO_THREE, Trial::Whole)?;
    check(&rt, FOUR_EIGHT_SHORT, Trial::Whole)
}

#[test]
fn workers_end_where_one_has_failed(rt: HostRuntime) -> Result<(), Fail> {
    check(&rt, ONE_ONE, Trial::Failed(3))?;
    check(&rt, TWO_THREE, Trial::Failed(6))
}

#[test]
fn no_job_has_no_worker(rt: HostRuntime) -> Result<(), Fail> {
    check(&rt, ONE_ONE, Trial::None)
}
