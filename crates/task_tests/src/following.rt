//! Choices are followed: each makes the step at its place among all that could be made.

ghost use Rattle.std.specs.Prelude.{◌≡◌, ◌<◌, false};
ghost use Rattle.layout_rules.specs.Stages.{task_count};
ghost use Rattle.redistribute.specs.Begins.{IsStartIn};
ghost use Rattle.stream_model.specs.InputData.{BelongsTo};
ghost use Rattle.task_setups.specs.Legs.{IsLayoutOf};

use crate::making::{layout_at, stop_at};
use core_steps::{Given, World};
use dataflow_laws::Step;
use leg_runs::follow;
use legs::Choice;
use logical_plan::ReadPlan;
use plan_compiler::Layout;
use plan_model::Plan;
use redistribute::Start;
use std::alloc::{AllocError, Global};
use std::process::Abort;
use std::random::RandomSource;
use std::test::Fail;
use stream_input::ReadInput;
use stream_model::Input;
use task_steps::StepFault;
use window_state::HashKeys;

const USAGE: &str =
    r#"{"columns":3,"maxParallelism":128,"time":0,"key":1,"sources":[{"uid":"s","partitions":2}],"window":{"uid":"w","size":10,"aggregates":[{"fn":"count"},{"fn":"sum","column":2},{"fn":"least","column":2},{"fn":"greatest","column":2}]}}"#;

const FILTERED: &str =
    r#"{"columns":3,"maxParallelism":128,"time":0,"key":1,"sources":[{"uid":"s","partitions":2}],"filters":[{"uid":"f","column":2,"op":"gt","value":0},{"uid":"g","column":2,"op":"lt","value":100}],"window":{"uid":"w","size":10,"aggregates":[{"fn":"count"},{"fn":"sum","column":2},{"fn":"least","column":2},{"fn":"greatest","column":2}]}}"#;

const SCALES: &[&str] = &[
    r#"{"ring":4,"operators":{"s":{"parallelism":1},"w":{"parallelism":1}}}"#,
    r#"{"ring":1,"operators":{"s":{"parallelism":1},"w":{"parallelism":1}}}"#,
    r#"{"ring":4,"operators":{"s":{"parallelism":2},"w":{"parallelism":3}}}"#,
    r#"{"ring":1,"operators":{"s":{"parallelism":2},"w":{"parallelism":3}}}"#,
    r#"{"ring":4,"operators":{"s":{"parallelism":4},"w":{"parallelism":3}}}"#,
    r#"{"ring":1,"operators":{"s":{"parallelism":4},"w":{"parallelism":3}}}"#,
];

const FILTERED_SCALES: &[&str] = &[
    r#"{"ring":4,"operators":{"s":{"parallelism":2},"f":{"parallelism":2},"g":{"parallelism":2,"chain":false},"w":{"parallelism":2}}}"#,
    r#"{"ring":1,"operators":{"s":{"parallelism":1},"f":{"parallelism":3},"g":{"parallelism":2},"w":{"parallelism":1}}}"#,
];

const THREE_AND_THREE: &str =
    r#"{"s":[[{"rows":[[1,1,5],[12,1,7]]},{"watermark":9},{"rows":[[15,0,-3]]}],[{"rows":[[3,0,4]]},{"watermark":11},{"rows":[[13,1,2]]}]]}"#;

/// Adds a step, if it could be made.
fn add(steps: &mut Vec<Step>, world: &World, step: Step) -> Result<(), AllocError> {
    if world.enabled(step) {
        steps.push(step)?;
    }
    Ok(())
}

fn add_reads(
    steps: &mut Vec<Step>,
    world: &World,
    layout: &Layout,
    task: u32,
) -> Result<(), AllocError>
    requires { task < task_count layout.now.stages }
{
    for partition in layout.partitions_of(task) {
        add(steps, world, Step::Read(task, *partition))?;
    }
    Ok(())
}

fn add_takes(
    steps: &mut Vec<Step>,
    world: &World,
    layout: &Layout,
    task: u32,
) -> Result<(), AllocError>
    requires { task < task_count layout.now.stages }
{
    let mut input = 0u32;
    for _ in layout.inputs_of(task) {
        add(steps, world, Step::Take(task, input))?;
        input = input.saturating_add(1);
    }
    Ok(())
}

/// All steps that could be made: by task, then as `Step` lists them, then by partition or input.
fn all_steps(alloc: Global, world: &World, layout: &Layout) -> Result<Vec<Step>, AllocError> {
    let mut steps = Vec::new(alloc);
    for task in 0..layout.task_count() {
        add(&mut steps, world, Step::Open(task))?;
        add_reads(&mut steps, world, layout, task)?;
        add(&mut steps, world, Step::Save(task))?;
        add(&mut steps, world, Step::Stop(task))?;
        add(&mut steps, world, Step::Close(task))?;
        add_takes(&mut steps, world, layout, task)?;
        add(&mut steps, world, Step::Put(task))?;
    }
    Ok(steps)
}

/// The step at the place of a choice among all of a world, if there is one.
fn step_at(
    alloc: Global,
    world: &World,
    layout: &Layout,
    choice: Choice,
) -> Result<Option<Step>, AllocError> {
    let steps = all_steps(alloc, world, layout)?;
    let place = choice.number as usize % steps.len().max(1);
    Ok(steps.get(place).copied())
}

/// Makes the step of a choice by hand: whether there was one.
fn make_by_hand(
    rt: &(impl AllocGlobal + Abort),
    by_hand: &mut World,
    layout: &Layout,
    choice: Choice,
) -> Result<bool, Fail> {
    let Some(step) = step_at(rt.alloc(), by_hand, layout, choice)? else {
        return Ok(false);
    };
    let answer = by_hand.apply(step);
    assert!(rt;
        !matches!(answer, Err(StepFault::NotEnabled)),
        "{step:?} at {choice:?}"
    );
    Ok(true)
}

/// Has a world follow choices in one call, which takes it to where another stands.
fn catch_up(
    rt: &(impl AllocGlobal + Abort),
    behind: &mut World,
    ahead: &World,
    layout: &Layout,
    choices: &[Choice],
) -> Result<(), Fail>
    requires { behind.old.has_failed ≡ false }
{
    follow(rt.alloc(), behind, layout, choices)?;
    let ours = all_steps(rt.alloc(), behind, layout)?;
    let theirs = all_steps(rt.alloc(), ahead, layout)?;
    assert!(rt; ours == theirs, "after {choices:?}");
    Ok(())
}

/// Follows choices to the end of a leg: by hand, and in calls of one to nine.
fn follow_all(
    rt: &(impl AllocGlobal + Abort),
    by_hand: &mut World,
    followed: &mut World,
    layout: &Layout,
    seed: u32,
) -> Result<(), Fail> {
    let mut choices = Vec::new(rt.alloc());
    let mut number = seed;
    for _ in 0..100000 {
        let choice = Choice { number };
        if followed.has_failed() {
            return Err(AllocError.into());
        }
        let is_made = make_by_hand(rt, by_hand, layout, choice)?;
        choices.push(choice)?;
        if choices.len() > number as usize % 9 || !is_made {
            catch_up(rt, followed, by_hand, layout, &choices)?;
            choices.clear();
        }
        if !is_made {
            return Ok(());
        }
        number = number.wrapping_mul(1664525).wrapping_add(1013904223);
    }
    assert!(rt; false, "the leg does not end");
    Ok(())
}

/// A leg from nothing whose steps are chosen: of a plan at a scale, to where so many entries of each partition were
/// read or to its end, by choices from a seed.
#[derive(Clone, Copy)]
struct Case<'a> {
    plan: &'a str,
    scale: &'a str,
    stop: Option<&'a [u64]>,
    seed: u32,
}

/// What a leg runs on, with the keys of its windows.
#[derive(Clone, Copy)]
struct Leg<'a> {
    keys: HashKeys,
    given: Given<'a>,
    case: &'a Case<'a>,
}

/// Follows choices in a second world beside one.
fn follow_beside(
    rt: &(impl AllocGlobal + Abort),
    leg: Leg<'_>,
    by_hand: &mut World,
) -> Result<(), Fail>
    requires belongs { BelongsTo leg.given.plan.now leg.given.input.now }
    requires starts { IsStartIn leg.given.plan.now leg.given.input.now leg.given.start.now }
    requires laid_out { IsLayoutOf leg.given.plan.now leg.given.layout.now }
{
    let alloc = rt.alloc();
    let stop = stop_at(alloc, leg.case.stop)?;
    let mut followed = Box::new(alloc, World::new(alloc, leg.keys, leg.given, stop)?)?;
    follow_all(rt, by_hand, &mut followed, leg.given.layout, leg.case.seed)?;
    assert!(rt; followed.is_finished(), "seed {}", leg.case.seed);
    Ok(())
}

/// Follows choices in two worlds of one leg.
fn follow_leg(rt: &(impl AllocGlobal + Abort), leg: Leg<'_>) -> Result<(), Fail>
    requires belongs { BelongsTo leg.given.plan.now leg.given.input.now }
    requires starts { IsStartIn leg.given.plan.now leg.given.input.now leg.given.start.now }
    requires laid_out { IsLayoutOf leg.given.plan.now leg.given.layout.now }
{
    let alloc = rt.alloc();
    let stop = stop_at(alloc, leg.case.stop)?;
    let mut by_hand = Box::new(alloc, World::new(alloc, leg.keys, leg.given, stop)?)?;
    follow_beside(rt, leg, &mut by_hand)
}

fn follow_given<R: AllocGlobal + Abort + RandomSource>(
    rt: &R,
    given: Given<'_>,
    case: &Case<'_>,
) -> Result<(), Fail>
    requires belongs { BelongsTo given.plan.now given.input.now }
    requires starts { IsStartIn given.plan.now given.input.now given.start.now }
    requires laid_out { IsLayoutOf given.plan.now given.layout.now }
{
    let keys = HashKeys::random(rt)?;
    follow_leg(rt, Leg { keys, given, case })
}

fn follow_input<R: AllocGlobal + Abort + RandomSource>(
    rt: &R,
    plan: &Plan,
    layout: &Layout,
    input: &Input,
    case: &Case<'_>,
) -> Result<(), Fail>
    requires belongs { BelongsTo plan.now input.now }
    requires laid_out { IsLayoutOf plan.now layout.now }
{
    let start = Box::new(rt.alloc(), Start::empty(rt.alloc(), plan, input)?)?;
    let given = Given {
        plan,
        input,
        start: &start,
        layout,
        saves: &[],
    };
    follow_given(rt, given, case)
}

fn follow_layout<R: AllocGlobal + Abort + RandomSource>(
    rt: &R,
    plan: &Plan,
    layout: &Layout,
    case: &Case<'_>,
) -> Result<(), Fail>
    requires { IsLayoutOf plan.now layout.now }
{
    let alloc = rt.alloc();
    let input = Box::new(alloc, Input::read(alloc, plan, THREE_AND_THREE.as_bytes())?)?;
    follow_input(rt, plan, layout, &input, case)
}

fn follow_plan<R: AllocGlobal + Abort + RandomSource>(
    rt: &R,
    plan: &Plan,
    case: &Case<'_>,
) -> Result<(), Fail> {
    let layout = Box::new(rt.alloc(), layout_at(rt.alloc(), plan, case.scale)?)?;
    follow_layout(rt, plan, &layout, case)
}

fn follow_case<R: AllocGlobal + Abort + RandomSource>(rt: &R, case: Case<'_>) -> Result<(), Fail> {
    let plan = Box::new(rt.alloc(), Plan::read(rt.alloc(), case.plan.as_bytes())?)?;
    follow_plan(rt, &plan, &case)
}

#[test]
fn a_choice_makes_the_step_at_its_place(rt: HostRuntime) -> Result<(), Fail> {
    for scale in SCALES {
        for seed in [0, 1, 4294967295] {
            for stop in [None, Some([2, 2].as_slice())] {
                let case = Case {
                    plan: USAGE,
                    scale,
                    stop,
                    seed,
                };
                follow_case(&rt, case)?;
            }
        }
    }
    Ok(())
}

#[test]
fn so_it_does_behind_filters(rt: HostRuntime) -> Result<(), Fail> {
    for scale in FILTERED_SCALES {
        let case = Case {
            plan: FILTERED,
            scale,
            stop: None,
            seed: 7,
        };
        follow_case(&rt, case)?;
    }
    Ok(())
}
