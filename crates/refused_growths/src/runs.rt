//! Runs of legs.

ghost use Rattle.layout_rules.specs.Scale.{IsScale};
ghost use Rattle.redistribute.specs.Begins.{IsStartIn};
ghost use Rattle.stream_model.specs.InputData.{BelongsTo};

use crate::files::{file, word};
use crate::gates::SlowWindow;
use crate::telling::{answered, begins, refused};
use crate::texts::Told;
use job_legs::{run_legs, run_legs_by};
use job_texts::{JobFault, read_cut};
use layout_rules::Scale;
use leg_lists::{read_choices, read_legs};
use leg_runs::run_leg_by;
use legs::{Choice, Cut, LegFault, Stop};
use plain_data::Items;
use plan_model::Plan;
use redistribute::Start;
use std::alloc::Global;
use std::rt::Files;
use std::sync::Wait;
use std::thread::Threads;
use std::time::Clock;
use stream_model::Input;
use thread_runner::{Gate, OpenGate, run_leg};
use window_state::HashKeys;

/// Says what came of legs, and tells whether they have answered.
fn told<R: Print + AllocGlobal, T: Told>(
    rt: &R,
    answer: Result<T, LegFault>,
) -> Result<bool, JobFault> {
    match answer {
        Ok(end) => {
            answered(rt, end.text(rt.alloc())?.as_str())?;
            Ok(true)
        }
        Err(fault) => {
            refused(rt, &fault)?;
            Ok(false)
        }
    }
}

/// Where a leg stops, or takes a savepoint and goes on.
#[derive(Clone, Copy)]
struct Aim<'a> {
    /// The call's name.
    name: &'a str,
    cut: &'a str,
    goes_on: bool,
}

/// The savepoints on a leg's way, and where it stops.
fn ends_of(alloc: Global, aim: Aim<'_>) -> Result<(Vec<Cut>, Stop), JobFault> {
    let cut = read_cut(alloc, aim.cut)?;
    let mut saves = Vec::new(alloc);
    if !aim.goes_on {
        return Ok((saves, Stop::At(cut)));
    }
    saves.push(cut)?;
    Ok((saves, Stop::Never))
}

fn run_leg_by_once<R: Print + AllocGlobal>(
    rt: &R,
    keys: HashKeys,
    plan: &Plan,
    input: &Input,
    start: &Start,
    scale: &Scale,
    aim: Aim<'_>,
    choices: &[Choice],
) -> Result<bool, JobFault>
    requires belongs { BelongsTo plan.now input.now }
    requires scale { IsScale plan.now scale.now }
    requires starts { IsStartIn plan.now input.now start.now }
{
    let alloc = rt.alloc();
    let (saves, stop) = ends_of(alloc, aim)?;
    begins(rt, aim.name)?;
    let finish = run_leg_by(
        alloc, keys, plan, input, start, scale, &saves, stop, choices,
    );
    told(rt, finish)
}

/// Runs a leg in one thread, by the first of the lists of choices: to the cut, or to its end with a savepoint there.
pub(crate) fn run_leg_by_calls<R: Files + Print + AllocGlobal>(
    rt: &R,
    keys: HashKeys,
    plan: &Plan,
    input: &Input,
    start: &Start,
    scale: &Scale,
    goes_on: bool,
) -> Result<(), JobFault>
    requires belongs { BelongsTo plan.now input.now }
    requires scale { IsScale plan.now scale.now }
    requires starts { IsStartIn plan.now input.now start.now }
{
    let cut = word(rt, "stop")?;
    let lists = read_choices(rt.alloc(), &file(rt, "choices")?, 2)?;
    let Some(choices) = lists.as_slice().first() else {
        return Ok(());
    };
    let choices = choices.as_slice();
    let aim = Aim {
        name: if goes_on {
            "run_leg_saving"
        } else {
            "run_leg_by"
        },
        cut: cut.as_str(),
        goes_on,
    };
    if !run_leg_by_once(rt, keys, plan, input, start, scale, aim, choices)? {
        run_leg_by_once(rt, keys, plan, input, start, scale, aim, choices)?;
    }
    Ok(())
}

fn run_leg_once<R: Print + Threads + Wait + Clock + Sync + AllocGlobal, G: Gate>(
    rt: &R,
    keys: HashKeys,
    plan: &Plan,
    input: &Input,
    start: &Start,
    scale: &Scale,
    aim: Aim<'_>,
    gate: &G,
) -> Result<bool, JobFault>
    requires belongs { BelongsTo plan.now input.now }
    requires scale { IsScale plan.now scale.now }
    requires starts { IsStartIn plan.now input.now start.now }
{
    let alloc = rt.alloc();
    let (saves, stop) = ends_of(alloc, aim)?;
    let stop = thread_runner::Stop::from(stop);
    begins(rt, aim.name)?;
    let finish = run_leg(
        rt, alloc, keys, plan, input, start, scale, &saves, stop, gate,
    );
    told(rt, finish)
}

/// Runs a leg with a thread for each of its tasks, and again where it was refused.
fn run_leg_twice<R: Print + Threads + Wait + Clock + Sync + AllocGlobal, G: Gate>(
    rt: &R,
    keys: HashKeys,
    plan: &Plan,
    input: &Input,
    start: &Start,
    scale: &Scale,
    aim: Aim<'_>,
    gate: &G,
) -> Result<(), JobFault>
    requires belongs { BelongsTo plan.now input.now }
    requires scale { IsScale plan.now scale.now }
    requires starts { IsStartIn plan.now input.now start.now }
{
    if !run_leg_once(rt, keys, plan, input, start, scale, aim, gate)? {
        run_leg_once(rt, keys, plan, input, start, scale, aim, gate)?;
    }
    Ok(())
}

/// Runs a leg with a thread for each of its tasks: to the cut, or to its end with a savepoint there.
pub(crate) fn run_leg_calls<R: Files + Print + Threads + Wait + Clock + Sync + AllocGlobal>(
    rt: &R,
    keys: HashKeys,
    plan: &Plan,
    input: &Input,
    start: &Start,
    scale: &Scale,
    goes_on: bool,
) -> Result<(), JobFault>
    requires belongs { BelongsTo plan.now input.now }
    requires scale { IsScale plan.now scale.now }
    requires starts { IsStartIn plan.now input.now start.now }
{
    let cut = word(rt, "stop")?;
    let aim = Aim {
        name: if goes_on {
            "run_leg_sealing"
        } else {
            "run_leg"
        },
        cut: cut.as_str(),
        goes_on,
    };
    if goes_on {
        run_leg_twice(rt, keys, plan, input, start, scale, aim, &SlowWindow { rt })
    } else {
        run_leg_twice(rt, keys, plan, input, start, scale, aim, &OpenGate)
    }
}

fn run_legs_by_once<R: Print + AllocGlobal>(
    rt: &R,
    keys: HashKeys,
    plan: &Plan,
    input: &Input,
    text: &[u8],
    choices: &[Items<Choice>],
) -> Result<bool, JobFault>
    requires { BelongsTo plan.now input.now }
{
    let alloc = rt.alloc();
    let legs = read_legs(alloc, plan, text)?;
    begins(rt, "run_legs_by")?;
    let end = run_legs_by(alloc, keys, plan, input, legs, choices);
    told(rt, end)
}

/// Runs the legs of a list in one thread, by choices.
pub(crate) fn run_legs_by_calls<R: Files + Print + AllocGlobal>(
    rt: &R,
    keys: HashKeys,
    plan: &Plan,
    input: &Input,
) -> Result<(), JobFault>
    requires { BelongsTo plan.now input.now }
{
    let text = file(rt, "legs")?;
    let choices = read_choices(rt.alloc(), &file(rt, "choices")?, 2)?;
    if !run_legs_by_once(rt, keys, plan, input, &text, choices.as_slice())? {
        run_legs_by_once(rt, keys, plan, input, &text, choices.as_slice())?;
    }
    Ok(())
}

fn run_legs_once<R: Print + Threads + Wait + Clock + Sync + AllocGlobal>(
    rt: &R,
    keys: HashKeys,
    plan: &Plan,
    input: &Input,
    text: &[u8],
) -> Result<bool, JobFault>
    requires { BelongsTo plan.now input.now }
{
    let alloc = rt.alloc();
    let legs = read_legs(alloc, plan, text)?;
    begins(rt, "run_legs")?;
    let end = run_legs(rt, alloc, keys, plan, input, legs, &OpenGate);
    told(rt, end)
}

/// Runs the legs of a list with a thread for each of their tasks.
pub(crate) fn run_legs_calls<R: Files + Print + Threads + Wait + Clock + Sync + AllocGlobal>(
    rt: &R,
    keys: HashKeys,
    plan: &Plan,
    input: &Input,
) -> Result<(), JobFault>
    requires { BelongsTo plan.now input.now }
{
    let text = file(rt, "legs")?;
    if !run_legs_once(rt, keys, plan, input, &text)? {
        run_legs_once(rt, keys, plan, input, &text)?;
    }
    Ok(())
}
