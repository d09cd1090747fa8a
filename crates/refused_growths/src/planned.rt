//! Calls by a plan: what they need is made of the files, one after the other.

ghost use Rattle.gather.specs.Laws.{HasGroups};
ghost use Rattle.layout_rules.specs.Scale.{IsScale};
ghost use Rattle.redistribute.specs.Begins.{IsStartIn};
ghost use Rattle.stream_model.specs.InputData.{BelongsTo};

use crate::calls::Call;
use crate::files::{file, word};
use crate::runs::{run_leg_by_calls, run_leg_calls, run_legs_by_calls, run_legs_calls};
use crate::saved::{check_calls, encode_calls, gather_calls, spread_calls, start_of};
use crate::states::{add_calls, fire_calls};
use crate::worlds::apply_calls;
use core_steps::Given;
use job_texts::JobFault;
use layout_rules::Scale;
use logical_plan::ReadPlan;
use plan_compiler::compile;
use plan_model::Plan;
use plan_scale::ReadScale;
use redistribute::Start;
use savepoint_codec::Savepoint;
use savepoint_index::decode;
use std::random::RandomSource;
use std::rt::Files;
use std::sync::Wait;
use std::thread::Threads;
use std::time::Clock;
use stream_input::ReadInput;
use stream_model::Input;
use window_state::HashKeys;

/// A call that needs a plan.
pub(crate) fn planned_calls<
    R: Files + Print + RandomSource + Threads + Wait + Clock + Sync + AllocGlobal,
>(rt: &R, call: Call) -> Result<(), JobFault> {
    let plan = Box::new(rt.alloc(), Plan::read(rt.alloc(), &file(rt, "plan")?)?)?;
    calls_of_plan(rt, call, &plan)
}

fn calls_of_plan<R: Files + Print + RandomSource + Threads + Wait + Clock + Sync + AllocGlobal>(
    rt: &R,
    call: Call,
    plan: &Plan,
) -> Result<(), JobFault> {
    let Ok(keys) = HashKeys::random(rt) else {
        return Err(JobFault::Read);
    };
    let input = Box::new(
        rt.alloc(),
        Input::read(rt.alloc(), plan, &file(rt, "input")?)?,
    )?;
    calls_on_input(rt, call, keys, plan, &input)
}

fn calls_on_input<R: Files + Print + Threads + Wait + Clock + Sync + AllocGlobal>(
    rt: &R,
    call: Call,
    keys: HashKeys,
    plan: &Plan,
    input: &Input,
) -> Result<(), JobFault>
    requires { BelongsTo plan.now input.now }
{
    match call {
        Call::Fire => fire_calls(rt, keys, plan, input),
        Call::Add => add_calls(rt, keys, plan, input),
        Call::RunLegsBy => run_legs_by_calls(rt, keys, plan, input),
        Call::RunLegs => run_legs_calls(rt, keys, plan, input),
        _ => {
            let savepoint = Box::new(rt.alloc(), decode(rt.alloc(), &file(rt, "savepoint")?)?)?;
            calls_of_savepoint(rt, call, keys, plan, input, &savepoint)
        }
    }
}

fn calls_of_savepoint<R: Files + Print + Threads + Wait + Clock + Sync + AllocGlobal>(
    rt: &R,
    call: Call,
    keys: HashKeys,
    plan: &Plan,
    input: &Input,
    savepoint: &Savepoint,
) -> Result<(), JobFault>
    requires { BelongsTo plan.now input.now }
{
    match call {
        Call::Encode => encode_calls(rt, savepoint),
        Call::Check => check_calls(rt, plan, input, savepoint),
        _ => {
            let start = Box::new(rt.alloc(), start_of(rt.alloc(), plan, input, savepoint)?)?;
            calls_from_start(rt, call, keys, plan, input, &start)
        }
    }
}

fn calls_from_start<R: Files + Print + Threads + Wait + Clock + Sync + AllocGlobal>(
    rt: &R,
    call: Call,
    keys: HashKeys,
    plan: &Plan,
    input: &Input,
    start: &Start,
) -> Result<(), JobFault>
    requires belongs { BelongsTo plan.now input.now }
    requires starts { IsStartIn plan.now input.now start.now }
    requires groups { HasGroups plan.now start.now }
{
    let scale = Box::new(
        rt.alloc(),
        Scale::read(rt.alloc(), plan, &file(rt, "scale")?)?,
    )?;
    match call {
        Call::RunLegBy | Call::RunLegSaving => {
            let goes_on = call == Call::RunLegSaving;
            run_leg_by_calls(rt, keys, plan, input, start, &scale, goes_on)
        }
        Call::RunLeg | Call::RunLegSealing => {
            let goes_on = call == Call::RunLegSealing;
            run_leg_calls(rt, keys, plan, input, start, &scale, goes_on)
        }
        _ => calls_at_layout(rt, call, keys, plan, input, start, &scale),
    }
}

fn calls_at_layout<R: Files + Print + AllocGlobal>(
    rt: &R,
    call: Call,
    keys: HashKeys,
    plan: &Plan,
    input: &Input,
    start: &Start,
    scale: &Scale,
) -> Result<(), JobFault>
    requires belongs { BelongsTo plan.now input.now }
    requires scale { IsScale plan.now scale.now }
    requires starts { IsStartIn plan.now input.now start.now }
    requires groups { HasGroups plan.now start.now }
{
    let layout = Box::new(rt.alloc(), compile(rt.alloc(), plan, scale)?)?;
    match call {
        Call::Spread => spread_calls(rt, plan, start, &layout),
        Call::Gather => gather_calls(rt, plan, start, &layout),
        _ => {
            let given = Given {
                plan,
                input,
                start,
                layout: &layout,
                saves: &[],
            };
            apply_calls(rt, keys, given, word(rt, "stop")?.as_str())
        }
    }
}
