//! A job from bytes to bytes.

ghost use Rattle.std.specs.Prelude.{◌≡◌, Ok, OnOk, Some, None, option_map, string_bytes, true};
ghost use Rattle.std.specs.List.{All};
ghost use Rattle.layout_rules.specs.Scale.{IsScale};
ghost use Rattle.legs.specs.Requirements.{are_legs};
ghost use Rattle.stream_model.specs.InputData.{BelongsTo};
ghost use Rattle.job.specs.Ends.{OnThreads};
ghost use Rattle.job.specs.Run.{Answers, EndsRun, WritesPlanRows, legs_in, run_by, run_job, run_said, run_with};
ghost use Rattle.job_texts.specs.Tells.{KeepsWriter};

use crate::reading::read_input;
use crate::whole::whole_text;
use job_legs::run_legs;
use job_texts::{JobFault, text_of_rows, write_text};
use layout_rules::Scale;
use leg_lists::read_legs;
use legs::LegSpec;
use logical_plan::ReadPlan;
use plan_model::Plan;
use plan_scale::ScaleOfPlan;
use std::alloc::Global;
use std::io::Write;
use std::sync::Wait;
use std::thread::Threads;
use std::time::Clock;
use stream_model::Input;
use thread_runner::Gate;
use window_state::HashKeys;

/// The text of the plan's rows on an input, by a leg with one subtask for each operator.
fn rows_text<R: Threads + Wait + Clock + Sync, G: Gate>(
    rt: &R,
    alloc: Global,
    keys: HashKeys,
    plan: &Plan,
    input: &Input,
    gate: &G,
) -> Result<String, JobFault>
    requires { BelongsTo plan.now input.now }
    ensures { EndsRun OnThreads string_bytes (Ok (run_job plan.now input.now None)) result }
{
    let scale = Scale::single(alloc, plan)?;
    whole_text(rt, alloc, keys, plan, input, &scale, gate)
}

/// The text of the rows of legs that were read.
fn text_of_list<R: Threads + Wait + Clock + Sync, G: Gate>(
    rt: &R,
    alloc: Global,
    keys: HashKeys,
    plan: &Plan,
    input: &Input,
    legs: Vec<LegSpec>,
    gate: &G,
) -> Result<String, JobFault>
    requires belongs { BelongsTo plan.now input.now }
    requires scales { All (λ leg. IsScale plan.now leg.scale) legs.items }
    requires list { are_legs legs.items ≡ true }
    ensures { EndsRun OnThreads string_bytes (Ok (run_job plan.now input.now (Some legs.items))) result }
{
    let end = run_legs(rt, alloc, keys, plan, input, legs, gate)?;
    Ok(text_of_rows(alloc, &end.rows)?)
}

/// The text of the rows of a job that runs in legs.
fn text_of_legs<R: Threads + Wait + Clock + Sync, G: Gate>(
    rt: &R,
    alloc: Global,
    keys: HashKeys,
    plan: &Plan,
    input: &Input,
    legs: &[u8],
    gate: &G,
) -> Result<String, JobFault>
    requires { BelongsTo plan.now input.now }
    ensures { EndsRun OnThreads string_bytes (legs_in plan.now input.now legs.now None) result }
{
    let legs = read_legs(alloc, plan, legs)?;
    text_of_list(rt, alloc, keys, plan, input, legs, gate)
}

/// The job of a plan and an input.
fn run_on_input<R: Threads + Wait + Clock + Sync, G: Gate>(
    rt: &R,
    alloc: Global,
    keys: HashKeys,
    plan: &Plan,
    input: &Input,
    legs: Option<&[u8]>,
    gate: &G,
) -> Result<String, JobFault>
    requires { BelongsTo plan.now input.now }
    ensures { EndsRun OnThreads string_bytes (run_with plan.now input.now (option_map (λ bytes. bytes.now) legs.entry) None) result }
{
    match legs {
        Some(legs) => text_of_legs(rt, alloc, keys, plan, input, legs, gate),
        None => rows_text(rt, alloc, keys, plan, input, gate),
    }
}

/// The job of a plan.
fn run_of_plan<R: Threads + Wait + Clock + Sync, G: Gate>(
    rt: &R,
    alloc: Global,
    keys: HashKeys,
    plan: &Plan,
    input: Vec<u8>,
    legs: Option<&[u8]>,
    gate: &G,
) -> Result<String, JobFault>
    ensures { EndsRun OnThreads string_bytes (run_by plan.now input.items (option_map (λ bytes. bytes.now) legs.entry) None) result }
{
    let input = read_input(alloc, plan, input)?;
    run_on_input(rt, alloc, keys, plan, &input, legs, gate)
}

/// The job that texts tell.
fn run_of_texts<R: Threads + Wait + Clock + Sync, G: Gate>(
    rt: &R,
    alloc: Global,
    keys: HashKeys,
    plan: &[u8],
    input: Vec<u8>,
    legs: Option<&[u8]>,
    gate: &G,
) -> Result<String, JobFault>
    ensures { EndsRun OnThreads string_bytes (run_said plan.now input.items (option_map (λ bytes. bytes.now) legs.entry) None) result }
{
    let plan = Plan::read(alloc, plan)?;
    run_of_plan(rt, alloc, keys, &plan, input, legs, gate)
}

/// Runs a plan on a bounded input, in legs where a list of them is given, each from what the one before left, and
/// writes the text of the rows: one line for each key and nonempty window that the having conditions keep, in the order
/// of start and key. Where the last leg stops at a cut, these are the rows that are due there. Each task of a leg runs
/// in a thread of its own, and passes the gate before each of its steps.
///
/// # Errors
///
/// The plan's fault, else the input's, else that of the list of legs; then `Leg` with `StopRange` where a leg cannot
/// stop as it is to, from where the one before stopped, or with `Threads` where a thread was refused; `Write` where the
/// writer refuses the text; `Memory`.
pub fn job_run<R: Threads + Wait + Clock + Sync, G: Gate, W: Write>(
    rt: &R,
    alloc: Global,
    keys: HashKeys,
    plan: &[u8],
    input: Vec<u8>,
    legs: Option<&[u8]>,
    gate: &G,
    out: &mut W,
) -> Result<(), JobFault>
    ensures answers { Answers OnThreads (run_said plan.now input.items (option_map (λ bytes. bytes.now) legs.entry) None) result (W.contents out.old) (W.contents out.new) }
    ensures whole { legs.entry ≡ None → OnOk result (WritesPlanRows plan.now input.items (W.contents out.old) (W.contents out.new)) }
    ensures kept { KeepsWriter result (W.contents out.old) (W.contents out.new) }
{
    let text = run_of_texts(rt, alloc, keys, plan, input, legs, gate)?;
    write_text(out, text.as_str())
}
