//! A job in so many subtasks, from bytes to bytes.

ghost use Rattle.std.specs.Prelude.{IfOk, string_bytes};
ghost use Rattle.answers.specs.Answer.{Gives};
ghost use Rattle.layout_rules.specs.Scale.{IsScale};
ghost use Rattle.stream_model.specs.InputData.{BelongsTo};
ghost use Rattle.job.specs.Ends.{OnThreads};
ghost use Rattle.job.specs.Parallel.{parallel_by, parallel_on, parallel_said, scale_said};
ghost use Rattle.job.specs.Run.{Answers, EndsRun};
ghost use Rattle.job_texts.specs.Fault.{is_memory};
ghost use Rattle.job_texts.specs.Tells.{KeepsWriter};

use crate::reading::read_input;
use crate::whole::whole_text;
use job_texts::{JobFault, read_count, write_text};
use layout_rules::Scale;
use logical_plan::ReadPlan;
use plan_model::Plan;
use plan_scale::ScaleOfPlan;
use std::alloc::Global;
use std::io::Write;
use std::sync::Wait;
use std::thread::Threads;
use std::time::Clock;
use stream_model::Input;
use thread_runner::Gate;
use window_state::HashKeys;

/// The scale that a word asks for, which spells how many subtasks each operator is to have.
fn even_scale(alloc: Global, plan: &Plan, word: &str) -> Result<Scale, JobFault>
    ensures reads { Gives is_memory (λ scale. scale) result (scale_said plan.now word.now) }
    ensures scale { IfOk result (λ scale. IsScale plan.now scale) }
{
    let Some(parallelism) = read_count(word, 0, 99_999) else {
        return Err(JobFault::Number);
    };
    Ok(Scale::even(alloc, plan, parallelism)?)
}

/// The job of a plan and an input.
fn parallel_on_input<R: Threads + Wait + Clock + Sync, G: Gate>(
    rt: &R,
    alloc: Global,
    keys: HashKeys,
    plan: &Plan,
    input: &Input,
    parallelism: &str,
    gate: &G,
) -> Result<String, JobFault>
    requires { BelongsTo plan.now input.now }
    ensures { EndsRun OnThreads string_bytes (parallel_on plan.now input.now parallelism.now) result }
{
    let scale = even_scale(alloc, plan, parallelism)?;
    whole_text(rt, alloc, keys, plan, input, &scale, gate)
}

/// The job of a plan.
fn parallel_of_plan<R: Threads + Wait + Clock + Sync, G: Gate>(
    rt: &R,
    alloc: Global,
    keys: HashKeys,
    plan: &Plan,
    input: Vec<u8>,
    parallelism: &str,
    gate: &G,
) -> Result<String, JobFault>
    ensures { EndsRun OnThreads string_bytes (parallel_by plan.now input.items parallelism.now) result }
{
    let input = read_input(alloc, plan, input)?;
    parallel_on_input(rt, alloc, keys, plan, &input, parallelism, gate)
}

/// The job that texts tell.
fn parallel_of_texts<R: Threads + Wait + Clock + Sync, G: Gate>(
    rt: &R,
    alloc: Global,
    keys: HashKeys,
    plan: &[u8],
    input: Vec<u8>,
    parallelism: &str,
    gate: &G,
) -> Result<String, JobFault>
    ensures { EndsRun OnThreads string_bytes (parallel_said plan.now input.items parallelism.now) result }
{
    let plan = Plan::read(alloc, plan)?;
    parallel_of_plan(rt, alloc, keys, &plan, input, parallelism, gate)
}

/// Runs a plan on a bounded input in as many subtasks as a word spells, and writes the text of the rows that `job_run`
/// writes without a list of legs: the window has so many, each source too, but no more than partitions, and each filter
/// as many as the source with the most. Each task runs in a thread of its own, and passes the gate before each of its
/// steps.
///
/// # Errors
///
/// The plan's fault, else the input's, else `Number` where the word is not 1 to 5 digits, or `Scale` with `Parallelism`
/// where it is 0, over 64 or over the plan's key groups, and with `Tasks` where there were more than 256 tasks; then
/// `Leg` with `Threads` where a thread was refused; `Write` where the writer refuses the text; `Memory`.
pub fn job_run_parallel<R: Threads + Wait + Clock + Sync, G: Gate, W: Write>(
    rt: &R,
    alloc: Global,
    keys: HashKeys,
    plan: &[u8],
    input: Vec<u8>,
    parallelism: &str,
    gate: &G,
    out: &mut W,
) -> Result<(), JobFault>
    ensures answers { Answers OnThreads (parallel_said plan.now input.items parallelism.now) result (W.contents out.old) (W.contents out.new) }
    ensures kept { KeepsWriter result (W.contents out.old) (W.contents out.new) }
{
    let text = parallel_of_texts(rt, alloc, keys, plan, input, parallelism, gate)?;
    write_text(out, text.as_str())
}
