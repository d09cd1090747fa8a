//! A job whose order of steps choices pick, from bytes to bytes.

ghost use Rattle.std.specs.Prelude.{◌≡◌, IfOk, Ok, OnOk, Some, length, string_bytes, true};
ghost use Rattle.std.specs.List.{All};
ghost use Rattle.layout_rules.specs.Scale.{IsScale};
ghost use Rattle.legs.specs.Requirements.{are_legs};
ghost use Rattle.stream_model.specs.InputData.{BelongsTo};
ghost use Rattle.job.specs.Chosen.{IsTextBy, IsTextChosen, IsTextOfInput, IsTextOfLegs, IsTextOfPlan, WritesChosen};
ghost use Rattle.job.specs.Ends.{InOneThread};
ghost use Rattle.job.specs.Run.{Answers, EndsRun, choices_in, legs_in, run_by, run_job, run_said};
ghost use Rattle.job_texts.specs.Tells.{KeepsWriter};

use crate::reading::read_input;
use job_legs::run_legs_by;
use job_texts::{JobFault, text_of_rows, write_text};
use leg_lists::{read_choices, read_legs};
use legs::{Choice, LegSpec};
use logical_plan::ReadPlan;
use plain_data::Items;
use plan_model::Plan;
use std::alloc::Global;
use std::io::Write;
use stream_model::Input;
use window_state::HashKeys;

/// The text of the rows of legs that run by such choices.
fn text_by(
    alloc: Global,
    keys: HashKeys,
    plan: &Plan,
    input: &Input,
    legs: Vec<LegSpec>,
    choices: &[Items<Choice>],
) -> Result<String, JobFault>
    requires belongs { BelongsTo plan.now input.now }
    requires scales { All (λ leg. IsScale plan.now leg.scale) legs.items }
    requires list { are_legs legs.items ≡ true }
    requires choices { length choices.now ≡ length legs.items }
    ensures answers { EndsRun InOneThread string_bytes (Ok (run_job plan.now input.now (Some legs.items))) result }
    ensures chosen { IfOk result (λ text. IsTextBy plan.now input.now legs.items choices.now (string_bytes text)) }
{
    let end = run_legs_by(alloc, keys, plan, input, legs, choices)?;
    Ok(text_of_rows(alloc, &end.rows)?)
}

/// The text of the rows of legs by the choices that a text says.
fn text_chosen(
    alloc: Global,
    keys: HashKeys,
    plan: &Plan,
    input: &Input,
    legs: Vec<LegSpec>,
    choices: &[u8],
) -> Result<String, JobFault>
    requires belongs { BelongsTo plan.now input.now }
    requires scales { All (λ leg. IsScale plan.now leg.scale) legs.items }
    requires list { are_legs legs.items ≡ true }
    ensures answers { EndsRun InOneThread string_bytes (choices_in plan.now input.now legs.items (Some choices.now)) result }
    ensures chosen { IfOk result (λ text. IsTextChosen plan.now input.now legs.items choices.now (string_bytes text)) }
{
    let choices = read_choices(alloc, choices, legs.len())?;
    text_by(alloc, keys, plan, input, legs, choices.as_slice())
}

/// The job of a plan and an input.
fn simulated_on_input(
    alloc: Global,
    keys: HashKeys,
    plan: &Plan,
    input: &Input,
    legs: &[u8],
    choices: &[u8],
) -> Result<String, JobFault>
    requires { BelongsTo plan.now input.now }
    ensures answers { EndsRun InOneThread string_bytes (legs_in plan.now input.now legs.now (Some choices.now)) result }
    ensures chosen { IfOk result (λ text. IsTextOfLegs plan.now input.now legs.now choices.now (string_bytes text)) }
{
    let legs = read_legs(alloc, plan, legs)?;
    text_chosen(alloc, keys, plan, input, legs, choices)
}

/// The job of a plan.
fn simulated_of_plan(
    alloc: Global,
    keys: HashKeys,
    plan: &Plan,
    input: Vec<u8>,
    legs: &[u8],
    choices: &[u8],
) -> Result<String, JobFault>
    ensures answers { EndsRun InOneThread string_bytes (run_by plan.now input.items (Some legs.now) (Some choices.now)) result }
    ensures chosen { IfOk result (λ text. IsTextOfInput plan.now input.items legs.now choices.now (string_bytes text)) }
{
    let input = read_input(alloc, plan, input)?;
    simulated_on_input(alloc, keys, plan, &input, legs, choices)
}

/// The job that texts tell.
fn simulated_of_texts(
    alloc: Global,
    keys: HashKeys,
    plan: &[u8],
    input: Vec<u8>,
    legs: &[u8],
    choices: &[u8],
) -> Result<String, JobFault>
    ensures answers { EndsRun InOneThread string_bytes (run_said plan.now input.items (Some legs.now) (Some choices.now)) result }
    ensures chosen { IfOk result (λ text. IsTextOfPlan plan.now input.items legs.now choices.now (string_bytes text)) }
{
    let plan = Plan::read(alloc, plan)?;
    simulated_of_plan(alloc, keys, &plan, input, legs, choices)
}

/// Runs a plan on a bounded input in the legs of a list, as `job_run` does, by an order of steps that choices pick: a
/// list of them for each leg. Whatever they are, the text that it writes is the same. It needs no thread besides the
/// one that it is in.
///
/// # Errors
///
/// The plan's fault, else the input's, else that of the list of legs, else `Leg` with `Choices` where the choices are
/// no list for each leg; then `Leg` with `StopRange` where a leg cannot stop as it is to, from where the one before
/// stopped; `Write` where the writer refuses the text; `Memory`.
pub fn job_simulate<W: Write>(
    alloc: Global,
    keys: HashKeys,
    plan: &[u8],
    input: Vec<u8>,
    legs: &[u8],
    choices: &[u8],
    out: &mut W,
) -> Result<(), JobFault>
    ensures answers { Answers InOneThread (run_said plan.now input.items (Some legs.now) (Some choices.now)) result (W.contents out.old) (W.contents out.new) }
    ensures chosen { OnOk result (WritesChosen plan.now input.items legs.now choices.now (W.contents out.old) (W.contents out.new)) }
    ensures kept { KeepsWriter result (W.contents out.old) (W.contents out.new) }
{
    let text = simulated_of_texts(alloc, keys, plan, input, legs, choices)?;
    write_text(out, text.as_str())
}
