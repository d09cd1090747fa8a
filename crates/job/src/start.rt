//! Whether a leg of a job can begin, and stop as it is to.

ghost use Rattle.std.specs.Prelude.{◌≡◌, MatchResult, None, option_map};
ghost use Rattle.answers.specs.Answer.{Gives};
ghost use Rattle.legs.specs.declared.fault.LegFault.TheVariants.{StopRange};
ghost use Rattle.stream_model.specs.InputData.{BelongsTo};
ghost use Rattle.redistribute.specs.StartData.{offsets_of};
ghost use Rattle.redistribute.specs.Stopping.{CanStop};
ghost use Rattle.job_texts.specs.Fault.{is_memory};
ghost use Rattle.job.specs.Leg.{job_with, stop_said, words};
ghost use Rattle.job.specs.Start.{BeginsLeg};

use crate::leg::start_of;
use job_texts::{JobFault, read_cut};
use legs::Stop;
use plan_model::Plan;
use redistribute::Start;
use std::alloc::Global;
use stream_model::Input;

/// Where a leg stops by a word, or where there is none.
#[tactic(auto, unfolding(crate::specs::Leg::stop_said))]
fn stop_at(alloc: Global, word: Option<&str>) -> Result<Stop, JobFault>
    ensures { Gives is_memory (λ stop. stop) result (stop_said (option_map (λ word. word.now) word.entry)) }
{
    match word {
        None => Ok(Stop::Never),
        Some(word) => Ok(Stop::At(read_cut(alloc, word)?)),
    }
}

/// Whether a leg from a start over an input can stop so.
fn check_stop(input: &Input, start: &Start, stop: &Stop) -> Result<(), JobFault>
    ensures { MatchResult result (λ _. CanStop input.now.sources (offsets_of start.now) stop.now) (λ fault. (fault ≡ JobFault.Leg StopRange) × ¬ CanStop input.now.sources (offsets_of start.now) stop.now) }
{
    Ok(start.check_stop(input, stop)?)
}

/// Whether a leg of a job can begin, from nothing or at the savepoint that `from` has the bytes of, and go to the end
/// of the input or to the cut that the word `stop` spells. Nothing is run.
///
/// # Errors
///
/// What `job_leg` answers at any scale of the plan before its first step: the savepoint's fault, `Restore` where the
/// job cannot go on from it, `Cut`; then `Leg` with `StopRange` where a leg from there cannot stop so; `Memory`.
pub fn job_start(
    alloc: Global,
    plan: &Plan,
    input: &Input,
    from: Option<&[u8]>,
    stop: Option<&str>,
) -> Result<(), JobFault>
    requires { BelongsTo plan.now input.now }
    ensures { BeginsLeg (job_with plan.now input.now (option_map (λ bytes. bytes.now) from.entry) (words None (option_map (λ word. word.now) stop.entry))) result }
{
    let start = start_of(alloc, plan, input, from)?;
    let stop = stop_at(alloc, stop)?;
    check_stop(input, &start, &stop)
}
