//! What the headline theorem asks of legs and of starts, as public calls give it.

ghost use Rattle.std.specs.Prelude.{◌≡◌, IfOk, IfSome, MatchOption, Some};
ghost use Rattle.answers.specs.Answer.{Gives};
ghost use Rattle.core_steps.specs.Finishing.{HasFinished, IsFinishIn};
ghost use Rattle.job_texts.specs.Fault.{is_memory};
ghost use Rattle.legs.specs.declared.stop.Stop.{Stop};
ghost use Rattle.legs.specs.Stops.{until_of};
ghost use Rattle.job.specs.Leg.{start_said};
ghost use Rattle.lineages.specs.Lineage.{ComesFrom, IsLeg, end_in};

use core_steps::{Finish, World};
use job_texts::JobFault;
use plan_model::Plan;
use redistribute::Start;
use restore::check;
use savepoint_index::decode;
use std::alloc::{AllocError, Global};
use stream_model::Input;

/// How a world has ended, where all its tasks are done: it is a leg then, of its plan and input, from its start to
/// where it was to stop, with the savepoints that it was to take on its way. `None` where not every task is done, or
/// the world has failed.
///
/// # Errors
///
/// Only where memory runs out.
pub fn leg_of(alloc: Global, world: World<'_>) -> Result<Option<Finish>, AllocError>
    ensures is { IfOk result (λ answer. MatchOption answer (HasFinished world.entry → ⊥) (λ finish. HasFinished world.entry × IsFinishIn world.entry finish)) }
    ensures leg { let g = world.entry.given in IfOk result (λ answer. IfSome answer (λ _. (stop : Stop) → g.until ≡ until_of stop → IsLeg g.plan g.input g.start g.saves stop (end_in world.entry))) }
{
    let _failed = world.has_failed();
    world.finish(alloc)
}

/// Where a leg begins that goes on from the bytes of a savepoint: the start comes from these bytes.
///
/// # Errors
///
/// `Save` where the bytes spell no savepoint, `Restore` where the job of the plan cannot go on from it with the input;
/// `Memory`.
#[tactic(auto, unfolding(job::specs::Leg::start_said))]
pub fn start_from(
    alloc: Global,
    plan: &Plan,
    input: &Input,
    bytes: &[u8],
) -> Result<Start, JobFault>
    ensures reads { Gives is_memory (λ start. start) result (start_said plan.now input.now (Some bytes.now)) }
    ensures comes { IfOk result (λ start. ComesFrom plan.now input.now bytes.now start) }
{
    let savepoint = decode(alloc, bytes)?;
    let _contents = savepoint.contents();
    Ok(check(alloc, plan, input, &savepoint)?)
}
