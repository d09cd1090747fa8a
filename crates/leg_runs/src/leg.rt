//! A leg of a job, run in one thread.

ghost use Rattle.std.specs.Prelude.{◌≡◌, IfErr, IfOk, MatchResult, OnErr, OnOk, Some, false, true};
ghost use Rattle.plan_model.specs.Rows.{AreRowsOf};
ghost use Rattle.stream_model.specs.InputData.{BelongsTo};
ghost use Rattle.stream_model.specs.PlanRows.{plan_rows};
ghost use Rattle.layout_rules.specs.Scale.{IsScale};
ghost use Rattle.legs.specs.declared.fault.LegFault.TheVariants as fault;
ghost use Rattle.legs.specs.declared.stop.Stop.TheVariants.{Never};
ghost use Rattle.legs.specs.Stops.{until_of};
ghost use Rattle.dataflow_model.specs.Leg.Until.{ToEnd};
ghost use Rattle.redistribute.specs.StartData.{offsets_of};
ghost use Rattle.redistribute.specs.Begins.{IsStartIn, IsFromNothing};
ghost use Rattle.redistribute.specs.Stopping.{CanSaveAt, CanStop, IsRefusal};
ghost use Rattle.task_setups.specs.Legs.{IsLayoutOf, counts_of};
ghost use Rattle.core_steps.specs.declared.finish.Finish.TheVariants.{Abandoned};
ghost use Rattle.core_steps.specs.declared.sealing.Sealed.{Sealed};
ghost use Rattle.core_steps.specs.Ending.{IsEndOf, IsWholeOrGivenUp};
ghost use Rattle.core_steps.specs.Sealing.{IsSealed};
ghost use Rattle.core_steps.specs.World.{world_in};
ghost use Rattle.leg_runs.specs.Choosing.{EndsBy, GivesUp, IsLegBy, MakesThen};
ghost use Rattle.leg_runs.specs.Running.{HasRun};

use crate::running::{follow, run};
use core_steps::{Finish, Given, World};
use layout_rules::Scale;
use legs::{Choice, Cut, LegFault, Stop};
use plain_data::Items;
use plan_compiler::{Layout, compile};
use plan_model::{Plan, Row};
use redistribute::Start;
use std::alloc::{AllocError, Global};
use stream_model::Input;
use window_state::HashKeys;

/// Makes the steps that the choices pick, then others until there is none.
fn make_steps(
    alloc: Global,
    world: &mut World<'_>,
    layout: &Layout,
    choices: &[Choice],
) -> Result<(), AllocError>
    requires same { layout.now ≡ world.old.given.layout }
    requires laid_out { IsLayoutOf world.old.given.plan layout.now }
    requires going { world.old.has_failed ≡ false }
    ensures given { world.new.given ≡ world.old.given }
    ensures has { IfOk result (λ _. HasRun world.old world.new) }
    ensures chosen { OnOk result (MakesThen choices.now world.old world.new) }
    ensures gives_up { OnErr result (world.new.has_failed ≡ true → GivesUp choices.now world.old world.new) }
{
    follow(alloc, world, layout, choices)?;
    run(alloc, world, layout)
}

/// What is left of a leg whose steps were given up: where one of them found no memory, what the leg has sealed by then.
///
/// # Errors
///
/// Where no step found none, or nothing is sealed, or memory runs out.
fn given_up(alloc: Global, world: &World<'_>) -> Result<Finish, AllocError>
    ensures ends { let g = world.now.given in IfOk result (IsEndOf g.plan g.input g.start g.saves g.until) }
    ensures whole { let g = world.now.given in IfOk result (IsWholeOrGivenUp g.plan g.input) }
    ensures failed { OnOk result (world.now.has_failed ≡ true) }
    ensures abandoned { IfOk result (λ finish. (sealed : Sealed) × (finish ≡ Abandoned sealed) × IsSealed world.now.given (world_in world.now).tasks (Some sealed)) }
{
    if !world.has_failed() {
        return Err(AllocError);
    }
    match world.sealed(alloc)? {
        Some(sealed) => Ok(Finish::Abandoned(sealed)),
        None => Err(AllocError),
    }
}

/// What a world comes to that has just opened: the steps that the choices pick are made, then others until there is
/// none, or until one finds no memory.
fn finish_by(
    alloc: Global,
    mut world: World<'_>,
    layout: &Layout,
    choices: &[Choice],
) -> Result<Finish, AllocError>
    requires same { layout.now ≡ world.given.layout }
    requires laid_out { IsLayoutOf world.given.plan layout.now }
    requires going { world.has_failed ≡ false }
    ensures ends { let g = world.entry.given in IfOk result (λ finish. IsEndOf g.plan g.input g.start g.saves g.until finish) }
    ensures whole { let g = world.entry.given in IfOk result (λ finish. IsFromNothing g.input g.start → g.until ≡ ToEnd → IsWholeOrGivenUp g.plan g.input finish) }
    ensures chosen { IfOk result (EndsBy choices.now world.entry) }
{
    match make_steps(alloc, &mut world, layout, choices) {
        Ok(()) => {}
        Err(_) => return given_up(alloc, &world),
    }
    let _failed = world.has_failed();
    match world.finish(alloc)? {
        Some(finish) => Ok(finish),
        None => unreachable!(),
    }
}

/// Runs a leg that begins at a start, on the layout of the plan at a scale, to the end of its input or to the cut where
/// it stops and leaves a savepoint: steps are made until there is none. On its way it takes savepoints at some cuts.
/// Where a step finds no memory, it is given up with what it has sealed at the last of them that is complete. The panes
/// of the windows are hashed by the keys.
///
/// Each choice in turn says which step is made, of all that could be made in the order of tasks, then of `Step`'s
/// kinds, then of partitions or inputs. Where they are at an end, messages are taken as soon as may be.
///
/// The input and the scale were read by the plan, and the start is one of the input.
///
/// # Errors
///
/// `StopRange` where a leg from the start cannot stop so, else `SaveRange` where it cannot take its savepoints on the
/// way there, else `Memory` where memory runs out: for a step before a savepoint is complete, or for what else is kept.
pub fn run_leg_by(
    alloc: Global,
    keys: HashKeys,
    plan: &Plan,
    input: &Input,
    start: &Start,
    scale: &Scale,
    saves: &[Cut],
    stop: Stop,
    choices: &[Choice],
) -> Result<Finish, LegFault>
    requires belongs { BelongsTo plan.now input.now }
    requires scale { IsScale plan.now scale.now }
    requires starts { IsStartIn plan.now input.now start.now }
    ensures stops { OnOk result (CanStop input.now.sources (offsets_of start.now) stop) }
    ensures saves { OnOk result (CanSaveAt input.now.sources (offsets_of start.now) (counts_of saves.now) (until_of stop)) }
    ensures ends { IfOk result (λ finish. IsEndOf plan.now input.now start.now (counts_of saves.now) (until_of stop) finish) }
    ensures whole { IfOk result (λ finish. IsFromNothing input.now start.now → stop ≡ Never → IsWholeOrGivenUp plan.now input.now finish) }
    ensures chosen { IfOk result (IsLegBy plan.now scale.now input.now start.now (counts_of saves.now) (until_of stop) choices.now) }
    ensures refused { IfErr result (λ fault. IsRefusal input.now.sources (offsets_of start.now) (counts_of saves.now) (until_of stop) fault) }
{
    start.check_stop(input, &stop)?;
    start.check_saves(input, saves, &stop)?;
    let layout = compile(alloc, plan, scale)?;
    let given = Given {
        plan,
        input,
        start,
        layout: &layout,
        saves,
    };
    let _columns = plan.columns();
    let _sources = input.sources();
    let world = World::new(alloc, keys, given, stop)?;
    Ok(finish_by(alloc, world, &layout, choices)?)
}

/// The rows of a leg that starts from nothing and runs to the end of an input, in the order in which they came: those
/// of a whole job, without a savepoint. The panes of the windows are hashed by the keys.
///
/// The input and the scale were read by the plan.
///
/// # Errors
///
/// `Memory` where memory runs out.
pub fn run_leg(
    alloc: Global,
    keys: HashKeys,
    plan: &Plan,
    input: &Input,
    scale: &Scale,
) -> Result<Items<Row>, LegFault>
    requires belongs { BelongsTo plan.now input.now }
    requires scale { IsScale plan.now scale.now }
    ensures { MatchResult result (λ rows. AreRowsOf (plan_rows plan.now input.now.sources) rows) (λ cause. cause ≡ fault.Memory) }
{
    let start = Start::empty(alloc, plan, input)?;
    match run_leg_by(
        alloc,
        keys,
        plan,
        input,
        &start,
        scale,
        &[],
        Stop::Never,
        &[],
    )? {
        Finish::Ended(rows, _) => Ok(rows),
        Finish::Stopped(..) | Finish::Abandoned(_) => unreachable!(),
    }
}
