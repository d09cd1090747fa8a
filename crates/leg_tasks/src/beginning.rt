//! The tasks of a leg, made.

ghost use Rattle.std.specs.Prelude.{◌≡◌, ◌+◌, ◌<◌, length, IfErr, IfOk, OnOk};
ghost use Rattle.layout_rules.specs.Stages as rule;
ghost use Rattle.stream_model.specs.InputData.{BelongsTo};
ghost use Rattle.dataflow_laws.specs.Compiled.{layout_to};
ghost use Rattle.legs.specs.Stops.{until_in};
ghost use Rattle.redistribute.specs.StartData.{offsets_of};
ghost use Rattle.redistribute.specs.Begins.{IsStartIn};
ghost use Rattle.redistribute.specs.Parts.{IsPartFor};
ghost use Rattle.redistribute.specs.Stopping.{CanGo, CanSaveAt, IsRefusal};
ghost use Rattle.task_setups.specs.Beginnings.{Suits};
ghost use Rattle.task_setups.specs.Legs.{IsLayoutOf, counts_of, leg_over};
ghost use Rattle.task_setups.specs.Setups.{setup_of as setup_said};
ghost use Rattle.task_steps.specs.Beginning.{begun};
ghost use Rattle.leg_tasks.specs.Beginning as begins;

use crate::opening::{Opening, opening_of};
use legs::LegFault;
use plan_compiler::Layout;
use plan_model::Plan;
use redistribute::{Start, TaskStart, spread};
use std::alloc::{AllocError, Global};
use stream_model::Input;
use task_setups::{Leg, setup_of};
use task_steps::Task;
use window_state::HashKeys;

/// A task of a leg, told its place in the layout and its part of the leg, that begins with what it is given.
///
/// The layout is one of the plan, the savepoints that follow have numbers, and the opening suits the task: it has a
/// watermark for each input, of a source an offset for each of its partitions, and windows of the plan's operator where
/// it is the window's task, alone.
///
/// # Errors
///
/// Only where memory runs out.
pub fn begin(
    alloc: Global,
    plan: &Plan,
    input: &Input,
    layout: &Layout,
    leg: &Leg<'_>,
    task: u32,
    opening: Opening,
) -> Result<Task, AllocError>
    requires laid_out { IsLayoutOf plan.now layout.now }
    requires task { task < rule.task_count layout.now.stages }
    requires numbers { leg.now.number + length leg.now.saves.now < u64.MAX }
    requires suits { Suits plan.now (leg_over leg.now input.now) layout.now.stages task opening.offsets.items opening.marks.items opening.window }
    ensures { IfOk result (λ made. made ≡ begun (setup_said plan.now (leg_over leg.now input.now) layout.now.stages task) opening.offsets.items opening.marks.items opening.window) }
{
    let Opening {
        offsets,
        marks,
        window,
    } = opening;
    let _columns = plan.columns();
    let setup = setup_of(alloc, plan, input, layout, leg, task)?;
    Task::new(alloc, setup, offsets, marks.as_slice(), window)
}

/// A task of a leg that begins with a part of a start.
fn task_from(
    alloc: Global,
    keys: HashKeys,
    plan: &Plan,
    input: &Input,
    layout: &Layout,
    leg: &Leg<'_>,
    task: u32,
    start: &TaskStart,
) -> Result<Task, AllocError>
    requires laid_out { IsLayoutOf plan.now layout.now }
    requires task { task < rule.task_count layout.now.stages }
    requires numbers { leg.now.number + length leg.now.saves.now < u64.MAX }
    requires part { IsPartFor plan.now layout.now.stages task start.now }
    ensures { IfOk result (λ made. made ≡ begins.begun_with plan.now (leg_over leg.now input.now) layout.now.stages task start.now) }
{
    let inputs = layout.inputs_of(task).len();
    let opening = opening_of(alloc, keys, plan, inputs, start)?;
    begin(alloc, plan, input, layout, leg, task, opening)
}

/// The tasks of a leg, in order, each with its part of a start.
fn tasks_from(
    alloc: Global,
    keys: HashKeys,
    plan: &Plan,
    input: &Input,
    start: &Start,
    layout: &Layout,
    leg: &Leg<'_>,
) -> Result<Vec<Task>, AllocError>
    requires laid_out { IsLayoutOf plan.now layout.now }
    requires numbers { leg.now.number + length leg.now.saves.now < u64.MAX }
    requires starts { IsStartIn plan.now input.now start.now }
    ensures { IfOk result (λ made. made.items ≡ begins.new_tasks plan.now start.now (leg_over leg.now input.now) layout.now.stages) }
{
    let parts = spread(alloc, plan, start, layout)?;
    let mut tasks = Vec::new(alloc);
    for task in 0..layout.task_count() {
        let part = &parts[task as usize];
        tasks.push(task_from(alloc, keys, plan, input, layout, leg, task, part)?)?;
    }
    Ok(tasks)
}

/// The tasks of a leg that begins at a start, in order: each source where the start has its partitions, and in the
/// windows of each of the window's tasks what the start has for its key groups. The panes of the windows are hashed by
/// the keys.
///
/// The layout is one of the plan, the input was read by it, the start is one of the input, and the leg goes on from the
/// start's savepoint.
///
/// # Errors
///
/// `StopRange` where a leg from the start cannot go so far, else `SaveRange` where it cannot take its savepoints on the
/// way there, else `Memory` where memory runs out.
pub fn tasks(
    alloc: Global,
    keys: HashKeys,
    plan: &Plan,
    input: &Input,
    start: &Start,
    layout: &Layout,
    leg: &Leg<'_>,
) -> Result<Vec<Task>, LegFault>
    requires laid_out { IsLayoutOf plan.now layout.now }
    requires belongs { BelongsTo plan.now input.now }
    requires starts { IsStartIn plan.now input.now start.now }
    requires number { leg.now.number ≡ start.now.number }
    ensures stops { OnOk result (CanGo input.now.sources (offsets_of start.now) (until_in leg.now.until)) }
    ensures saves { OnOk result (CanSaveAt input.now.sources (offsets_of start.now) (counts_of leg.now.saves.now) (until_in leg.now.until)) }
    ensures are { IfOk result (λ made. made.items ≡ begins.new_tasks plan.now start.now (leg_over leg.now input.now) layout.now.stages) }
    ensures begin { IfOk result (λ made. begins.BeginLeg plan.now input.now start.now layout.now.stages (layout_to plan.now input.now leg.now.number (counts_of leg.now.saves.now) (until_in leg.now.until) layout.now.stages) made.items) }
    ensures refused { IfErr result (λ fault. IsRefusal input.now.sources (offsets_of start.now) (counts_of leg.now.saves.now) (until_in leg.now.until) fault) }
{
    let _columns = plan.columns();
    let _saves = leg.saves.len();
    start.check_until(input, &leg.until)?;
    start.check_saves_until(input, leg.saves, &leg.until)?;
    Ok(tasks_from(alloc, keys, plan, input, start, layout, leg)?)
}
