//! Steps of a world.

ghost use Rattle.std.specs.Prelude.{◌<◌};
ghost use Rattle.layout_rules.specs.Stages.{task_count};
ghost use Rattle.redistribute.specs.Begins.{IsStartIn};
ghost use Rattle.stream_model.specs.InputData.{BelongsTo};
ghost use Rattle.task_setups.specs.Legs.{IsLayoutOf};

use crate::telling::{answered, begins, left, refused};
use crate::texts::Told;
use core_steps::{Given, World};
use dataflow_laws::Step;
use job_texts::{JobFault, read_cut};
use legs::Stop;
use plan_compiler::Layout;
use std::alloc::{AllocError, Global};
use task_steps::StepFault;
use window_state::HashKeys;

/// What a leg is known to end within.
const MOST_STEPS: usize = 100_000;

fn add_reads(steps: &mut Vec<Step>, layout: &Layout, task: u32) -> Result<(), AllocError>
    requires { task < task_count layout.now.stages }
{
    for partition in layout.partitions_of(task) {
        steps.push(Step::Read(task, *partition))?;
    }
    Ok(())
}

fn add_takes(steps: &mut Vec<Step>, layout: &Layout, task: u32) -> Result<(), AllocError>
    requires { task < task_count layout.now.stages }
{
    let mut input = 0u32;
    for _ in layout.inputs_of(task) {
        steps.push(Step::Take(task, input))?;
        input = input.saturating_add(1);
    }
    Ok(())
}

fn add_steps(steps: &mut Vec<Step>, layout: &Layout, task: u32) -> Result<(), AllocError>
    requires { task < task_count layout.now.stages }
{
    steps.push(Step::Open(task))?;
    add_takes(steps, layout, task)?;
    steps.push(Step::Put(task))?;
    add_reads(steps, layout, task)?;
    steps.push(Step::Save(task))?;
    steps.push(Step::Stop(task))?;
    steps.push(Step::Close(task))?;
    Ok(())
}

/// All steps that the tasks of a layout have.
fn steps_of(alloc: Global, layout: &Layout) -> Result<Vec<Step>, AllocError> {
    let mut steps = Vec::new(alloc);
    for task in 0..layout.task_count() {
        add_steps(&mut steps, layout, task)?;
    }
    Ok(steps)
}

/// The first step of these that can be made.
fn first_enabled(world: &World<'_>, steps: &[Step]) -> Option<Step> {
    for step in steps {
        if world.enabled(*step) {
            return Some(*step);
        }
    }
    None
}

/// Makes steps until there is none, or memory is refused for one.
fn play(world: &mut World<'_>, steps: &[Step]) -> Result<(), StepFault> {
    for _ in 0..MOST_STEPS {
        match first_enabled(world, steps) {
            Some(step) => world.apply(step)?,
            None => return Ok(()),
        }
    }
    Ok(())
}

/// Whether no step can be made since one found no memory.
fn has_failed(world: &mut World<'_>, steps: &[Step]) -> bool {
    for step in steps {
        if world.enabled(*step) || world.apply(*step) != Err(StepFault::Failed) {
            return false;
        }
    }
    world.has_failed()
}

/// Makes the steps of a leg to its cut, and tells whether all have been made. Where one is refused, so is each later
/// one.
fn apply_once<R: Print + AllocGlobal>(
    rt: &R,
    keys: HashKeys,
    given: Given<'_>,
    stop: Stop,
    steps: &[Step],
) -> Result<bool, JobFault>
    requires belongs { BelongsTo given.plan.now given.input.now }
    requires starts { IsStartIn given.plan.now given.input.now given.start.now }
    requires laid_out { IsLayoutOf given.plan.now given.layout.now }
{
    let alloc = rt.alloc();
    let mut world = Box::new(alloc, World::new(alloc, keys, given, stop)?)?;
    begins(rt, "apply")?;
    if let Err(fault) = play(&mut world, steps) {
        refused(rt, &fault)?;
        let is_over = has_failed(&mut world, steps);
        left(rt, "each later step is refused", is_over)?;
        return Ok(false);
    }
    if let Some(finish) = Box::into_inner(world).finish(alloc)? {
        answered(rt, finish.text(alloc)?.as_str())?;
    }
    Ok(true)
}

/// Makes the steps of a leg from a start to the cut that a word spells.
pub(crate) fn apply_calls<R: Print + AllocGlobal>(
    rt: &R,
    keys: HashKeys,
    given: Given<'_>,
    word: &str,
) -> Result<(), JobFault>
    requires belongs { BelongsTo given.plan.now given.input.now }
    requires starts { IsStartIn given.plan.now given.input.now given.start.now }
    requires laid_out { IsLayoutOf given.plan.now given.layout.now }
{
    let alloc = rt.alloc();
    let steps = steps_of(alloc, given.layout)?;
    let stop = Stop::At(read_cut(alloc, word)?);
    if !apply_once(rt, keys, given, stop, &steps)? {
        let stop = Stop::At(read_cut(alloc, word)?);
        apply_once(rt, keys, given, stop, &steps)?;
    }
    Ok(())
}
