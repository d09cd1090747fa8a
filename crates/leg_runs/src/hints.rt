//! Which steps are tried first, so that no step needs a look at all tasks.
//!
//! Hints say what tasks are to do, the newest last. A message that is put leaves the hint that it is taken, so it is
//! taken as soon as it is put, and its sender goes on once that led to nothing more. What steps there are does not hang
//! on hints being good ones: each is tried, and all tasks are gone through where none is left.

ghost use Rattle.std.specs.Prelude.{◌≡◌, IfOk, OnErr, false, vec_len};
ghost use Rattle.task_setups.specs.Legs.{IsLayoutOf};
ghost use Rattle.core_steps.specs.Answers.{CanMake};
ghost use Rattle.leg_runs.specs.Running.{HasMoved, IsTry, IsTryOf, Refuses};

use crate::order::task_step;
use core_steps::World;
use dataflow_laws::Step;
use plan_compiler::Layout;
use std::alloc::AllocError;
use task_steps::StepFault;

/// What a task is to do.
#[derive(Clone, Copy)]
pub(crate) enum Hint {
    /// It takes a message that was put for it, from the input with this number, and then puts what that left pending.
    Take(u32, u32),
    /// It puts what it has pending.
    Put(u32),
    /// It puts what it has pending, and makes the step again that it made last.
    Again(Step),
}

/// The partition that comes after this one in turn, of those that a task reads.
fn partition_after(layout: &Layout, task: u32, partition: u32) -> u32 {
    if task >= layout.task_count() {
        return partition;
    }
    let partitions = layout.partitions_of(task);
    let place = match partitions.binary_search(&partition) {
        Ok(place) => place + 1,
        Err(_) => 0,
    };
    match partitions.get(place) {
        Some(next) => *next,
        None => partitions.first().copied().unwrap_or(partition),
    }
}

/// Makes a step, if there is one now, and says whether.
fn try_step(world: &mut World, step: Step) -> Result<bool, AllocError>
    requires going { world.old.has_failed ≡ false }
    ensures given { world.new.given ≡ world.old.given }
    ensures tries { IfOk result (IsTryOf step world.old world.new) }
    ensures refuses { OnErr result (Refuses world.old world.new) }
{
    match world.apply(step) {
        Ok(()) => Ok(true),
        Err(StepFault::NotEnabled) => Ok(false),
        Err(_) => Err(AllocError),
    }
}

/// Notes that a receiver is to take what a sender has put for it.
fn note_put(
    hints: &mut Vec<Hint>,
    layout: &Layout,
    receiver: u32,
    sender: u32,
) -> Result<(), AllocError> {
    if receiver >= layout.task_count() {
        return Ok(());
    }
    if let Ok(input) = layout.inputs_of(receiver).binary_search(&sender) {
        if let Ok(input) = u32::try_from(input) {
            hints.push(Hint::Take(receiver, input))?;
        }
    }
    Ok(())
}

/// Writes another hint in place of the newest one.
fn renew(hints: &mut Vec<Hint>, hint: Hint)
    ensures { vec_len hints.new ≡ vec_len hints.old }
{
    if let Some(last) = hints.last_mut() {
        *last = hint;
    }
}

/// Puts the first message that a task has pending, if there is one and room for it, and says whether.
fn try_put(
    world: &mut World,
    layout: &Layout,
    hints: &mut Vec<Hint>,
    task: u32,
) -> Result<bool, AllocError>
    requires going { world.old.has_failed ≡ false }
    ensures given { world.new.given ≡ world.old.given }
    ensures tries { IfOk result (IsTry world.old world.new) }
    ensures refuses { OnErr result (Refuses world.old world.new) }
    ensures hints { IfOk result (λ made. made ≡ false → vec_len hints.new ≡ vec_len hints.old) }
{
    let Some(receiver) = world.receiver(task) else {
        return Ok(false);
    };
    if !try_step(world, Step::Put(task))? {
        return Ok(false);
    }
    note_put(hints, layout, receiver, task)?;
    Ok(true)
}

/// Takes a message, or where that cannot be, puts one that stands in its way, and says whether.
fn try_take(
    world: &mut World,
    layout: &Layout,
    hints: &mut Vec<Hint>,
    task: u32,
    input: u32,
) -> Result<bool, AllocError>
    requires going { world.old.has_failed ≡ false }
    ensures given { world.new.given ≡ world.old.given }
    ensures tries { IfOk result (IsTry world.old world.new) }
    ensures refuses { OnErr result (Refuses world.old world.new) }
    ensures hints { IfOk result (λ made. made ≡ false → vec_len hints.new ≡ vec_len hints.old) }
{
    if try_step(world, Step::Take(task, input))? {
        renew(hints, Hint::Put(task));
        return Ok(true);
    }
    try_put(world, layout, hints, task)
}

/// Makes a task read the partition after the one that it read, if that is what it did and there is an entry, and says
/// whether.
fn try_next(
    world: &mut World,
    layout: &Layout,
    hints: &mut Vec<Hint>,
    step: Step,
) -> Result<bool, AllocError>
    requires going { world.old.has_failed ≡ false }
    ensures given { world.new.given ≡ world.old.given }
    ensures tries { IfOk result (IsTry world.old world.new) }
    ensures refuses { OnErr result (Refuses world.old world.new) }
    ensures hints { IfOk result (λ made. made ≡ false → vec_len hints.new ≡ vec_len hints.old) }
{
    let Step::Read(task, partition) = step else {
        return Ok(false);
    };
    let next = Step::Read(task, partition_after(layout, task, partition));
    if !try_step(world, next)? {
        return Ok(false);
    }
    renew(hints, Hint::Again(next));
    Ok(true)
}

/// Makes any step of a task, if there is one, and says whether.
fn try_task(
    world: &mut World,
    layout: &Layout,
    hints: &mut Vec<Hint>,
    task: u32,
) -> Result<bool, AllocError>
    requires same { layout.now ≡ world.old.given.layout }
    requires laid_out { IsLayoutOf world.old.given.plan layout.now }
    requires going { world.old.has_failed ≡ false }
    ensures given { world.new.given ≡ world.old.given }
    ensures tries { IfOk result (IsTry world.old world.new) }
    ensures refuses { OnErr result (Refuses world.old world.new) }
    ensures hints { IfOk result (λ made. made ≡ false → vec_len hints.new ≡ vec_len hints.old) }
{
    if task >= layout.task_count() {
        return Ok(false);
    }
    let Some(step) = task_step(world, layout, task) else {
        return Ok(false);
    };
    let _ = hints.pop();
    make_found(world, layout, hints, step)?;
    Ok(true)
}

/// Makes the step that a task made last again, or one that comes after it, and says whether there was one.
fn try_again(
    world: &mut World,
    layout: &Layout,
    hints: &mut Vec<Hint>,
    step: Step,
) -> Result<bool, AllocError>
    requires same { layout.now ≡ world.old.given.layout }
    requires laid_out { IsLayoutOf world.old.given.plan layout.now }
    requires going { world.old.has_failed ≡ false }
    ensures given { world.new.given ≡ world.old.given }
    ensures tries { IfOk result (IsTry world.old world.new) }
    ensures refuses { OnErr result (Refuses world.old world.new) }
    ensures hints { IfOk result (λ made. made ≡ false → vec_len hints.new ≡ vec_len hints.old) }
{
    if try_put(world, layout, hints, step.task())? {
        return Ok(true);
    }
    if try_next(world, layout, hints, step)? {
        return Ok(true);
    }
    if try_step(world, step)? {
        return Ok(true);
    }
    match step {
        Step::Take(..) => Ok(false),
        _ => try_task(world, layout, hints, step.task()),
    }
}

/// Makes a step that the newest hint leads to, if there is one, and says whether.
pub(crate) fn try_hint(
    world: &mut World,
    layout: &Layout,
    hints: &mut Vec<Hint>,
    hint: Hint,
) -> Result<bool, AllocError>
    requires same { layout.now ≡ world.old.given.layout }
    requires laid_out { IsLayoutOf world.old.given.plan layout.now }
    requires going { world.old.has_failed ≡ false }
    ensures given { world.new.given ≡ world.old.given }
    ensures tries { IfOk result (IsTry world.old world.new) }
    ensures refuses { OnErr result (Refuses world.old world.new) }
    ensures hints { IfOk result (λ made. made ≡ false → vec_len hints.new ≡ vec_len hints.old) }
{
    match hint {
        Hint::Take(task, input) => try_take(world, layout, hints, task, input),
        Hint::Put(task) => try_put(world, layout, hints, task),
        Hint::Again(step) => try_again(world, layout, hints, step),
    }
}

/// Notes a step that is about to be made.
fn note(
    hints: &mut Vec<Hint>,
    world: &World,
    layout: &Layout,
    step: Step,
) -> Result<(), AllocError> {
    let Step::Put(sender) = step else {
        hints.push(Hint::Again(step))?;
        return Ok(());
    };
    match world.receiver(sender) {
        Some(receiver) => note_put(hints, layout, receiver, sender),
        None => Ok(()),
    }
}

/// Makes a step that was found, and notes it.
pub(crate) fn make_found(
    world: &mut World,
    layout: &Layout,
    hints: &mut Vec<Hint>,
    step: Step,
) -> Result<(), AllocError>
    requires can { CanMake world.old step }
    requires going { world.old.has_failed ≡ false }
    ensures given { world.new.given ≡ world.old.given }
    ensures moves { IfOk result (λ _. HasMoved world.old world.new) }
    ensures refuses { OnErr result (Refuses world.old world.new) }
{
    note(hints, world, layout, step)?;
    match world.apply(step) {
        Ok(()) => Ok(()),
        Err(_) => Err(AllocError),
    }
}
