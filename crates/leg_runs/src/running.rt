//! A leg run to its end.

ghost use Rattle.std.specs.Prelude.{◌≡◌, IfOk, OnErr, OnOk, false, true};
ghost use Rattle.task_setups.specs.Legs.{IsLayoutOf};
ghost use Rattle.leg_runs.specs.Choosing.{FailsBehind, FailsBy, Follows, MakesSteps};
ghost use Rattle.leg_runs.specs.Running.{HasRun, IsTryOfAll, Refuses};

use crate::hints::{Hint, make_found, try_hint};
use crate::order::step_from;
use crate::schedule::{chosen, counts_of, note, other_end};
use core_steps::World;
use legs::Choice;
use plan_compiler::Layout;
use std::alloc::{AllocError, Global};

/// Makes the first step of all, if there is one, and says whether.
fn try_first(world: &mut World, layout: &Layout, hints: &mut Vec<Hint>) -> Result<bool, AllocError>
    requires same { layout.now ≡ world.old.given.layout }
    requires laid_out { IsLayoutOf world.old.given.plan layout.now }
    requires going { world.old.has_failed ≡ false }
    ensures given { world.new.given ≡ world.old.given }
    ensures tries { IfOk result (IsTryOfAll world.old world.new) }
    ensures refuses { OnErr result (Refuses world.old world.new) }
{
    let _failed = world.has_failed();
    let Some(step) = step_from(world, layout, 0) else {
        return Ok(false);
    };
    make_found(world, layout, hints, step)?;
    Ok(true)
}

/// Makes the step of the newest hint that leads to one, or the first step of all where no hint does, and says whether
/// there is one. Hints that lead to none are taken out.
fn try_any(world: &mut World, layout: &Layout, hints: &mut Vec<Hint>) -> Result<bool, AllocError>
    requires same { layout.now ≡ world.old.given.layout }
    requires laid_out { IsLayoutOf world.old.given.plan layout.now }
    requires going { world.old.has_failed ≡ false }
    ensures given { world.new.given ≡ world.old.given }
    ensures tries { IfOk result (IsTryOfAll world.old world.new) }
    ensures refuses { OnErr result (Refuses world.old world.new) }
{
    while let Some(hint) = hints.last().copied() {
        if try_hint(world, layout, hints, hint)? {
            return Ok(true);
        }
        let _ = hints.pop();
    }
    try_first(world, layout, hints)
}

/// Makes the step of each choice in turn, as long as there is one: of so many steps that could be made, in the order of
/// tasks, then of `Step`'s kinds, then of partitions or inputs, the one at the choice's place. Choices that are left
/// where no step can be made any more are not looked at. The layout is the world's.
///
/// # Errors
///
/// Only where memory runs out: before any step, and nothing has changed, or for the step that one of the choices
/// picks. Those before it have made theirs then, and the world has failed and is left as `World::apply` leaves it.
pub fn follow(
    alloc: Global,
    world: &mut World,
    layout: &Layout,
    choices: &[Choice],
) -> Result<(), AllocError>
    requires going { world.old.has_failed ≡ false }
    ensures given { world.new.given ≡ world.old.given }
    ensures going { OnOk result (world.new.has_failed ≡ false) }
    ensures follows { layout.now ≡ world.old.given.layout → OnOk result (Follows choices.now world.old world.new) }
    ensures fails { layout.now ≡ world.old.given.layout → OnErr result (FailsBy choices.now world.old world.new) }
{
    let mut counts = counts_of(alloc, world, layout)?;
    for choice in choices {
        let Some(step) = chosen(&counts, world, layout, *choice) else {
            break;
        };
        let other = other_end(world, layout, step);
        match world.apply(step) {
            Ok(()) => {}
            Err(_) => return Err(AllocError),
        }
        note(&mut counts, world, layout, step.task(), other);
    }
    Ok(())
}

/// Makes steps until all tasks are done.
///
/// # Errors
///
/// Only where memory runs out: for a step, and then the world has failed, or for a note of what comes next.
pub(crate) fn run(alloc: Global, world: &mut World, layout: &Layout) -> Result<(), AllocError>
    requires same { layout.now ≡ world.old.given.layout }
    requires laid_out { IsLayoutOf world.old.given.plan layout.now }
    requires going { world.old.has_failed ≡ false }
    ensures given { world.new.given ≡ world.old.given }
    ensures has { IfOk result (λ _. HasRun world.old world.new) }
    ensures steps { OnOk result (MakesSteps world.old world.new) }
    ensures fails { OnErr result (world.new.has_failed ≡ true → FailsBehind world.old world.new) }
{
    let mut hints = Vec::new(alloc);
    let _failed = world.has_failed();
    while try_any(world, layout, &mut hints)? {
        let _failed = world.has_failed();
    }
    let _finished = world.is_finished();
    Ok(())
}
