//! What a leg comes to, out of what its workers have done.

ghost use Rattle.std.specs.Prelude.{◌≡◌, ◌↔◌, List, map, length, IsFalse, IfOk};
ghost use Rattle.layout_rules.specs.Stages.{task_count};
ghost use Rattle.dataflow_model.specs.Leg.Until.{ToEnd};
ghost use Rattle.legs.specs.Stops.{until_in};
ghost use Rattle.redistribute.specs.Begins.{IsFromNothing};
ghost use Rattle.core_steps.specs.Given.{begun_data};
ghost use Rattle.core_steps.specs.World.{IsSound};
ghost use Rattle.core_steps.specs.Ending.{IsEndOf, IsWholeRun, IsWholeOrGivenUp};
ghost use Rattle.thread_runner.specs.Edges.{SameDones, HasEdges, AreJoined, AreLeft, out_names, in_names, put_tables, taken_tables, done_task};
ghost use Rattle.thread_runner.specs.Legs.{NoFaults, AreWorked};

use crate::edges::settle_all;
use crate::jobs::Done;
use crate::laws::layouts_have_edges;
use core_steps::{Begun, Finish, finish_of, sealed_of};
use legs::Until;
use plan_compiler::Layout;
use std::alloc::{AllocError, Global};
use task_steps::Task;

/// Whether a worker ended early.
pub fn has_fault(dones: &[Done]) -> bool
    ensures { IsFalse result ↔ NoFaults dones.now }
{
    for done in dones {
        if done.fault.is_some() {
            return true;
        }
    }
    false
}

/// The tasks that workers hand back, in their order.
///
/// # Errors
///
/// Only where memory runs out.
pub fn tasks_of(alloc: Global, dones: Vec<Done>) -> Result<Vec<Task>, AllocError>
    ensures { IfOk result (λ v. v.items ≡ map done_task dones.items) }
{
    let mut tasks = Vec::new(alloc);
    for done in dones {
        let Done {
            task,
            inputs: _,
            outputs: _,
            fault: _,
        } = done;
        tasks.push(task)?;
    }
    Ok(tasks)
}

/// What workers hand back, with all edges settled.
fn settled(layout: &Layout, dones: Vec<Done>) -> Vec<Done>
    requires count { length dones.items ≡ task_count layout.now.stages }
    requires edges { HasEdges layout.now.stages }
    requires joined { AreJoined layout.now.stages (out_names dones.items) (in_names dones.items) }
    ensures same { SameDones dones.items result.items }
    ensures left { AreLeft layout.now.stages (put_tables result.items) (taken_tables result.items) }
{
    let mut dones = dones;
    let _left = settle_all(layout, dones.as_mut_slice());
    dones
}

/// What a leg comes to whose workers have ended without a fault.
fn finished(
    alloc: Global,
    given: &Begun<'_>,
    until: &Until,
    dones: Vec<Done>,
) -> Result<Finish, AllocError>
    requires sound { IsSound (begun_data given.now (until_in until.now)) }
    requires worked { AreWorked (begun_data given.now (until_in until.now)) dones.items }
    requires fine { NoFaults dones.items }
    ensures ends { let g = begun_data given.now (until_in until.now) in IfOk result (λ finish. IsEndOf g.plan g.input g.start g.saves g.until finish) }
    ensures whole { let g = begun_data given.now (until_in until.now) in IfOk result (λ finish. IsFromNothing g.input g.start → g.until ≡ ToEnd → IsWholeRun g.plan g.input finish) }
{
    let _edges = layouts_have_edges();
    let dones = settled(given.layout, dones);
    let tasks = tasks_of(alloc, dones)?;
    finish_of(alloc, given, until, tasks)
}

/// What a leg comes to that is given up, since memory was refused to a worker: what it had sealed on its way. The
/// barrier of a stop is none of these: where every task has passed it, no worker has ended early.
fn given_up(
    alloc: Global,
    given: &Begun<'_>,
    until: &Until,
    dones: Vec<Done>,
) -> Result<Finish, AllocError>
    requires sound { IsSound (begun_data given.now (until_in until.now)) }
    requires worked { AreWorked (begun_data given.now (until_in until.now)) dones.items }
    ensures ends { let g = begun_data given.now (until_in until.now) in IfOk result (λ finish. IsEndOf g.plan g.input g.start g.saves g.until finish) }
    ensures whole { let g = begun_data given.now (until_in until.now) in IfOk result (λ finish. IsWholeOrGivenUp g.plan g.input finish) }
{
    let _edges = layouts_have_edges();
    let dones = settled(given.layout, dones);
    let tasks = tasks_of(alloc, dones)?;
    match sealed_of(alloc, given, until, tasks.as_slice())? {
        Some(sealed) if sealed.barrier <= given.saves.len() as u64 => {
            Ok(Finish::Abandoned(sealed))
        }
        _ => Err(AllocError),
    }
}

/// What a leg comes to, out of what its workers have done.
pub(crate) fn conclude(
    alloc: Global,
    given: &Begun<'_>,
    until: &Until,
    dones: Vec<Done>,
) -> Result<Finish, AllocError>
    requires sound { IsSound (begun_data given.now (until_in until.now)) }
    requires worked { AreWorked (begun_data given.now (until_in until.now)) dones.items }
    ensures ends { let g = begun_data given.now (until_in until.now) in IfOk result (λ finish. IsEndOf g.plan g.input g.start g.saves g.until finish) }
    ensures whole { let g = begun_data given.now (until_in until.now) in IfOk result (λ finish. IsFromNothing g.input g.start → g.until ≡ ToEnd → IsWholeOrGivenUp g.plan g.input finish) }
{
    if has_fault(dones.as_slice()) {
        return given_up(alloc, given, until, dones);
    }
    finished(alloc, given, until, dones)
}
