//! A leg of a job, run in a thread for each task.

ghost use Rattle.std.specs.Prelude.{◌≡◌, IfOk, IfErr, OnOk};
ghost use Rattle.stream_model.specs.InputData.{BelongsTo};
ghost use Rattle.layout_rules.specs.Scale.{IsScale};
ghost use Rattle.legs.specs.Stops.{until_in};
ghost use Rattle.redistribute.specs.StartData.{offsets_of};
ghost use Rattle.redistribute.specs.Begins.{IsStartIn, IsFromNothing};
ghost use Rattle.redistribute.specs.Stopping.{CanGo, CanSaveAt, IsRefusal};
ghost use Rattle.task_setups.specs.Legs.{IsLayoutOf, counts_of};
ghost use Rattle.core_steps.specs.Given.{begun_data, given_data};
ghost use Rattle.core_steps.specs.World.{IsSound};
ghost use Rattle.dataflow_model.specs.Leg.Until.{ToEnd};
ghost use Rattle.core_steps.specs.Ending.{IsEndOf, IsWholeOrGivenUp};
ghost use Rattle.thread_runner.specs.Legs.{AreWired};
ghost use Rattle.thread_runner.specs.Starts.{start_held};
ghost use Rattle.thread_runner.specs.Refusal.{IsThreadRefusal, IsWant};
ghost use Rattle.thread_runner.specs.declared.stop.Stop.TheVariants.{Never};
ghost use Rattle.thread_runner.specs.Stops.{until_of};

use crate::ending::conclude;
use crate::gate::Gate;
use crate::jobs::Job;
use crate::laws::layouts_have_edges;
use crate::run::run_all;
use crate::stop::Stop;
use crate::wiring::{jobs_of, wire};
use core_steps::laws::{each_leg_is_sound, tasks_begin_new};
use core_steps::{Begun, Finish, Given};
use layout_rules::Scale;
use leg_tasks::tasks;
use legs::{Cut, LegFault, Until};
use plan_compiler::compile;
use plan_model::Plan;
use redistribute::Start;
use std::alloc::Global;
use std::sync::atomic::AtomicBool;
use std::sync::{Arc, Wait};
use std::thread::Threads;
use std::time::Clock;
use stream_model::Input;
use task_setups::Leg;
use window_state::HashKeys;

/// The jobs of a leg: its tasks as they begin, with a new ring for each edge of the layout.
///
/// The input was read by the plan, the layout is one of the plan, the start one of the input, and the leg goes on from
/// there.
///
/// # Errors
///
/// `StopRange` where a leg from the start cannot stop so, `SaveRange` where it cannot take its savepoints on the way
/// there; `Memory`.
pub fn prepared(
    alloc: Global,
    keys: HashKeys,
    given: Given<'_>,
    leg: &Leg<'_>,
) -> Result<Vec<Job>, LegFault>
    requires laid_out { IsLayoutOf given.plan.now given.layout.now }
    requires belongs { BelongsTo given.plan.now given.input.now }
    requires starts { IsStartIn given.plan.now given.input.now given.start.now }
    requires number { leg.now.number ≡ given.start.now.number }
    requires same { leg.now.saves.now ≡ given.saves.now }
    ensures stops { OnOk result (CanGo given.entry.input.now.sources (offsets_of given.entry.start.now) (until_in leg.now.until)) }
    ensures sound { OnOk result (IsSound (given_data given.entry (until_in leg.now.until))) }
    ensures refused { IfErr result (λ fault. IsRefusal given.entry.input.now.sources (offsets_of given.entry.start.now) (counts_of given.entry.saves.now) (until_in leg.now.until) fault) }
    ensures wired { IfOk result (λ jobs. AreWired (given_data given.entry (until_in leg.now.until)) jobs.items) }
{
    let _sound = each_leg_is_sound();
    let _new = tasks_begin_new();
    let _edges = layouts_have_edges();
    let plan = given.plan;
    let input = given.input;
    let _columns = plan.columns();
    let _sources = input.sources();
    let tasks = tasks(alloc, keys, plan, input, given.start, given.layout, leg)?;
    let mut jobs = jobs_of(alloc, tasks)?;
    wire(alloc, given.layout, jobs.as_mut_slice())?;
    Ok(jobs)
}

/// The word that asks a leg to stop, if there is one.
fn word_in(asked: &Option<Arc<AtomicBool>>) -> Option<&AtomicBool> {
    match asked {
        Some(word) => Some(&**word),
        None => None,
    }
}

/// Runs a leg whose tasks have begun, and stand in these jobs.
///
/// # Errors
///
/// `Threads` where a thread was refused, and `Memory` where memory runs out and no savepoint on the way is complete.
fn run_begun<R: Threads + Wait + Clock + Sync, G: Gate>(
    rt: &R,
    alloc: Global,
    given: &Begun<'_>,
    until: &Until,
    jobs: Vec<Job>,
    asked: Option<&AtomicBool>,
    gate: &G,
) -> Result<Finish, LegFault>
    requires sound { IsSound (begun_data given.now (until_in until.now)) }
    requires wired { AreWired (begun_data given.now (until_in until.now)) jobs.items }
    ensures ends { let g = begun_data given.now (until_in until.now) in IfOk result (λ finish. IsEndOf g.plan g.input g.start g.saves g.until finish) }
    ensures whole { let g = begun_data given.now (until_in until.now) in IfOk result (λ finish. IsFromNothing g.input g.start → g.until ≡ ToEnd → IsWholeOrGivenUp g.plan g.input finish) }
    ensures refused { IfErr result IsWant }
{
    let failed = AtomicBool::new(false);
    let dones = run_all(rt, alloc, given.input, jobs, gate, asked, &failed)?;
    Ok(conclude(alloc, given, until, dones)?)
}

/// The start of a leg: lent, to one that may be run again, or its own.
#[derive(Drop)]
pub(crate) enum Held<'a> {
    Lent(&'a Start),
    Own(Start),
}

impl Held<'_> {
    /// The start.
    fn get(&self) -> &Start
        ensures { result.now ≡ start_held self.now }
    {
        match self {
            Held::Lent(start) => start,
            Held::Own(start) => start,
        }
    }
}

/// Runs a leg as [`run_leg`] does. A start of its own is let go once the tasks have begun.
fn run_held<'x, R: Threads + Wait + Clock + Sync, G: Gate>(
    rt: &R,
    alloc: Global,
    keys: HashKeys,
    plan: &'x Plan,
    input: &'x Input,
    start: Held<'x>,
    scale: &Scale,
    saves: &'x [Cut],
    stop: Stop,
    gate: &G,
) -> Result<Finish, LegFault>
    requires belongs { BelongsTo plan.now input.now }
    requires scale { IsScale plan.now scale.now }
    requires starts { IsStartIn plan.now input.now (start_held start) }
    ensures stops { OnOk result (CanGo input.now.sources (offsets_of (start_held start.entry)) (until_of stop)) }
    ensures saves { OnOk result (CanSaveAt input.now.sources (offsets_of (start_held start.entry)) (counts_of saves.now) (until_of stop)) }
    ensures ends { IfOk result (λ finish. IsEndOf plan.now input.now (start_held start.entry) (counts_of saves.now) (until_of stop) finish) }
    ensures whole { IfOk result (λ finish. IsFromNothing input.now (start_held start.entry) → stop ≡ Never → IsWholeOrGivenUp plan.now input.now finish) }
    ensures refused { IfErr result (λ fault. IsThreadRefusal input.now.sources (offsets_of (start_held start.entry)) (counts_of saves.now) (until_of stop) fault) }
{
    let (until, asked) = stop.into_parts();
    let begins = start.get();
    begins.check_until(input, &until)?;
    begins.check_saves_until(input, saves, &until)?;
    let layout = compile(alloc, plan, scale)?;
    let leg = Leg {
        number: begins.number(),
        saves,
        until,
    };
    let given = Given {
        plan,
        input,
        start: begins,
        layout: &layout,
        saves: leg.saves,
    };
    let jobs = prepared(alloc, keys, given, &leg)?;
    let begun = Begun::with(plan, input, begins, &layout, leg.saves);
    drop(start);
    run_begun(rt, alloc, &begun, &leg.until, jobs, word_in(&asked), gate)
}

/// Runs a leg that begins at a start, on the layout of the plan at a scale, in a thread for each task, to the end of
/// its input or to the cut where it stops and leaves a savepoint. The panes of the windows are hashed by the keys, and
/// each worker passes the gate before each of its steps.
///
/// A leg that may be asked to stop looks for the word before each step of a source: a source that sees it reads no
/// further entry. It ends at a cut that no one knows before, with the savepoint of there, or at the end of its input,
/// where all its sources were closed before they saw the word.
///
/// At each of its savepoints on the way every task keeps its state and goes on. Where memory is refused to a worker
/// behind one that is complete, the leg is given up with what it had sealed there.
///
/// The input and the scale were read by the plan, and the start is one of the input.
///
/// # Errors
///
/// `StopRange` where a leg from the start cannot stop so, else `SaveRange` where it cannot take its savepoints on the
/// way, else `Threads` where a thread was refused, and `Memory` where memory runs out and no savepoint on the way is
/// complete.
pub fn run_leg<R: Threads + Wait + Clock + Sync, G: Gate>(
    rt: &R,
    alloc: Global,
    keys: HashKeys,
    plan: &Plan,
    input: &Input,
    start: &Start,
    scale: &Scale,
    saves: &[Cut],
    stop: Stop,
    gate: &G,
) -> Result<Finish, LegFault>
    requires belongs { BelongsTo plan.now input.now }
    requires scale { IsScale plan.now scale.now }
    requires starts { IsStartIn plan.now input.now start.now }
    ensures stops { OnOk result (CanGo input.now.sources (offsets_of start.now) (until_of stop)) }
    ensures saves { OnOk result (CanSaveAt input.now.sources (offsets_of start.now) (counts_of saves.now) (until_of stop)) }
    ensures ends { IfOk result (λ finish. IsEndOf plan.now input.now start.now (counts_of saves.now) (until_of stop) finish) }
    ensures whole { IfOk result (λ finish. IsFromNothing input.now start.now → stop ≡ Never → IsWholeOrGivenUp plan.now input.now finish) }
    ensures refused { IfErr result (λ fault. IsThreadRefusal input.now.sources (offsets_of start.now) (counts_of saves.now) (until_of stop) fault) }
{
    let start = Held::Lent(start);
    run_held(
        rt, alloc, keys, plan, input, start, scale, saves, stop, gate,
    )
}

/// The same as [`run_leg`], of a start that no other leg begins at: it is let go once the tasks have begun, so that its
/// panes do not stand beside theirs.
///
/// # Errors
///
/// Those of [`run_leg`].
pub fn run_leg_from<R: Threads + Wait + Clock + Sync, G: Gate>(
    rt: &R,
    alloc: Global,
    keys: HashKeys,
    plan: &Plan,
    input: &Input,
    start: Start,
    scale: &Scale,
    saves: &[Cut],
    stop: Stop,
    gate: &G,
) -> Result<Finish, LegFault>
    requires belongs { BelongsTo plan.now input.now }
    requires scale { IsScale plan.now scale.now }
    requires starts { IsStartIn plan.now input.now start }
    ensures stops { OnOk result (CanGo input.now.sources (offsets_of start) (until_of stop)) }
    ensures saves { OnOk result (CanSaveAt input.now.sources (offsets_of start) (counts_of saves.now) (until_of stop)) }
    ensures ends { IfOk result (λ finish. IsEndOf plan.now input.now start (counts_of saves.now) (until_of stop) finish) }
    ensures whole { IfOk result (λ finish. IsFromNothing input.now start → stop ≡ Never → IsWholeOrGivenUp plan.now input.now finish) }
    ensures refused { IfErr result (λ fault. IsThreadRefusal input.now.sources (offsets_of start) (counts_of saves.now) (until_of stop) fault) }
{
    let start = Held::Own(start);
    run_held(
        rt, alloc, keys, plan, input, start, scale, saves, stop, gate,
    )
}
