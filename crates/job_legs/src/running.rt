//! Legs run one after the other.

ghost use Rattle.std.specs.Prelude.{◌≡◌, ◌+◌, ◌++◌, ◌<◌, ◌≤◌, ◌^◌, ℕ, true, List, [], length, drop, slice_index_or, Option, option_map, IfOk, MatchResult, OnOk};
ghost use Rattle.std.specs.List.{All};
ghost use Rattle.std.specs.List.Sorted.{IsSortedByKey};
ghost use Rattle.layout_rules.specs.Scale.{IsScale};
ghost use Rattle.legs.specs.Requirements.{are_legs};
ghost use Rattle.leg_runs.specs.Choosing.{IsLegBy};
ghost use Rattle.legs.specs.Stops.{counts_of, until_of};
ghost use Rattle.plan_model.specs.Rows.{AreRowsOf, pane_cmp, pane_of};
ghost use Rattle.plan_model.specs.declared.spec.Pane.{Pane as PaneValue};
ghost use Rattle.plan_model.specs.declared.spec.Row.{Row as RowValue};
ghost use Rattle.restarts.specs.Laws.{IsStartAt};
ghost use Rattle.savepoint_index.specs.Layout.{savepoint_bytes};
ghost use Rattle.stream_model.specs.InputData.{BelongsTo};
ghost use Rattle.job_legs.specs.Reached.{HasSaved, rows_of, saved_of, taken_of};
ghost use Rattle.job_legs.specs.Ending.{IsJobEnd, IsLegsRefusal, IsThreadsRefusal};
ghost use Rattle.job_legs.specs.Running.{HaveRun, IsRunRefusal, saves_in};
ghost use Rattle.job_legs.specs.Turns.{HaveRunBy, HaveTurned};
ghost use Rattle.job_legs.specs.Ways.{AnswersLeg, CanRunLeg, GivesLegs, GoesByChoices, TakesLegs};

use crate::laws::{nothing_due_at_first, rows_add_up};
use crate::ways::{ByChoices, InThreads, Way};
use layout_rules::Scale;
use leg_runs::{Finish, run_leg_by};
use legs::{Choice, Cut, LegFault, LegSpec, Stop, are_choices, are_legs};
use plain_data::Items;
use plan_model::{Plan, Row};
use redistribute::Start;
use restarts::restart;
use row_lines::sort_rows;
use savepoint_codec::Savepoint;
use savepoint_index::encode;
use std::alloc::{AllocError, Global};
use std::sync::Wait;
use std::thread::Threads;
use std::time::Clock;
use stream_model::Input;
use stream_model::laws::end_is_due;
use thread_runner::{Gate, run_leg};
use window_state::HashKeys;

/// How far a job has come: the rows of its legs, in the order in which they came, and the savepoint that the last of
/// them left, if it stopped.
#[derive(Drop)]
struct Reached {
    rows: Vec<Row>,
    savepoint: Option<Savepoint>,
}

/// The start of the leg that comes next: from the savepoint that the one before left, or from nothing.
fn next_start(
    alloc: Global,
    plan: &Plan,
    input: &Input,
    savepoint: &Option<Savepoint>,
) -> Result<Start, AllocError>
    requires belongs { BelongsTo plan.now input.now }
    requires saved { (cut : List (List ℕ)) × (number : ℕ) × HasSaved plan.now input.now cut number savepoint.now }
    ensures { (cut : List (List ℕ)) (number : ℕ) → HasSaved plan.now input.now cut number savepoint.now → IfOk result (IsStartAt plan.now input.now cut number) }
{
    match savepoint {
        None => Start::empty(alloc, plan, input),
        Some(savepoint) => restart(alloc, plan, input, savepoint),
    }
}

/// Adds what a leg gave to what the legs before it came to, and tells how many of its savepoints it has taken, if it
/// was given up.
fn take_in(reached: &mut Reached, finish: Finish) -> Result<Option<u64>, AllocError>
    ensures rows { OnOk result (reached.new.rows.items ≡ reached.old.rows.items ++ rows_of finish) }
    ensures savepoint { OnOk result (reached.new.savepoint ≡ saved_of finish) }
    ensures taken { IfOk result (λ taken. taken ≡ taken_of finish) }
{
    let (rows, savepoint, taken) = match finish {
        Finish::Ended(rows, _sealed) => (rows, None, None),
        Finish::Stopped(rows, savepoint) => (rows, Some(savepoint), None),
        Finish::Abandoned(sealed) => (sealed.rows, Some(sealed.savepoint), Some(sealed.barrier)),
    };
    reached.rows.append(&mut rows.into_vec())?;
    reached.savepoint = savepoint;
    Ok(taken)
}

/// The savepoints that a leg still has to take.
fn rest_of(saves: &[Cut], taken: u64) -> &[Cut]
    requires { taken ≤ length saves.now }
    ensures { result.now ≡ drop taken saves.now }
{
    &saves[taken as usize..]
}

/// The cuts at which the first of legs takes savepoints on its way.
fn saves_of(legs: &[LegSpec]) -> &[Cut]
    ensures { result.now ≡ saves_in legs.now }
{
    match legs {
        [] => &[],
        [leg, ..] => leg.saves.as_slice(),
    }
}

/// The list of choices of the leg at a place; an empty one, where there is none.
fn choices_of(lists: &[Items<Choice>], place: usize) -> &[Choice]
    ensures { result.now ≡ slice_index_or lists.now place [] }
{
    match lists.get(place) {
        Some(list) => list.as_slice(),
        None => &[],
    }
}

/// Runs legs one after the other, each by a call of `run`, which is told its list of choices. Where a leg is given up,
/// what is left of it runs next, from the last savepoint that it has sealed and by the same list.
fn run_all<
    W: Way,
    F: FnMut(&[Choice], &Plan, &Input, &Start, &Scale, &[Cut], Stop) -> Result<Finish, LegFault>,
>(
    alloc: Global,
    plan: &Plan,
    input: &Input,
    legs: &[LegSpec],
    lists: &[Items<Choice>],
    mut run: F,
) -> Result<Reached, LegFault>
    requires belongs { BelongsTo plan.now input.now }
    requires scales { All (λ leg. IsScale plan.now leg.scale) legs.now }
    requires list { are_legs legs.now ≡ true }
    requires takes { TakesLegs F.pre }
    requires gives { GivesLegs W.other_fault F.step }
    requires goes { GoesByChoices W.goes_by F.step }
    ensures runs { MatchResult result (HaveRun plan.now input.now legs.now) (IsRunRefusal W.other_fault input.now legs.now) }
    ensures chosen { IfOk result (λ reached. HaveTurned W.goes_by plan.now input.now legs.now lists.now (length legs.now) reached.rows.items reached.savepoint) }
{
    let _first = nothing_due_at_first();
    let _add = rows_add_up();
    let _columns = plan.columns();
    let _sources = input.sources();
    let mut reached = Reached {
        rows: Vec::new(alloc),
        savepoint: None,
    };
    let mut rest = legs;
    let mut saves = saves_of(legs);
    'turns: while let Some((leg, more)) = rest.split_first() {
        let start = next_start(alloc, plan, input, &reached.savepoint)?;
        let stop = leg.stop.copy(alloc)?;
        let choices = choices_of(lists, legs.len() - rest.len());
        let finish = run(choices, plan, input, &start, &leg.scale, saves, stop)?;
        match take_in(&mut reached, finish)? {
            Some(taken) => saves = rest_of(saves, taken),
            None => {
                rest = more;
                saves = saves_of(more);
            }
        }
    }
    Ok(reached)
}

/// The spelling of a savepoint, if there is one.
///
/// # Errors
///
/// Only where memory runs out.
pub fn saved_bytes(
    alloc: Global,
    savepoint: &Option<Savepoint>,
) -> Result<Option<Vec<u8>>, AllocError>
    ensures { IfOk result (λ bytes. option_map (λ b. b.items) bytes ≡ option_map savepoint_bytes savepoint.now) }
{
    match savepoint {
        None => Ok(None),
        Some(savepoint) => Ok(Some(encode(alloc, savepoint)?)),
    }
}

/// What the legs of a job gave together: their rows, in the order of start and key, and the bytes of the savepoint that
/// the last of them left, if it stopped.
#[derive(Drop)]
pub struct LegsEnd {
    pub rows: Vec<Row>,
    pub savepoint: Option<Vec<u8>>,
}

/// Brings the rows in order, and spells the savepoint.
fn end_of(alloc: Global, reached: Reached) -> Result<LegsEnd, AllocError>
    ensures rows { (f : PaneValue → Option RowValue) → AreRowsOf f reached.rows.items → IfOk result (λ end. AreRowsOf f end.rows.items × IsSortedByKey pane_of pane_cmp end.rows.items) }
    ensures savepoint { IfOk result (λ end. option_map (λ b. b.items) end.savepoint ≡ option_map savepoint_bytes reached.savepoint) }
{
    let Reached {
        mut rows,
        savepoint,
    } = reached;
    sort_rows(&mut rows)?;
    let savepoint = saved_bytes(alloc, &savepoint)?;
    Ok(LegsEnd { rows, savepoint })
}

/// What the legs of a list give that are run in a way.
fn end_of_legs<
    W: Way,
    F: FnMut(&[Choice], &Plan, &Input, &Start, &Scale, &[Cut], Stop) -> Result<Finish, LegFault>,
>(
    alloc: Global,
    plan: &Plan,
    input: &Input,
    legs: &[LegSpec],
    lists: &[Items<Choice>],
    run: F,
) -> Result<LegsEnd, LegFault>
    requires belongs { BelongsTo plan.now input.now }
    requires scales { All (λ leg. IsScale plan.now leg.scale) legs.now }
    requires list { are_legs legs.now ≡ true }
    requires takes { TakesLegs F.pre }
    requires gives { GivesLegs W.other_fault F.step }
    requires goes { GoesByChoices W.goes_by F.step }
    ensures chosen { IfOk result (λ end. HaveRunBy W.goes_by plan.now input.now legs.now lists.now end.rows.items (option_map (λ b. b.items) end.savepoint)) }
    ensures ends { MatchResult result (λ end. IsJobEnd plan.now input.now legs.now end.rows.items (option_map (λ b. b.items) end.savepoint)) (IsRunRefusal W.other_fault input.now legs.now) }
{
    let _columns = plan.columns();
    let _sources = input.sources();
    let _law = end_is_due();
    let reached = run_all::<W, F>(alloc, plan, input, legs, lists, run)?;
    Ok(end_of(alloc, reached)?)
}

/// Runs the legs of a job one after the other, each from what the one before left and the first from nothing, and gives
/// their rows together. The panes of the windows are hashed by the keys. Each leg has a list of choices, which say what
/// steps are made first; what the legs give does not hang on them. A leg that is given up for want of memory behind a
/// savepoint on its way is run again from that savepoint, so its rows come once.
///
/// The input and the scales were read by the plan.
///
/// # Errors
///
/// `Legs` where there is no leg, or more than 1,024, or one before the last does not stop; else `Choices` where there
/// are more or fewer lists of choices than legs; else of the first leg that cannot run from where the one before
/// stopped, `StopRange` where it cannot stop as it is to, and `SaveRange` where it cannot take its savepoints on the
/// way there; `Memory` where memory runs out.
pub fn run_legs_by(
    alloc: Global,
    keys: HashKeys,
    plan: &Plan,
    input: &Input,
    legs: Vec<LegSpec>,
    choices: &[Items<Choice>],
) -> Result<LegsEnd, LegFault>
    requires belongs { BelongsTo plan.now input.now }
    requires scales { All (λ leg. IsScale plan.now leg.scale) legs.items }
    ensures ends { MatchResult result (λ end. IsJobEnd plan.now input.now legs.items end.rows.items (option_map (λ b. b.items) end.savepoint)) (IsLegsRefusal input.now legs.items (length choices.now)) }
    ensures lists { OnOk result (length choices.now ≡ length legs.items) }
    ensures chosen { IfOk result (λ end. HaveRunBy IsLegBy plan.now input.now legs.items choices.now end.rows.items (option_map (λ b. b.items) end.savepoint)) }
{
    if !are_legs(&legs) {
        return Err(LegFault::Legs);
    }
    if !are_choices(choices, legs.len()) {
        return Err(LegFault::Choices);
    }
    end_of_legs::<ByChoices, _>(
        alloc,
        plan,
        input,
        &legs,
        choices,
        |choices: &[Choice], plan: &Plan, input: &Input, start: &Start, scale: &Scale, saves: &[Cut], stop: Stop| -> Result<
            Finish,
            LegFault,
        >
            requires { CanRunLeg plan.now input.now start.now scale.now }
            ensures answers { AnswersLeg (λ fault. ⊥) plan.now input.now start.now (counts_of saves.now) stop result }
            ensures chosen { IfOk result (IsLegBy plan.now scale.now input.now start.now (counts_of saves.now) (until_of stop) choices.now) }
        { run_leg_by(alloc, keys, plan, input, start, scale, saves, stop, choices) },
    )
}

/// Runs the legs of a job one after the other, as `run_legs_by` does, but each in a thread for each of its tasks. A
/// task passes the gate before each of its steps; what the legs give does not hang on which steps it holds up.
///
/// The input and the scales were read by the plan.
///
/// # Errors
///
/// `Legs` where there is no leg, or more than 1,024, or one before the last does not stop; else of the first leg that
/// cannot run from where the one before stopped, `StopRange` where it cannot stop as it is to, and `SaveRange` where it
/// cannot take its savepoints on the way there; `Threads` where a thread was refused; `Memory` where memory runs out.
pub fn run_legs<R: Threads + Wait + Clock + Sync, G: Gate>(
    rt: &R,
    alloc: Global,
    keys: HashKeys,
    plan: &Plan,
    input: &Input,
    legs: Vec<LegSpec>,
    gate: &G,
) -> Result<LegsEnd, LegFault>
    requires belongs { BelongsTo plan.now input.now }
    requires scales { All (λ leg. IsScale plan.now leg.scale) legs.items }
    ensures { MatchResult result (λ end. IsJobEnd plan.now input.now legs.items end.rows.items (option_map (λ b. b.items) end.savepoint)) (IsThreadsRefusal input.now legs.items) }
{
    if !are_legs(&legs) {
        return Err(LegFault::Legs);
    }
    end_of_legs::<InThreads, _>(
        alloc,
        plan,
        input,
        &legs,
        &[],
        |_choices: &[Choice], plan: &Plan, input: &Input, start: &Start, scale: &Scale, saves: &[Cut], stop: Stop| -> Result<
            Finish,
            LegFault,
        >
            requires { CanRunLeg plan.now input.now start.now scale.now }
            ensures { AnswersLeg (λ fault. fault ≡ LegFault.Threads) plan.now input.now start.now (counts_of saves.now) stop result }
        {
            let stop = thread_runner::Stop::from(stop);
            run_leg(
                rt, alloc, keys, plan, input, start, scale, saves, stop, gate,
            )
        },
    )
}
