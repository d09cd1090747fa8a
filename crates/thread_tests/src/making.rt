//! Legs of small jobs on threads, and what they come to.

ghost use Rattle.std.specs.Prelude.{IfOk};
ghost use Rattle.layout_rules.specs.Scale.{IsScale};
ghost use Rattle.redistribute.specs.Begins.{IsStartIn};
ghost use Rattle.stream_model.specs.InputData.{BelongsTo};
ghost use Rattle.task_setups.specs.Legs.{IsLayoutOf};

use core_steps::Finish;
use job_texts::{sort_rows, text_of_rows};
use layout_rules::Scale;
use legs::{Cut, LegFault, Stop};
use logical_plan::ReadPlan;
use plain_data::Items;
use plan_compiler::{Layout, compile};
use plan_model::{Plan, Row};
use plan_scale::ReadScale;
use redistribute::Start;
use restore::check;
use savepoint_codec::Savepoint;
use savepoint_index::{decode, encode};
use std::alloc::{AllocError, Global};
use std::random::RandomSource;
use std::sync::atomic::AtomicBool;
use std::sync::{Arc, Wait};
use std::test::Fail;
use std::thread::Threads;
use std::time::Clock;
use stream_input::ReadInput;
use stream_model::Input;
use thread_runner::{Gate, run_leg_from};
use window_state::HashKeys;

pub const USAGE: &str =
    r#"{"columns":3,"maxParallelism":128,"time":0,"key":1,"sources":[{"uid":"s","partitions":2}],"window":{"uid":"w","size":10,"aggregates":[{"fn":"count"},{"fn":"sum","column":2},{"fn":"least","column":2},{"fn":"greatest","column":2}]}}"#;

pub const COUNTS: &str =
    r#"{"columns":3,"maxParallelism":128,"time":0,"key":1,"sources":[{"uid":"s","partitions":2}],"window":{"uid":"w","size":10,"aggregates":[{"fn":"count"}]}}"#;

pub const ONE_ONE: &str = r#"{"ring":4,"operators":{"s":{"parallelism":1},"w":{"parallelism":1}}}"#;

pub const ONE_TWO: &str = r#"{"ring":4,"operators":{"s":{"parallelism":1},"w":{"parallelism":2}}}"#;

pub const TWO_THREE: &str =
    r#"{"ring":4,"operators":{"s":{"parallelism":2},"w":{"parallelism":3}}}"#;

pub const TWO_THREE_SHORT: &str =
    r#"{"ring":1,"operators":{"s":{"parallelism":2},"w":{"parallelism":3}}}"#;

/// Two of the four subtasks of the source have no partition.
pub const FOUR_THREE: &str =
    r#"{"ring":4,"operators":{"s":{"parallelism":4},"w":{"parallelism":3}}}"#;

pub const FOUR_EIGHT_SHORT: &str =
    r#"{"ring":1,"operators":{"s":{"parallelism":4},"w":{"parallelism":8}}}"#;

pub const THREE_AND_THREE: &str =
    r#"{"s":[[{"rows":[[1,1,5],[12,1,7]]},{"watermark":9},{"rows":[[15,0,-3]]}],[{"rows":[[3,0,4]]},{"watermark":11},{"rows":[[13,1,2]]}]]}"#;

/// The rows of the job on the input.
pub const ROWS: &str = "0 10 0 1 4 4 4\n0 10 1 1 5 5 5\n10 20 0 1 -3 -3 -3\n10 20 1 2 9 2 7\n";

/// A leg of a job: of a plan on an input, at a scale, from a savepoint or from nothing, to where so many entries of
/// each partition were read or to its end.
#[derive(Clone, Copy, Debug)]
pub struct Case<'a> {
    pub plan: &'a str,
    pub input: &'a str,
    pub scale: &'a str,
    pub from: Option<&'a [u8]>,
    pub stop: Option<&'a [u64]>,
}

impl<'a> Case<'a> {
    /// The whole of the job on the input, at a scale.
    pub fn whole(scale: &'a str) -> Case<'a> {
        Case {
            plan: USAGE,
            input: THREE_AND_THREE,
            scale,
            from: None,
            stop: None,
        }
    }
}

/// What a leg came to: its rows, line by line, and the bytes of its savepoint, if it stopped.
#[derive(Debug, Drop)]
pub struct Outcome {
    pub rows: String,
    pub savepoint: Option<Vec<u8>>,
}

fn lines(alloc: Global, rows: Items<Row>, sorts: bool) -> Result<String, AllocError> {
    let mut rows = rows.into_vec();
    if sorts {
        sort_rows(&mut rows)?;
    }
    text_of_rows(alloc, rows.as_slice())
}

/// What a leg came to that left a savepoint.
fn saved(
    alloc: Global,
    rows: Items<Row>,
    savepoint: Savepoint,
    sorts: bool,
) -> Result<Outcome, AllocError> {
    let savepoint = Box::new(alloc, savepoint)?;
    let bytes = encode(alloc, &savepoint)?;
    Ok(Outcome {
        rows: lines(alloc, rows, sorts)?,
        savepoint: Some(bytes),
    })
}

/// What a leg came to, with its rows sorted or in the order in which they came.
pub fn outcome_of(alloc: Global, finish: Finish, sorts: bool) -> Result<Outcome, AllocError> {
    match finish {
        Finish::Ended(rows, _) => Ok(Outcome {
            rows: lines(alloc, rows, sorts)?,
            savepoint: None,
        }),
        Finish::Stopped(rows, savepoint) => saved(alloc, rows, savepoint, sorts),
        Finish::Abandoned(sealed) => saved(alloc, sealed.rows, sealed.savepoint, sorts),
    }
}

/// The layout of a plan at a scale.
pub fn layout_at(alloc: Global, plan: &Plan, scale: &str) -> Result<Layout, Fail>
    ensures { IfOk result (λ layout. IsLayoutOf plan.now layout) }
{
    let scale = Box::new(alloc, Scale::read(alloc, plan, scale.as_bytes())?)?;
    Ok(compile(alloc, plan, &scale)?)
}

/// A stop where so many entries of each partition were read, if it stops.
fn stop_at(alloc: Global, counts: Option<&[u64]>) -> Result<Stop, AllocError> {
    let Some(counts) = counts else {
        return Ok(Stop::Never);
    };
    let source = Items::from_vec(Vec::from_slice(alloc, counts)?);
    let counts = Items::from_vec(vec![in alloc; source]?);
    Ok(Stop::At(Cut { counts }))
}

/// How a leg is run with a thread for each task: through a gate, and with a word that asks it to stop, which then tells
/// where it stops, if there is one.
#[derive(Drop)]
struct OnThreads<'a, G> {
    gate: &'a G,
    word: Option<&'a Arc<AtomicBool>>,
}

/// Where a leg on threads stops that has such a word, or none.
fn stop_on_threads(
    stop: Stop,
    word: Option<&Arc<AtomicBool>>,
) -> Result<thread_runner::Stop, AllocError> {
    match word {
        Some(word) => Ok(thread_runner::Stop::Asked(Arc::try_clone(word)?)),
        None => Ok(thread_runner::Stop::from(stop)),
    }
}

/// Runs a leg on threads.
fn run_scaled<R: AllocGlobal + RandomSource + Threads + Wait + Clock + Sync, G: Gate>(
    rt: &R,
    plan: &Plan,
    input: &Input,
    start: Box<Start>,
    scale: &Scale,
    stop: Stop,
    threads: OnThreads<'_, G>,
) -> Result<Result<Finish, LegFault>, Fail>
    requires belongs { BelongsTo plan.now input.now }
    requires scale { IsScale plan.now scale.now }
    requires starts { IsStartIn plan.now input.now start.value }
{
    let keys = HashKeys::random(rt)?;
    let OnThreads { gate, word } = threads;
    let stop = stop_on_threads(stop, word)?;
    Ok(run_leg_from(
        rt,
        rt.alloc(),
        keys,
        plan,
        input,
        Box::into_inner(start),
        scale,
        &[],
        stop,
        gate,
    ))
}

fn run_started<R: AllocGlobal + RandomSource + Threads + Wait + Clock + Sync, G: Gate>(
    rt: &R,
    plan: &Plan,
    input: &Input,
    start: Box<Start>,
    case: &Case<'_>,
    threads: OnThreads<'_, G>,
) -> Result<Result<Finish, LegFault>, Fail>
    requires belongs { BelongsTo plan.now input.now }
    requires starts { IsStartIn plan.now input.now start.value }
{
    let scale = Box::new(
        rt.alloc(),
        Scale::read(rt.alloc(), plan, case.scale.as_bytes())?,
    )?;
    let stop = stop_at(rt.alloc(), case.stop)?;
    run_scaled(rt, plan, input, start, &scale, stop, threads)
}

/// The start that a leg goes on from, or that of the whole input.
fn start_of(alloc: Global, plan: &Plan, input: &Input, from: Option<&[u8]>) -> Result<Start, Fail>
    requires { BelongsTo plan.now input.now }
    ensures { IfOk result (λ start. IsStartIn plan.now input.now start) }
{
    let Some(bytes) = from else {
        return Ok(Start::empty(alloc, plan, input)?);
    };
    let savepoint = Box::new(alloc, decode(alloc, bytes)?)?;
    Ok(check(alloc, plan, input, &savepoint)?)
}

fn run_input<R: AllocGlobal + RandomSource + Threads + Wait + Clock + Sync, G: Gate>(
    rt: &R,
    plan: &Plan,
    input: &Input,
    case: &Case<'_>,
    threads: OnThreads<'_, G>,
) -> Result<Result<Finish, LegFault>, Fail>
    requires { BelongsTo plan.now input.now }
{
    let start = Box::new(rt.alloc(), start_of(rt.alloc(), plan, input, case.from)?)?;
    run_started(rt, plan, input, start, case, threads)
}

fn run_plan<R: AllocGlobal + RandomSource + Threads + Wait + Clock + Sync, G: Gate>(
    rt: &R,
    plan: &Plan,
    case: &Case<'_>,
    threads: OnThreads<'_, G>,
) -> Result<Result<Finish, LegFault>, Fail> {
    let alloc = rt.alloc();
    let input = Box::new(alloc, Input::read(alloc, plan, case.input.as_bytes())?)?;
    run_input(rt, plan, &input, case, threads)
}

fn run<R: AllocGlobal + RandomSource + Threads + Wait + Clock + Sync, G: Gate>(
    rt: &R,
    case: Case<'_>,
    threads: OnThreads<'_, G>,
) -> Result<Result<Finish, LegFault>, Fail> {
    let plan = Box::new(rt.alloc(), Plan::read(rt.alloc(), case.plan.as_bytes())?)?;
    run_plan(rt, &plan, &case, threads)
}

/// Runs a leg with a thread for each task, through a gate.
pub fn run_on_threads<R: AllocGlobal + RandomSource + Threads + Wait + Clock + Sync, G: Gate>(
    rt: &R,
    case: Case<'_>,
    gate: &G,
) -> Result<Result<Finish, LegFault>, Fail> {
    run(rt, case, OnThreads { gate, word: None })
}

/// What a leg on threads comes to, with its rows sorted.
pub fn outcome_on_threads<R: AllocGlobal + RandomSource + Threads + Wait + Clock + Sync, G: Gate>(
    rt: &R,
    case: Case<'_>,
    gate: &G,
) -> Result<Outcome, Fail> {
    Ok(outcome_of(rt.alloc(), run_on_threads(rt, case, gate)??, true)?)
}

/// What a leg on threads comes to that may be asked to stop, with its rows sorted.
pub fn outcome_asked<R: AllocGlobal + RandomSource + Threads + Wait + Clock + Sync, G: Gate>(
    rt: &R,
    case: Case<'_>,
    gate: &G,
    word: &Arc<AtomicBool>,
) -> Result<Outcome, Fail> {
    let threads = OnThreads {
        gate,
        word: Some(word),
    };
    Ok(outcome_of(rt.alloc(), run(rt, case, threads)??, true)?)
}
