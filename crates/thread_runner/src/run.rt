//! A thread for each job.

ghost use Rattle.std.specs.Prelude.{◌≡◌, ℕ, List, [], ◌∷◌, ◌++◌, IfOk, IfErr, All};
ghost use Rattle.std.specs.Thread.{IsSync};
ghost use Rattle.thread_runner.specs.Jobs.{FindsInput, IsWorkOf, AllWorkOf};
ghost use Rattle.thread_runner.specs.Refusal.{IsWant};

use crate::gate::Gate;
use crate::jobs::{Done, Job};
use crate::waiting::Patience;
use crate::work::worker;
use core::thread::Stack;
use legs::LegFault;
use std::alloc::Global;
use std::snapshot::Snapshot;
use std::sync::Wait;
use std::sync::atomic::{AtomicBool, Ordering};
use std::thread;
use std::thread::{Promise, Threads};
use std::time::Clock;
use stream_model::Input;

/// The stack of a worker, in bytes: no step goes deep, and 256 workers have to start where a process has 1 GB of
/// addresses.
const STACK: usize = 1 << 20;

/// The promise of a thread: its result is the work of the job.
#[derive(Drop)]
struct WorkOf {
    input: Snapshot<Input>,
    job: Snapshot<Job>,
}

impl Promise<Done> for WorkOf {
    ghost kept_by = { λ p d. IsWorkOf p.input.value p.job.value d };
}

/// Waits until each job has a thread, or one was refused: what a worker takes of the addresses, or of the processors,
/// is what the next thread may want.
fn await_threads<R: Wait + Clock>(rt: &R, started: &AtomicBool, failed: &AtomicBool) {
    let mut patience = Patience::new();
    for _ in rt.forever() {
        if started.load(Ordering::SeqCst) || failed.load(Ordering::SeqCst) {
            break;
        }
        patience.wait(rt);
    }
}

/// What a worker hands back of a job.
fn run_job<R: Wait + Clock, G: Gate>(
    rt: &R,
    input: &Input,
    job: Job,
    gate: &G,
    started: &AtomicBool,
    asked: &AtomicBool,
    failed: &AtomicBool,
) -> Done
    requires { FindsInput input.now job }
    ensures { IsWorkOf input.now job result }
{
    await_threads(rt, started, failed);
    let Job {
        task,
        inputs,
        outputs,
    } = job;
    worker(rt, input, task, inputs, outputs, gate, Some(asked), failed)
}

/// Runs each job in a thread of its own, as [`run_all`] does. The word `started` is set, and the workers begin, once
/// there is no job without one.
fn run_jobs<R: Threads + Wait + Clock + Sync, G: Gate>(
    rt: &R,
    alloc: Global,
    input: &Input,
    jobs: Vec<Job>,
    gate: &G,
    started: &AtomicBool,
    asked: &AtomicBool,
    failed: &AtomicBool,
) -> Result<Vec<Done>, LegFault>
    requires { All (FindsInput input.now) jobs.items }
    ensures ok { IfOk result (λ dones. AllWorkOf input.now jobs.items dones.items) }
    ensures refused { IfErr result IsWant }
{
    let mut jobs = jobs;
    let Some(job) = jobs.pop() else {
        started.store(true, Ordering::SeqCst);
        return Ok(Vec::new(alloc));
    };
    thread::scope(
        thread::scope_env(),
        rt,
        move |scope| -> Result<Vec<Done>, LegFault>
            requires { IsSync R.row × IsSync G.row × FindsInput input.now job × All (FindsInput input.now) jobs.items }
            ensures ok { IfOk result (λ dones. AllWorkOf input.entry.now (jobs.items ++ job ∷ []) dones.items) }
            ensures refused { IfErr result IsWant }
        {
            let promise = WorkOf {
                input: Snapshot::of(input),
                job: Snapshot::of(&job),
            };
            let child = Stack::new().stack_size(STACK).spawn_scoped_with(
                scope,
                promise,
                move || -> Done
                    requires { FindsInput input.now job }
                    ensures { IsWorkOf input.entry.now job result }
                { run_job(rt, input, job, gate, started, asked, failed) },
            );
            let Ok(child) = child else {
                failed.store(true, Ordering::SeqCst);
                return Err(LegFault::Threads);
            };
            let rest = run_jobs(rt, alloc, input, jobs, gate, started, asked, failed);
            let last = child.join(rt);
            let mut dones = rest?;
            match dones.push(last) {
                Ok(()) => Ok(dones),
                Err(_) => {
                    failed.store(true, Ordering::SeqCst);
                    Err(LegFault::Memory)
                }
            }
        },
    )
}

/// Runs each job in a thread of its own, and gives what each worker hands back, in the order of the jobs.
///
/// Each task finds in the input what it is to read. Sources that may be asked to stop do so once the word `asked` is
/// set.
///
/// # Errors
///
/// `Threads` where a thread was refused, `Memory` where room for what the workers hand back was. The failure word is
/// set then, and the jobs are dropped.
pub fn run_all<R: Threads + Wait + Clock + Sync, G: Gate>(
    rt: &R,
    alloc: Global,
    input: &Input,
    jobs: Vec<Job>,
    gate: &G,
    asked: Option<&AtomicBool>,
    failed: &AtomicBool,
) -> Result<Vec<Done>, LegFault>
    requires { All (FindsInput input.now) jobs.items }
    ensures ok { IfOk result (λ dones. AllWorkOf input.now jobs.items dones.items) }
    ensures refused { IfErr result IsWant }
{
    let started = AtomicBool::new(false);
    let never = AtomicBool::new(false);
    let asked = asked.unwrap_or(&never);
    run_jobs(rt, alloc, input, jobs, gate, &started, asked, failed)
}
