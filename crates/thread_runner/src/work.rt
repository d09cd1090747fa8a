//! One worker: a task, its rings' ends, and the loop that makes its local steps.

ghost use Rattle.std.specs.Prelude.{◌≡◌, ℕ, ◌<◌, List, IfNone, IfSome, OnOk, OnErr, MatchResult};
ghost use Rattle.stream_model.specs.InputData.{InputData};
ghost use Rattle.dataflow_model.specs.Steps.{IsDone};
ghost use Rattle.legs.specs.declared.fault.LegFault.TheVariants.{Memory};
ghost use Rattle.task_steps.specs.Puts.{IsFirst};
ghost use Rattle.thread_runner.specs.declared.ends.Receiver.{Receiver};
ghost use Rattle.thread_runner.specs.declared.ends.Sender.{Sender};
ghost use Rattle.thread_runner.specs.Works.{Finds, Works, WorksUpTo};
ghost use Rattle.thread_runner.specs.Jobs.{HasWorked};

use crate::gate::Gate;
use crate::jobs::Done;
use crate::rings::{Receiver, Sender};
use crate::waiting::Patience;
use legs::LegFault;
use std::sync::Wait;
use std::sync::atomic::{AtomicBool, Ordering};
use std::time::Clock;
use stream_model::Input;
use task_steps::{StepFault, Task};

/// Puts the first pending message, if its ring has room.
fn put_first(task: &mut Task, outputs: &mut [Sender], output: u32) -> bool
    requires { IsFirst output task.old.state.pending }
    ensures { (i : InputData) (ins : List Receiver) → Works i task.old ins outputs.old task.new ins outputs.new }
{
    let at = output as usize;
    if at >= outputs.len() {
        return false;
    }
    let sender = &mut outputs[at];
    if !sender.room() {
        return false;
    }
    match task.pop_pending() {
        Some((_, message)) => match sender.put(message) {
            Ok(()) => true,
            Err(_) => unreachable!(),
        },
        None => false,
    }
}

/// Takes a message from an input, if it has one and may be taken from.
fn take_from(task: &mut Task, inputs: &mut [Receiver], input: u32) -> Result<bool, StepFault>
    ensures ok { OnOk result ((i : InputData) (outs : List Sender) → Works i task.old inputs.old outs task.new inputs.new outs) }
    ensures err { OnErr result ((i : InputData) (outs : List Sender) → WorksUpTo i task.old inputs.old outs task.new inputs.new outs) }
{
    if !task.can_take(input) {
        return Ok(false);
    }
    let at = input as usize;
    if at >= inputs.len() {
        return Ok(false);
    }
    let receiver = &mut inputs[at];
    let Some(message) = receiver.take() else {
        return Ok(false);
    };
    match task.take(input, message) {
        Ok(()) => Ok(true),
        Err(fault) => Err(fault),
    }
}

/// Takes a message from the first input from one on, in turn, that has one and may be taken from.
fn take_any(task: &mut Task, inputs: &mut [Receiver], first: &mut u32) -> Result<bool, StepFault>
    ensures ok { OnOk result ((i : InputData) (outs : List Sender) → Works i task.old inputs.old outs task.new inputs.new outs) }
    ensures err { OnErr result ((i : InputData) (outs : List Sender) → WorksUpTo i task.old inputs.old outs task.new inputs.new outs) }
{
    let mut at = *first;
    for _ in 0..inputs.len() {
        if at as usize >= inputs.len() {
            at = 0;
        }
        let input = at;
        at = at.saturating_add(1);
        if take_from(task, inputs, input)? {
            *first = at;
            return Ok(true);
        }
    }
    Ok(false)
}

/// Stops a source that could stop.
fn stop_source(task: &mut Task) -> Result<bool, StepFault>
    ensures ok { OnOk result ((i : InputData) (ins : List Receiver) (outs : List Sender) → Works i task.old ins outs task.new ins outs) }
    ensures err { OnErr result ((i : InputData) (ins : List Receiver) (outs : List Sender) → WorksUpTo i task.old ins outs task.new ins outs) }
{
    match task.stop() {
        Ok(()) => Ok(true),
        Err(fault) => Err(fault),
    }
}

/// Makes a step of a source that has nothing pending, if there is one. One that is asked to stop, and may be, does so
/// rather than read or close.
fn run_source(input: &Input, task: &mut Task, asked: bool) -> Result<bool, StepFault>
    requires { Finds input.now task.old }
    ensures ok { OnOk result ((ins : List Receiver) (outs : List Sender) → Works input.now task.old ins outs task.new ins outs) }
    ensures err { OnErr result ((ins : List Receiver) (outs : List Sender) → WorksUpTo input.now task.old ins outs task.new ins outs) }
{
    if asked && task.can_stop() {
        return stop_source(task);
    }
    if let Some(partition) = task.next_partition() {
        return match task.read(input, partition) {
            Ok(()) => Ok(true),
            Err(fault) => Err(fault),
        };
    }
    if task.can_open() {
        return match task.open() {
            Ok(()) => Ok(true),
            Err(fault) => Err(fault),
        };
    }
    if task.can_save() {
        return match task.save() {
            Ok(()) => Ok(true),
            Err(fault) => Err(fault),
        };
    }
    if task.can_close() {
        return match task.close() {
            Ok(()) => Ok(true),
            Err(fault) => Err(fault),
        };
    }
    if task.can_stop() {
        return stop_source(task);
    }
    Ok(false)
}

/// Tries one local step: `false` where none was made.
fn attempt(
    input: &Input,
    task: &mut Task,
    inputs: &mut [Receiver],
    outputs: &mut [Sender],
    first: &mut u32,
    asked: &AtomicBool,
) -> Result<bool, StepFault>
    requires { Finds input.now task.old }
    ensures ok { OnOk result (Works input.now task.old inputs.old outputs.old task.new inputs.new outputs.new) }
    ensures err { OnErr result (WorksUpTo input.now task.old inputs.old outputs.old task.new inputs.new outputs.new) }
{
    if let Some(output) = task.pending() {
        return Ok(put_first(task, outputs, output));
    }
    if inputs.is_empty() {
        run_source(input, task, asked.load(Ordering::SeqCst))
    } else {
        take_any(task, inputs, first)
    }
}

/// Makes local steps until the task is done, a step is refused or another worker has failed.
fn work<R: Wait + Clock, G: Gate>(
    rt: &R,
    input: &Input,
    task: &mut Task,
    inputs: &mut [Receiver],
    outputs: &mut [Sender],
    gate: &G,
    asked: &AtomicBool,
    failed: &AtomicBool,
) -> Option<LegFault>
    requires { Finds input.now task.old }
    ensures none { IfNone result (IsDone task.new.state × Works input.now task.old inputs.old outputs.old task.new inputs.new outputs.new) }
    ensures fault { IfSome result (λ fault. (fault ≡ Memory) × WorksUpTo input.now task.old inputs.old outputs.old task.new inputs.new outputs.new) }
{
    let number = task.number();
    let mut step = 0u64;
    let mut first = 0u32;
    let mut patience = Patience::new();
    for _ in rt.forever() {
        if task.is_done() {
            break;
        }
        if failed.load(Ordering::SeqCst) {
            return Some(LegFault::Memory);
        }
        gate.pass(number, step);
        match attempt(input, task, inputs, outputs, &mut first, asked) {
            Ok(true) => {
                step = step.saturating_add(1);
                patience.renew();
            }
            Ok(false) => patience.wait(rt),
            Err(_) => {
                failed.store(true, Ordering::SeqCst);
                return Some(LegFault::Memory);
            }
        }
    }
    None
}

/// Runs one task to its end: it makes the task's local steps as they become possible, and passes the gate before each.
///
/// The task finds in the input what it is to read, and there is one ring end for each of its inputs and outputs, in
/// their order. A source that may be asked to stop does so once the word `asked` is set, as soon as it is open and has
/// nothing pending, in place of its next read. A worker that finds no memory sets the failure word `failed`, and one
/// that sees it set ends early; either has the fault `Memory`.
pub fn worker<R: Wait + Clock, G: Gate>(
    rt: &R,
    input: &Input,
    task: Task,
    inputs: Vec<Receiver>,
    outputs: Vec<Sender>,
    gate: &G,
    asked: Option<&AtomicBool>,
    failed: &AtomicBool,
) -> Done
    requires { Finds input.now task }
    ensures { HasWorked input.now task inputs.items outputs.items result }
{
    let never = AtomicBool::new(false);
    let mut task = task;
    let mut inputs = inputs;
    let mut outputs = outputs;
    let fault = work(
        rt,
        input,
        &mut task,
        inputs.as_mut_slice(),
        outputs.as_mut_slice(),
        gate,
        asked.unwrap_or(&never),
        failed,
    );
    Done {
        task,
        inputs,
        outputs,
        fault,
    }
}
