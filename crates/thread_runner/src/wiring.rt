//! A ring for each edge of a layout.

ghost use Rattle.std.specs.Prelude.{◌≡◌, ◌<◌, ◌+◌, List, length, map, OnOk, IfOk, All};
ghost use Rattle.layout_rules.specs.Stages.{task_count};
ghost use Rattle.thread_runner.specs.declared.jobs.Job.{Job};
ghost use Rattle.thread_runner.specs.Rings.{ring_of, ring_at, put_of, taken_of};
ghost use Rattle.thread_runner.specs.Edges.{HasEdges, HasRings, job_task};
ghost use Rattle.thread_runner.specs.Legs.{IsBare, Wired, GivesSender, GivesReceiver, Wiring};

use crate::jobs::Job;
use crate::rings::{Receiver, Sender, ring};
use plan_compiler::Layout;
use std::alloc::{AllocError, Global};
use task_steps::Task;

fn give_sender(jobs: &mut [Job], task: u32, sender: Sender) -> Result<(), AllocError>
    requires { task < length jobs.old }
    ensures { OnOk result (GivesSender jobs.old jobs.new task (ring_of sender) (put_of sender)) }
{
    let job = &mut jobs[task as usize];
    job.outputs.push(sender)?;
    Ok(())
}

fn give_receiver(jobs: &mut [Job], task: u32, receiver: Receiver) -> Result<(), AllocError>
    requires { task < length jobs.old }
    ensures { OnOk result (GivesReceiver jobs.old jobs.new task (ring_at receiver) (taken_of receiver)) }
{
    let job = &mut jobs[task as usize];
    job.inputs.push(receiver)?;
    Ok(())
}

/// Makes the rings that lead out of a task.
fn wire_task(alloc: Global, layout: &Layout, jobs: &mut [Job], task: u32) -> Result<(), AllocError>
    requires task { task < task_count layout.now.stages }
    requires edges { HasEdges layout.now.stages }
    requires rings { HasRings layout.now.stages }
    requires count { length jobs.old ≡ task_count layout.now.stages }
    ensures { OnOk result ((first : List Job) → Wiring layout.now.stages first jobs.old task 0 → Wiring layout.now.stages first jobs.new (task + 1) 0) }
{
    let capacity = layout.ring() as usize;
    for to in layout.outputs_of(task) {
        let (sender, receiver) = ring(alloc, capacity)?;
        give_sender(jobs, task, sender)?;
        give_receiver(jobs, *to, receiver)?;
    }
    Ok(())
}

/// Makes a ring for each edge of a layout, and gives its ends to the jobs of the two tasks, which have none yet. The
/// jobs are those of the layout's tasks, in their order.
///
/// # Errors
///
/// Only where memory runs out.
pub fn wire(alloc: Global, layout: &Layout, jobs: &mut [Job]) -> Result<(), AllocError>
    requires edges { HasEdges layout.now.stages }
    requires rings { HasRings layout.now.stages }
    requires count { length jobs.old ≡ task_count layout.now.stages }
    requires bare { All IsBare jobs.old }
    ensures { OnOk result (Wired layout.now.stages jobs.old jobs.new) }
{
    for task in 0..layout.task_count() {
        wire_task(alloc, layout, jobs, task)?;
    }
    Ok(())
}

/// A job for each task, in their order, with no ends yet.
///
/// # Errors
///
/// Only where memory runs out.
pub fn jobs_of(alloc: Global, tasks: Vec<Task>) -> Result<Vec<Job>, AllocError>
    ensures { IfOk result (λ jobs. (map job_task jobs.items ≡ tasks.items) × All IsBare jobs.items) }
{
    let mut jobs = Vec::new(alloc);
    for task in tasks {
        jobs.push(Job {
            task,
            inputs: Vec::new(alloc),
            outputs: Vec::new(alloc),
        })?;
    }
    Ok(jobs)
}
