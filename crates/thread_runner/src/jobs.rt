//! What a worker is handed, and what it hands back.

use crate::rings::{Receiver, Sender};
use legs::LegFault;
use task_steps::Task;

/// What a worker is handed: a task, and one ring end for each of its inputs and outputs, in their order.
#[derive(Drop)]
pub struct Job {
    /// The task.
    pub task: Task,
    /// The ends that it takes from.
    pub inputs: Vec<Receiver>,
    /// The ends that it puts on.
    pub outputs: Vec<Sender>,
}

/// What a worker hands back.
#[derive(Drop)]
pub struct Done {
    /// The task.
    pub task: Task,
    /// The ends that it took from, in the order in which they were handed in.
    pub inputs: Vec<Receiver>,
    /// The ends that it put on, in the order in which they were handed in.
    pub outputs: Vec<Sender>,
    /// `Memory`, if the worker ended early: a step of its own found none, or it saw that another worker had failed.
    pub fault: Option<LegFault>,
}
