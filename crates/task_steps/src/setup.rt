//! What a task is told when it is made.

use dataflow_model::{Ending, Role};
use key_groups::{MaxParallelism, Parallelism};
use plain_data::Items;
use plan_model::{FilterSpec, Having};

/// By how many key groups and subtasks records are dealt out.
#[derive(Clone, Copy, Debug, PartialEq, Eq)]
pub struct Split {
    pub max: MaxParallelism,
    pub par: Parallelism,
}

/// What a task was told when it was made: its place in the layout, and the leg.
#[derive(Debug, Drop)]
pub struct Setup {
    /// The task's number in the layout.
    pub number: u32,
    pub role: Role,
    pub inputs: u32,
    pub outputs: u32,
    /// Where records go by their key; else whole batches go in turn.
    pub split: Option<Split>,
    pub filters: Items<FilterSpec>,
    pub having: Items<Having>,
    /// How many columns records have, and those of their time and key.
    pub columns: u32,
    pub time: u32,
    pub key: u32,
    /// Of a source: its place in the plan, and the partitions that the task reads.
    pub source: u32,
    pub partitions: Items<u32>,
    /// Of a source: how far each partition is read until savepoint m of the leg is taken, and in the end.
    pub limits: Items<Items<u64>>,
    pub ends: Items<u64>,
    /// The number of the leg's first barrier, and how many savepoints are taken while the leg goes on.
    pub first: u64,
    pub saves: u64,
    pub ending: Ending,
}

impl Setup {
    ghost use Rattle.std.specs.Prelude.{◌≡◌, slice_index};
    ghost use Rattle.task_steps.specs.Limits.{limit_in};

    /// The number of the partition at place `q`.
    pub fn partition(&self, q: u32) -> u32
        ensures { result ≡ slice_index self.now.partitions q }
    {
        self.partitions
            .as_slice()
            .get(q as usize)
            .copied()
            .unwrap_or(0)
    }

    /// How far the partition at place `q` is read until savepoint `n` of the leg is taken.
    pub fn limit(&self, n: u64, q: u32) -> u64
        ensures { result ≡ limit_in self.now.limits self.now.ends n q }
    {
        let limits = match self.limits.as_slice().get(n as usize) {
            Some(limits) => limits,
            None => &self.ends,
        };
        limits.as_slice().get(q as usize).copied().unwrap_or(0)
    }
}
