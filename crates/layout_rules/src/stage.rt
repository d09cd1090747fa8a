//! What layouts are made of.

use dataflow_model::Role;
use plain_data::Items;

/// An operator of a plan. A parameter is the place among the plan's sources or filters, from 0.
#[derive(Clone, Copy, Debug, PartialEq, Eq)]
pub enum Operator {
    Source(u32),
    Filter(u32),
    Window,
    Sink,
}

/// How the tasks of a stage are joined to those of the stage that it leads to.
#[derive(Clone, Copy, Debug, PartialEq, Eq)]
pub enum Edge {
    /// Subtask i to subtask i.
    Forward,
    /// Each record to the owner of its key's group.
    ByGroup,
    /// Whole batches in turn to every subtask.
    Rebalance,
}

/// Operators that run chained in the same tasks, and how many such tasks there are. `edge` leads out; the
/// sink has none.
#[derive(Debug, Drop)]
pub struct Stage {
    pub parallelism: u32,
    pub operators: Items<Operator>,
    pub edge: Option<Edge>,
}

impl Stage {
    ghost use Rattle.std.specs.Prelude.{◌≡◌, if◌then◌else◌};
    ghost use Rattle.dataflow_model.specs.Role.{is_source};
    ghost use Rattle.layout_rules.specs.Stages as rule;

    /// What its tasks do: what its first operator says.
    pub fn role(&self) -> Role
        ensures { result ≡ rule.role_of self.now.operators }
    {
        match self.operators.as_slice().first() {
            Some(Operator::Source(_)) => Role::Source,
            Some(Operator::Window) => Role::Window,
            Some(Operator::Sink) => Role::Sink,
            Some(Operator::Filter(_)) | None => Role::Chain,
        }
    }

    /// The source that its tasks read, by its place among the plan's; `None` where they read none.
    pub fn source(&self) -> Option<u32>
        ensures { result ≡ (if is_source (rule.role_of self.now.operators) then Some (rule.source_of self.now.operators) else None) }
    {
        match self.operators.as_slice().first() {
            Some(Operator::Source(source)) => Some(*source),
            _ => None,
        }
    }

    /// The edge from this stage into another: by group into the window's, else forward where both have the same
    /// parallelism.
    pub fn edge_into(&self, into: &Stage) -> Edge
        ensures { result ≡ rule.edge_into self.now into.now }
    {
        if matches!(into.role(), Role::Window) {
            Edge::ByGroup
        } else if self.parallelism == into.parallelism {
            Edge::Forward
        } else {
            Edge::Rebalance
        }
    }
}

/// Where a task stands: its stage, and its number in the stage, from 0.
#[derive(Clone, Copy, Debug, PartialEq, Eq)]
pub struct TaskPlace {
    pub stage: u32,
    pub subtask: u32,
}

/// What a scale says of a filter: its parallelism, and whether it may chain to the operator before it.
#[derive(Clone, Copy, Debug, PartialEq, Eq)]
pub struct FilterScale {
    pub parallelism: u32,
    pub chain: bool,
}
