//! `Scale`, and the rules that say which layout a plan has at a scale, and the laws that each such layout has.
//!
//! A layout is a list of stages, as in [Flink's operator
//! chains](https://nightlies.apache.org/flink/flink-docs-stable/docs/concepts/flink-architecture/#tasks-and-operator-chains);
//! its tasks, the rings between them and the partitions of its sources are computed from them (`specs/Stages`). Which
//! stages a plan has at a scale is in `specs/Rules`.
#![tactic(auto)]

mod fault;
pub mod laws;
mod limits;
mod scale;
mod stage;

pub use dataflow_model::Role;
pub use fault::ScaleFault;
pub use limits::{MOST_CAPACITY, MOST_TASKS};
pub use scale::{DEFAULT_CAPACITY, Scale};
pub use stage::{Edge, FilterScale, Operator, Stage, TaskPlace};
