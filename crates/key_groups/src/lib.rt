//! Key groups: the unit in which keyed state is dealt to subtasks, as in Apache Flink.
//!
//! A key's group depends on the key and on the number of key groups alone, so a savepoint stays good at
//! another parallelism. Each subtask owns a range of groups. The rules are those of Java's
//! `Long.hashCode`, of Flink's `MathUtils.murmurHash` and of its `KeyGroupRangeAssignment`.
#![tactic(auto)]

mod group;
mod limits;
mod ranges;

/// Laws of the definitions that the contracts cite.
pub mod laws;

pub use group::{group_of, groups_into};
pub use limits::{MOST_GROUPS, MOST_SUBTASKS, MaxParallelism, Parallelism};
pub use ranges::{GroupRange, owner_of, owners_into, range_of};
