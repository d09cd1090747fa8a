//! The parts of a plan, a pane, and a row of the answer.

use crate::numbers::Numbers;
use crate::uid::Uid;
use lane_kernels::Cmp;
use plain_data::Items;
use std::alloc::{AllocError, Global};

/// A source of the plan, with so many partitions. With a `bound` it makes its own watermarks, as Flink's bounded
/// out-of-orderness does: behind the greatest time so far by the bound and 1. With none they stand in its partitions.
#[derive(Debug, Drop)]
pub struct SourceSpec {
    pub uid: Uid,
    pub partitions: u32,
    pub bound: Option<i64>,
}

/// A filter: the records that pass are those whose number in `column` compares so with `value`.
#[derive(Debug, Drop)]
pub struct FilterSpec {
    pub uid: Uid,
    pub column: u32,
    pub cmp: Cmp,
    pub value: i64,
}

/// A number made of the records of a window and a key. The parameter is a column.
#[derive(Clone, Copy, Debug, PartialEq, Eq)]
pub enum Aggregate {
    Count,
    Sum(u32),
    Least(u32),
    Greatest(u32),
}

/// A condition on the rows that are kept: the number of `aggregate`, by its place from 0, compares so
/// with `value`.
#[derive(Clone, Copy, Debug, PartialEq, Eq)]
pub struct Having {
    pub aggregate: u32,
    pub cmp: Cmp,
    pub value: i64,
}

/// The window operator. `time` and `key` are columns; `size`, `slide` and `offset` are in the unit of
/// the times.
#[derive(Debug)]
pub struct WindowSpec {
    pub uid: Uid,
    pub time: u32,
    pub key: u32,
    pub size: i64,
    pub slide: i64,
    pub offset: i64,
    pub aggregates: Items<Aggregate>,
    pub having: Items<Having>,
}

// By hand, since a proof goes over a derived drop field by field.
impl Drop for WindowSpec {
    fn drop(self) {
        let WindowSpec {
            uid: _,
            time: _,
            key: _,
            size: _,
            slide: _,
            offset: _,
            aggregates: _,
            having: _,
        } = self;
    }
}

impl WindowSpec {
    ghost use Rattle.std.specs.Prelude.{◌≡◌, IfOk};

    /// The same window again.
    ///
    /// # Errors
    ///
    /// Only where memory runs out.
    pub fn copy(&self, alloc: Global) -> Result<WindowSpec, AllocError>
        ensures { IfOk result (λ window. window ≡ self.now) }
    {
        Ok(WindowSpec {
            uid: self.uid.copy(alloc)?,
            aggregates: self.aggregates.copy(alloc)?,
            having: self.having.copy(alloc)?,
            time: self.time,
            key: self.key,
            size: self.size,
            slide: self.slide,
            offset: self.offset,
        })
    }
}

/// Where a row stands: the start of its window, and its key. Panes are ordered by start, then by key.
#[derive(Clone, Copy, Debug, PartialEq, Eq, PartialOrd, Ord, Hash)]
pub struct Pane {
    pub start: i64,
    pub key: i64,
}

/// A row of the answer: the window from `start` up to `end`, the key, and a number for each aggregate.
#[derive(Debug, Drop)]
pub struct Row {
    pub start: i64,
    pub end: i64,
    pub key: i64,
    pub values: Numbers,
}
