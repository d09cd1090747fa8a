//! What a task leaves of itself for a savepoint: as it stands now, or as it has kept itself at a barrier.

ghost use Rattle.std.specs.Prelude.{◌≡◌, length, take, Some, IfOk, MatchOption};
ghost use Rattle.std.specs.FinMap.{entries};
ghost use Rattle.plan_model.specs.declared.spec.WindowSpec.{WindowSpec};
ghost use Rattle.window_state.specs.Parts.{entries_of};
ghost use Rattle.dataflow_model.specs.State.{kept_of};
ghost use Rattle.dataflow_model.specs.declared.role.Role.TheVariants as role;
ghost use Rattle.task_steps.specs.Keeping.{ArePartsOf};
ghost use Rattle.task_steps.specs.Seen.{seen_at, IsSeen};

use crate::collecting::first_rows;
use crate::kept::{Kept, parts_of};
use crate::task::Task;
use packed_parts::PackedParts;
use plan_model::Row;
use std::alloc::{AllocError, Global};

/// When a task is looked at.
#[derive(Clone, Copy, Debug, PartialEq, Eq)]
pub enum Moment {
    /// As it stands now.
    Now,
    /// As it kept itself when it passed this barrier of the leg, counted from 0, and went on. Where it has kept nothing
    /// there, as by the barrier of a stop, as it stands now.
    Barrier(u64),
}

impl Task {
    /// What the task kept then, if it did.
    fn kept(&self, at: Moment) -> Option<&Kept>
        ensures { MatchOption result (seen_at at self.now.state ≡ kept_of self.now.state) (λ kept. IsSeen self.now at kept.now) }
    {
        match at {
            Moment::Now => None,
            Moment::Barrier(barrier) => self.kept.get(barrier as usize),
        }
    }

    /// How many entries of each of its partitions a source has read, or had read then.
    pub fn offsets(&self, at: Moment) -> &[u64]
        ensures says { result.now ≡ (seen_at at self.now.state).offsets }
        ensures each { self.now.setup.role ≡ role.Source → length (seen_at at self.now.state).offsets ≡ self.now.setup.inputs }
    {
        match self.kept(at) {
            Some(kept) => kept.offsets.as_slice(),
            None => self.offsets.as_slice(),
        }
    }

    /// The watermark of each input, or of each of a source's partitions, as it is or was then.
    pub fn marks(&self, at: Moment) -> &[i64]
        ensures says { result.now ≡ (seen_at at self.now.state).marks }
        ensures each { length (seen_at at self.now.state).marks ≡ self.now.setup.inputs }
    {
        match self.kept(at) {
            Some(kept) => kept.marks.as_slice(),
            None => self.inputs.marks(),
        }
    }

    /// What stands in the task's windows, or stood there then, in the order of start and key: nothing, but in a
    /// window's task.
    ///
    /// # Errors
    ///
    /// Where memory runs out, and of now in a task that has failed for want of it.
    pub fn parts(&self, alloc: Global, at: Moment) -> Result<PackedParts, AllocError>
        ensures says { IfOk result (λ parts. entries_of parts ≡ entries (seen_at at self.now.state).windows) }
        ensures sound { IfOk result (λ parts. ArePartsOf self.now.window parts) }
        ensures operator { self.now.setup.role ≡ role.Window → (w : WindowSpec) × (self.now.window ≡ Some w) }
    {
        match self.kept(at) {
            Some(kept) => kept.parts.copy(alloc),
            None => parts_of(alloc, &self.window),
        }
    }

    /// How many rows the task has collected, or had then.
    fn row_count(&self, at: Moment) -> u64
        ensures { result ≡ (seen_at at self.now.state).rows }
    {
        match self.kept(at) {
            Some(kept) => kept.rows,
            None => self.rows.len() as u64,
        }
    }

    /// The fired rows that the task has collected, or had then, in the order in which they came.
    ///
    /// # Errors
    ///
    /// Only where memory runs out.
    pub fn rows(&self, alloc: Global, at: Moment) -> Result<Vec<Row>, AllocError>
        ensures { IfOk result (λ rows. rows.items ≡ take (seen_at at self.now.state).rows self.now.state.rows) }
    {
        let count = self.row_count(at);
        first_rows(alloc, self.rows.as_slice(), count)
    }
}
