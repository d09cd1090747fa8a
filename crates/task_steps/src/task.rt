//! One task of a leg, and its steps.

use crate::admitting::are_times;
use crate::collecting::collect;
use crate::fault::StepFault;
use crate::firing::fire_at;
use crate::kept::Kept;
use crate::pending::{Notice, to_all};
use crate::reading::{announce, send_entry};
use crate::sending::records_through;
use crate::setup::Setup;
use columns::Batch;
use dataflow_model::{Ending, Message, Role};
use input_flow::brought;
use input_state::{Aligned, Inputs};
use plain_data::Items;
use plan_model::{MOST_RECORDS, Row};
use std::alloc::{AllocError, Global};
use std::collections::VecDeque;
use std::marker::Model;
use stream_model::Input;
use window_state::WindowState;

/// One task of a leg: a source, a chain of filters, a window or the sink. It borrows nothing.
#[derive(Drop)]
pub struct Task {
    alloc: Global,
    setup: Setup,
    pending: VecDeque<(u32, Message)>,
    opened: bool,
    over: bool,
    pub(crate) offsets: Vec<u64>,
    /// Of a source: the place of the partition that it read last.
    reads: u32,
    pub(crate) inputs: Inputs,
    cursor: u32,
    taken: u64,
    pub(crate) window: Option<WindowState>,
    pub(crate) rows: Vec<Row>,
    next: u64,
    pub(crate) kept: Vec<Kept>,
    has_failed: bool,
}

impl Model for Task {
    ghost use Rattle.std.specs.Prelude.{◌≡◌};
    ghost use Rattle.task_steps.specs.TaskData.{TaskData, task_view, IsTask};

    ghost Value = { TaskData };

    ghost use Rattle.std.specs.Coded.{codes};
    ghost use Rattle.window_state.specs.Codes.{windows_code};

    ghost coded = { Prim.hlevel (codes, windows_code) };

    ghost view = { task_view };

    ghost invariant = { IsTask };
}

impl Task {
    ghost use Rattle.std.specs.Prelude.{◌≡◌, ◌↔◌, ◌+◌, ◌++◌, ◌∷◌, ◌<◌, [], suc, true, false, length, Some, ℕ, IsTrue, IfOk, IfErr, OnOk, OnErr, MatchOption, MatchResult};
    ghost use Rattle.plan_model.specs.PlanData.{PlanData};
    ghost use Rattle.dataflow_model.specs.AbstractTask.{AbstractTask};
    ghost use Rattle.dataflow_model.specs.Role.{is_source};
    ghost use Rattle.dataflow_model.specs.declared.message.Message.TheVariants.{Rows, Fired, Watermark, Barrier, End};
    ghost use Rattle.dataflow_model.specs.Steps.{Open, Read, Save, Stop, Close, Take, IsDone, LocalStep};
    ghost use Rattle.task_steps.specs.Answers.{StepsOrRefuses, ReadsOrRefuses, GoesOn};
    ghost use Rattle.task_steps.specs.Beginning.{CanBegin, begun};
    ghost use Rattle.dataflow_model.specs.State.{kept_of};
    ghost use Rattle.dataflow_model.specs.Routes.{to_all as each_output};
    ghost use Rattle.input_state.specs.Inputs.{all_shut, any_held};
    ghost use Rattle.task_steps.specs.Limits.{barriers_in};
    ghost use Rattle.task_steps.specs.Passing.{Passes, refused_at};
    ghost use Rattle.task_steps.specs.Puts.{IsFirst, Puts};
    ghost use Rattle.task_steps.specs.Reading.{HasPartitions, IsReadable, IsMine, HasMine};
    ghost use Rattle.task_steps.specs.Running.{IsOpenable, IsRunning, HasCome, IsSavable, IsStoppable, IsClosable};
    ghost use Rattle.task_steps.specs.Taking.{IsReady, AreAdmitted};
    ghost use Rattle.task_steps.specs.TaskData.{Stands, is_last_in};

    /// A task that has done nothing: of a source with the offsets and watermarks of its partitions, of others with
    /// the least watermark of each input, and of the window's with what stands in its windows.
    ///
    /// # Errors
    ///
    /// Only where memory runs out.
    pub fn new(
        alloc: Global,
        setup: Setup,
        offsets: Vec<u64>,
        marks: &[i64],
        window: Option<WindowState>,
    ) -> Result<Task, AllocError>
        requires { CanBegin setup offsets.items marks.now window }
        ensures { IfOk result (λ task. task ≡ begun setup offsets.items marks.now window) }
    {
        let room = 2 * setup.outputs as usize + 1;
        let pending = VecDeque::with_capacity(alloc, room)?;
        let inputs = Inputs::at(alloc, marks)?;
        Ok(Task {
            alloc,
            setup,
            pending,
            opened: false,
            over: false,
            offsets,
            reads: 0,
            inputs,
            cursor: 0,
            taken: 0,
            window,
            rows: Vec::new(alloc),
            next: 0,
            kept: Vec::new(alloc),
            has_failed: false,
        })
    }

    /// The task's number in the layout.
    pub fn number(&self) -> u32
        ensures { result ≡ self.now.setup.number }
    {
        self.setup.number
    }

    /// The output of the first pending message.
    pub fn pending(&self) -> Option<u32>
        ensures { MatchOption result (self.now.state.pending ≡ []) (λ j. IsFirst j self.now.state.pending) }
    {
        match self.pending.front() {
            Some(p) => Some(p.0),
            None => None,
        }
    }

    /// Takes out the first pending message, with its output.
    pub fn pop_pending(&mut self) -> Option<(u32, Message)>
        ensures { MatchOption result ((self.old.state.pending ≡ []) × (self.new ≡ self.old)) (λ m. Puts m.0 m.1 self.old self.new) }
    {
        self.pending.pop_front()
    }

    /// The fired rows that the task has collected, in the order in which they came.
    pub fn into_rows(self) -> Vec<Row>
        ensures { result.items ≡ self.state.rows }
    {
        self.rows
    }

    /// How many of the leg's barriers the task has passed.
    pub fn barriers_passed(&self) -> u64
        ensures { result ≡ self.now.state.next }
    {
        let Task { next, .. } = self;
        *next
    }

    /// Whether the task is over and nothing is pending.
    pub fn is_done(&self) -> bool
        ensures { IsTrue result ↔ IsDone self.now.state }
    {
        self.over && self.pending.is_empty()
    }

    /// Whether the task could take a message of an input.
    pub fn can_take(&self, i: u32) -> bool
        ensures { IsTrue result ↔ IsReady self.now i }
    {
        match self.setup.role {
            Role::Source => false,
            Role::Chain | Role::Window | Role::Sink => {
                self.pending.is_empty() && i < self.setup.inputs && self.inputs.is_free(i as usize)
            }
        }
    }

    fn admits_rows(&self, batch: &Batch) -> bool
        ensures { IsTrue result ↔ AreAdmitted self.now batch.now }
    {
        match self.setup.role {
            Role::Source | Role::Sink => false,
            Role::Chain | Role::Window => {
                batch.width() == self.setup.columns as usize
                    && self.taken + batch.len() as u64 <= MOST_RECORDS
                    && are_times(batch, self.setup.time)
            }
        }
    }

    /// Takes a message from an input. Records are moved, not copied.
    ///
    /// # Errors
    ///
    /// `NotEnabled` where the task has no such step now, and nothing has changed. `Memory` where memory runs
    /// out: the task is as it was, but for its windows where it took records. `Failed` after that.
    pub fn take(&mut self, i: u32, message: Message) -> Result<(), StepFault>
        ensures { StepsOrRefuses (Take i message) self.old self.new result }
    {
        if self.has_failed {
            return Err(StepFault::Failed);
        }
        if !self.can_take(i) {
            return Err(StepFault::NotEnabled);
        }
        match message {
            Message::Rows(batch) => self.take_rows(i, batch),
            Message::Fired(rows) => self.take_fired(i, rows),
            Message::Watermark(t) => self.take_mark(i, t),
            Message::Barrier(n) => self.take_barrier(i, n),
            Message::End => self.take_end(i),
        }
    }

    /// Takes records from an input.
    fn take_rows(&mut self, i: u32, batch: Batch) -> Result<(), StepFault>
        requires going { self.old.has_failed ≡ false }
        requires ready { IsReady self.old i }
        ensures { StepsOrRefuses (Take i (Rows batch)) self.old self.new result }
    {
        if !self.admits_rows(&batch) {
            return Err(StepFault::NotEnabled);
        }
        match self.setup.role {
            Role::Chain => self.chain_rows(i, batch),
            Role::Window => self.window_rows(i, batch),
            Role::Source | Role::Sink => Err(StepFault::NotEnabled),
        }
    }

    fn window_rows(&mut self, i: u32, batch: Batch) -> Result<(), StepFault>
        requires going { self.old.has_failed ≡ false }
        requires window { self.old.setup.role ≡ Role.Window }
        requires ready { IsReady self.old i }
        requires admitted { AreAdmitted self.old batch }
        ensures { StepsOrRefuses (Take i (Rows batch)) self.old self.new result }
    {
        let count = batch.len() as u64;
        let Some(window) = &mut self.window else {
            return Err(StepFault::NotEnabled);
        };
        match window.add(&batch) {
            Ok(()) => {
                self.taken += count;
                Ok(())
            }
            Err(_) => {
                self.has_failed = true;
                Err(StepFault::Memory)
            }
        }
    }

    /// Takes a watermark at a window.
    fn window_mark(&mut self, i: u32, t: i64) -> Result<(), StepFault>
        requires going { self.old.has_failed ≡ false }
        requires window { self.old.setup.role ≡ Role.Window }
        requires ready { IsReady self.old i }
        ensures { StepsOrRefuses (Take i (Watermark t)) self.old self.new result }
    {
        let low = self.inputs.rise(i as usize, t);
        let having = self.setup.having.as_slice();
        let Some(window) = &mut self.window else {
            return Err(StepFault::NotEnabled);
        };
        match fire_at(window, having, &mut self.pending, self.setup.outputs, low) {
            Ok(()) => {
                self.inputs.watermark(i as usize, t);
                Ok(())
            }
            Err(_) => {
                self.has_failed = true;
                Err(StepFault::Memory)
            }
        }
    }

    /// Takes a watermark at a chain.
    fn chain_mark(&mut self, i: u32, t: i64)
        requires chain { self.old.setup.role ≡ Role.Chain }
        requires ready { IsReady self.old i }
        ensures on { GoesOn self.old self.new }
        ensures step { (p : PlanData) (k : AbstractTask) → Stands p k self.old → LocalStep p k self.old.state (Take i (Watermark t)) self.new.state }
    {
        let low = self.inputs.watermark(i as usize, t);
        announce(&mut self.pending, self.setup.outputs, low);
    }

    /// Takes a watermark at the sink.
    fn sink_mark(&mut self, i: u32, t: i64)
        requires sink { self.old.setup.role ≡ Role.Sink }
        requires ready { IsReady self.old i }
        ensures on { GoesOn self.old self.new }
        ensures step { (p : PlanData) (k : AbstractTask) → Stands p k self.old → LocalStep p k self.old.state (Take i (Watermark t)) self.new.state }
    {
        self.inputs.watermark(i as usize, t);
    }

    /// Takes a watermark from an input.
    fn take_mark(&mut self, i: u32, t: i64) -> Result<(), StepFault>
        requires going { self.old.has_failed ≡ false }
        requires ready { IsReady self.old i }
        ensures { StepsOrRefuses (Take i (Watermark t)) self.old self.new result }
    {
        match self.setup.role {
            Role::Source => return Err(StepFault::NotEnabled),
            Role::Chain => self.chain_mark(i, t),
            Role::Window => return self.window_mark(i, t),
            Role::Sink => self.sink_mark(i, t),
        }
        Ok(())
    }

    /// Takes fired rows from an input.
    fn take_fired(&mut self, i: u32, rows: Items<Row>) -> Result<(), StepFault>
        requires going { self.old.has_failed ≡ false }
        requires ready { IsReady self.old i }
        ensures { StepsOrRefuses (Take i (Fired rows)) self.old self.new result }
    {
        match self.setup.role {
            Role::Sink => self.sink_rows(i, rows),
            Role::Source | Role::Chain | Role::Window => Err(StepFault::NotEnabled),
        }
    }

    /// Collects fired rows at the sink.
    fn sink_rows(&mut self, i: u32, rows: Items<Row>) -> Result<(), StepFault>
        requires going { self.old.has_failed ≡ false }
        requires sink { self.old.setup.role ≡ Role.Sink }
        requires ready { IsReady self.old i }
        ensures { StepsOrRefuses (Take i (Fired rows)) self.old self.new result }
    {
        match collect(&mut self.rows, rows) {
            Ok(()) => Ok(()),
            Err(_) => {
                self.has_failed = true;
                Err(StepFault::Memory)
            }
        }
    }

    /// Whether a source could open.
    pub fn can_open(&self) -> bool
        ensures { IsTrue result ↔ IsOpenable self.now }
    {
        matches!(self.setup.role, Role::Source) && self.pending.is_empty() && !self.opened
    }

    /// Opens a source: what its partitions' watermarks come to at the start is made pending.
    ///
    /// # Errors
    ///
    /// `NotEnabled` of a task that cannot open, `Failed` after a step that found no memory.
    pub fn open(&mut self) -> Result<(), StepFault>
        ensures steps { StepsOrRefuses Open self.old self.new result }
        ensures no_memory { IfErr result (λ fault. fault ≡ StepFault.Memory → ⊥) }
    {
        if self.has_failed {
            return Err(StepFault::Failed);
        }
        if !self.can_open() {
            return Err(StepFault::NotEnabled);
        }
        self.opened = true;
        let low = self.inputs.least_known();
        announce(&mut self.pending, self.setup.outputs, low);
        Ok(())
    }

    /// Whether a source is open, not over, and has nothing pending.
    fn is_running(&self) -> bool
        ensures { IsTrue result ↔ IsRunning self.now }
    {
        matches!(self.setup.role, Role::Source)
            && self.pending.is_empty()
            && self.opened
            && !self.over
    }

    /// Whether every partition of a source is read up to its limit.
    fn is_at_limit(&self) -> bool
        requires { IsRunning self.now }
        ensures { IsTrue result ↔ HasCome self.now }
    {
        for q in 0..self.setup.inputs {
            if self.offsets[q as usize] != self.setup.limit(self.next, q) {
                return false;
            }
        }
        true
    }

    /// Whether a source has come to where the leg's next savepoint is taken on the way.
    pub fn can_save(&self) -> bool
        ensures { IsTrue result ↔ IsSavable self.now }
    {
        self.is_running() && self.next < self.setup.saves && self.is_at_limit()
    }

    /// Keeps what a source has for a savepoint on the way: the savepoint's barrier is made pending for every output,
    /// and the source goes on.
    ///
    /// # Errors
    ///
    /// `NotEnabled` of a task that is not at a savepoint's cut, and nothing has changed. `Memory` where memory runs
    /// out: the task is as it was. `Failed` after that.
    pub fn save(&mut self) -> Result<(), StepFault>
        ensures { StepsOrRefuses Save self.old self.new result }
    {
        if self.has_failed {
            return Err(StepFault::Failed);
        }
        if !self.can_save() {
            return Err(StepFault::NotEnabled);
        }
        match self.keep() {
            Ok(()) => {
                self.send_barrier();
                Ok(())
            }
            Err(_) => {
                self.has_failed = true;
                Err(StepFault::Memory)
            }
        }
    }

    /// Whether a source could stop with a barrier.
    pub fn can_stop(&self) -> bool
        ensures { IsTrue result ↔ IsStoppable self.now }
    {
        self.is_running()
            && self.next == self.setup.saves
            && match self.setup.ending {
                Ending::AtEnd => false,
                Ending::AtCut => self.is_at_limit(),
                Ending::Asked => true,
            }
    }

    /// Stops a source: the leg's last barrier is made pending for every output, and the task is over.
    ///
    /// # Errors
    ///
    /// `NotEnabled` of a task that cannot stop, `Failed` after a step that found no memory.
    pub fn stop(&mut self) -> Result<(), StepFault>
        ensures steps { StepsOrRefuses Stop self.old self.new result }
        ensures no_memory { IfErr result (λ fault. fault ≡ StepFault.Memory → ⊥) }
    {
        if self.has_failed {
            return Err(StepFault::Failed);
        }
        if !self.can_stop() {
            return Err(StepFault::NotEnabled);
        }
        self.over = true;
        self.send_barrier();
        Ok(())
    }

    /// Whether a source could close.
    pub fn can_close(&self) -> bool
        ensures { IsTrue result ↔ IsClosable self.now }
    {
        self.is_running()
            && self.next == self.setup.saves
            && match self.setup.ending {
                Ending::AtEnd | Ending::Asked => self.is_at_limit(),
                Ending::AtCut => false,
            }
    }

    /// Closes a source that has read all of its partitions: the end is made pending for every output, and the
    /// task is over.
    ///
    /// # Errors
    ///
    /// `NotEnabled` of a task that cannot close, `Failed` after a step that found no memory.
    pub fn close(&mut self) -> Result<(), StepFault>
        ensures steps { StepsOrRefuses Close self.old self.new result }
        ensures no_memory { IfErr result (λ fault. fault ≡ StepFault.Memory → ⊥) }
    {
        if self.has_failed {
            return Err(StepFault::Failed);
        }
        if !self.can_close() {
            return Err(StepFault::NotEnabled);
        }
        to_all(&mut self.pending, self.setup.outputs, Notice::End);
        self.over = true;
        Ok(())
    }

    /// Whether a source could read partition `number`.
    pub fn can_read(&self, number: u32) -> bool
        ensures { IsTrue result ↔ HasMine self.now number }
    {
        self.place(number).is_some()
    }

    /// The place of partition `number`, if it can be read.
    fn place(&self, number: u32) -> Option<u32>
        ensures { MatchOption result (HasMine self.now number → ⊥) (λ q. IsMine self.now number q) }
    {
        let next = self.reads.saturating_add(1);
        if self.is_mine(number, next) {
            return Some(next);
        }
        if self.is_mine(number, self.reads) {
            return Some(self.reads);
        }
        let inputs = self.setup.inputs;
        for q in 0..inputs {
            if self.is_mine(number, q) {
                return Some(q);
            }
        }
        None
    }

    /// The number of a partition that a source could read: of those that are not at their limit, the next one after the
    /// one that it read last, in turn.
    pub fn next_partition(&self) -> Option<u32>
        ensures { MatchOption result ((q : ℕ) → IsReadable self.now q → ⊥) (λ n. HasMine self.now n) }
    {
        for q in self.reads.saturating_add(1)..self.setup.inputs {
            if self.is_readable(q) {
                return Some(self.setup.partition(q));
            }
        }
        for q in 0..self.setup.inputs {
            if self.is_readable(q) {
                return Some(self.setup.partition(q));
            }
        }
        None
    }

    fn is_mine(&self, number: u32, q: u32) -> bool
        ensures { IsTrue result ↔ IsMine self.now number q }
    {
        self.setup.partition(q) == number && self.is_readable(q)
    }

    fn is_readable(&self, q: u32) -> bool
        ensures { IsTrue result ↔ IsReadable self.now q }
    {
        self.is_running()
            && q < self.setup.inputs
            && self.offsets[q as usize] < self.setup.limit(self.next, q)
    }

    /// Reads the next entry of partition `number`.
    ///
    /// # Errors
    ///
    /// `NotEnabled` where the task cannot read that partition now, and nothing has changed. `Memory` where memory runs
    /// out: the task is as it was. `Failed` after that.
    pub fn read(&mut self, input: &Input, number: u32) -> Result<(), StepFault>
        requires columns { input.now.columns ≡ self.old.setup.columns }
        requires time { input.now.time ≡ self.old.setup.time }
        requires input { is_source self.old.setup.role ≡ true → HasPartitions self.old.setup input.now }
        ensures { ReadsOrRefuses number input.now self.old self.new result }
    {
        if self.has_failed {
            return Err(StepFault::Failed);
        }
        let Some(q) = self.place(number) else {
            return Err(StepFault::NotEnabled);
        };
        self.read_entry(input, number, q)
    }

    fn read_entry(&mut self, input: &Input, number: u32, q: u32) -> Result<(), StepFault>
        requires going { self.old.has_failed ≡ false }
        requires columns { input.now.columns ≡ self.old.setup.columns }
        requires time { input.now.time ≡ self.old.setup.time }
        requires input { HasPartitions self.old.setup input.now }
        requires mine { IsMine self.old number q }
        ensures { ReadsOrRefuses number input.now self.old self.new result }
    {
        let source = self.setup.source;
        let partition = self.setup.partitions.as_slice()[q as usize];
        let n = self.offsets[q as usize];
        let _sources = input.sources();
        let count = input.entries(source, partition);
        let last = n + 1 == count;
        let Some(marked) = input.entry(source, partition, n) else {
            return Err(StepFault::NotEnabled);
        };
        let t = brought(marked, last);
        match send_entry(
            self.alloc,
            &self.setup,
            &mut self.cursor,
            &mut self.pending,
            &marked.entry,
        ) {
            Ok(()) => {
                let low = self.inputs.watermark(q as usize, t);
                announce(&mut self.pending, self.setup.outputs, low);
                self.offsets[q as usize] = n + 1;
                self.reads = q;
                Ok(())
            }
            Err(_) => {
                self.has_failed = true;
                Err(StepFault::Memory)
            }
        }
    }

    /// Whether a barrier with this number is the leg's next.
    fn expects(&self, n: u64) -> bool
        ensures { IsTrue result ↔ (n ≡ self.now.setup.first + self.now.state.next) × (self.now.state.next < barriers_in self.now.setup) }
    {
        let more = if self.setup.ending.may_stop() {
            self.next <= self.setup.saves
        } else {
            self.next < self.setup.saves
        };
        more && n == self.setup.first + self.next
    }

    /// Whether the leg's next barrier is that of its stop.
    fn is_last(&self) -> bool
        ensures { result ≡ is_last_in self.now }
    {
        self.setup.ending.may_stop() && self.next == self.setup.saves
    }

    /// Keeps what there is for a savepoint. Where no memory is to be had, nothing has changed.
    fn keep(&mut self) -> Result<(), AllocError>
        ensures kept { OnOk result (self.new ≡ record self.old { state = record self.old.state { kept = self.old.state.kept ++ kept_of self.old.state ∷ [] } }) }
        ensures err { OnErr result (self.new ≡ self.old) }
    {
        let inputs = &self.inputs;
        let rows = self.rows.len();
        let kept = Kept::new(
            self.alloc,
            &self.offsets,
            inputs.marks(),
            &self.window,
            rows,
        )?;
        self.kept.push(kept)?;
        Ok(())
    }

    /// Takes a barrier from an input.
    fn take_barrier(&mut self, i: u32, n: u64) -> Result<(), StepFault>
        requires going { self.old.has_failed ≡ false }
        requires ready { IsReady self.old i }
        ensures { StepsOrRefuses (Take i (Barrier n)) self.old self.new result }
    {
        if !self.expects(n) {
            return Err(StepFault::NotEnabled);
        }
        match self.inputs.barrier(i as usize) {
            Aligned::Barrier => self.pass_barrier(i),
            Aligned::Waiting | Aligned::AllEnded => Ok(()),
        }
    }

    /// Takes the end of an input.
    fn take_end(&mut self, i: u32) -> Result<(), StepFault>
        requires going { self.old.has_failed ≡ false }
        requires ready { IsReady self.old i }
        ensures { StepsOrRefuses (Take i End) self.old self.new result }
    {
        match self.inputs.end(i as usize) {
            Aligned::Barrier => self.pass_barrier(i),
            Aligned::AllEnded => {
                to_all(&mut self.pending, self.setup.outputs, Notice::End);
                self.over = true;
                Ok(())
            }
            Aligned::Waiting => Ok(()),
        }
    }

    /// Passes the leg's next barrier, to which input i was the last to come: by that of the leg's stop the task is
    /// over, else it keeps itself and lets its inputs go. Where no memory is to be had for that, input i is free again.
    fn pass_barrier(&mut self, i: u32) -> Result<(), StepFault>
        requires going { (self.old.has_failed ≡ false) × (self.old.state.over ≡ false) }
        requires taker { is_source self.old.setup.role ≡ false }
        requires idle { self.old.state.pending ≡ [] }
        requires input { i < self.old.setup.inputs }
        requires more { self.old.state.next < barriers_in self.old.setup }
        requires all { all_shut self.old.state.inputs.shut ≡ true }
        ensures { MatchResult result (λ done. Passes self.old self.new) (λ fault. (fault ≡ StepFault.Memory) × (self.new ≡ refused_at i self.old)) }
    {
        if self.is_last() {
            self.over = true;
            self.send_barrier();
            return Ok(());
        }
        match self.keep() {
            Ok(()) => {
                self.inputs.release();
                self.send_barrier();
                Ok(())
            }
            Err(_) => {
                self.inputs.reopen(i as usize);
                self.has_failed = true;
                Err(StepFault::Memory)
            }
        }
    }

    /// Makes the leg's next barrier pending for every output.
    fn send_barrier(&mut self)
        requires idle { self.old.state.pending ≡ [] }
        requires more { self.old.state.next < barriers_in self.old.setup }
        requires free { self.old.state.over ≡ false → is_source self.old.setup.role ≡ false → any_held self.old.state.inputs.shut ≡ false }
        ensures { self.new ≡ record self.old {
          state = record self.old.state {
            next = suc self.old.state.next;
            pending = each_output self.old.setup.outputs (Barrier (self.old.setup.first + self.old.state.next));
          };
        } }
    {
        to_all(
            &mut self.pending,
            self.setup.outputs,
            Notice::Barrier(self.setup.first + self.next),
        );
        self.next += 1;
    }

    fn chain_rows(&mut self, i: u32, batch: Batch) -> Result<(), StepFault>
        requires going { self.old.has_failed ≡ false }
        requires chain { self.old.setup.role ≡ Role.Chain }
        requires ready { IsReady self.old i }
        requires admitted { AreAdmitted self.old batch }
        ensures { StepsOrRefuses (Take i (Rows batch)) self.old self.new result }
    {
        let count = batch.len() as u64;
        match records_through(
            self.alloc,
            &self.setup,
            &mut self.cursor,
            &mut self.pending,
            batch,
        ) {
            Ok(()) => {
                self.taken += count;
                Ok(())
            }
            Err(_) => {
                self.has_failed = true;
                Err(StepFault::Memory)
            }
        }
    }
}
