//! All tasks of a leg and the rings between them.

ghost use Rattle.std.specs.Prelude.{◌≡◌, ◌↔◌, true, false, IsTrue, MatchOption, IfErr, IfOk, IfSome, OnOk};
ghost use Rattle.core_steps.specs.Answers.{is_memory};

use crate::finish::{Finish, finish_of};
use crate::given::Given;
use crate::rings::Rings;
use crate::sealing::{Sealed, sealed_of};
use dataflow_laws::Step;
use leg_tasks::tasks;
use legs::{LegFault, Stop, Until};
use std::alloc::{AllocError, Global};
use std::marker::Model;
use task_setups::Leg;
use task_steps::{StepFault, Task};
use window_state::HashKeys;

/// Whether a step found no memory.
fn found_no_memory(answer: &Result<(), StepFault>) -> bool
    ensures { result ≡ is_memory answer.now }
{
    matches!(answer, Err(StepFault::Memory))
}

/// All tasks of a leg and the rings between them, in one thread.
#[derive(Drop)]
pub struct World<'a> {
    given: Given<'a>,
    leg: Leg<'a>,
    tasks: Vec<Task>,
    rings: Rings,
    has_failed: bool,
}

impl<'a> Model for World<'a> {
    ghost use Rattle.core_steps.specs.World.{WorldData, world_view, IsWorld};

    ghost Value = { WorldData };

    ghost use Rattle.std.specs.Coded.{codes};
    ghost use Rattle.window_state.specs.Codes.{windows_code};

    ghost coded = { Prim.hlevel (codes, windows_code) };

    ghost view = { world_view };

    ghost invariant = { λ w. IsWorld (world_view w) };
}

impl<'a> World<'a> {
    ghost use Rattle.dataflow_laws.specs.declared.step.Step.TheVariants as asked;
    ghost use Rattle.dataflow_laws.specs.declared.step.Step.{Step};
    ghost use Rattle.dataflow_laws.specs.Progress.{IsFinished};
    ghost use Rattle.dataflow_laws.specs.World as flow;
    ghost use Rattle.stream_model.specs.InputData.{BelongsTo};
    ghost use Rattle.redistribute.specs.StartData.{offsets_of};
    ghost use Rattle.redistribute.specs.Begins.{IsStartIn, IsFromNothing};
    ghost use Rattle.dataflow_model.specs.Leg.Until.{ToEnd};
    ghost use Rattle.legs.specs.Stops.{until_of};
    ghost use Rattle.redistribute.specs.Stopping.{CanSaveAt, CanStop, IsRefusal};
    ghost use Rattle.task_setups.specs.Legs.{IsLayoutOf, counts_of};
    ghost use Rattle.core_steps.specs.Given.{given_data, layout_in};
    ghost use Rattle.core_steps.specs.World.{world_in, IsWorld};
    ghost use Rattle.core_steps.specs.Beginning.{IsNewWorld};
    ghost use Rattle.core_steps.specs.Finishing.{IsFinishIn, HasFinished};
    ghost use Rattle.core_steps.specs.Ending.{HasSealed, IsEndOf, IsWholeRun};
    ghost use Rattle.core_steps.specs.Sealing.{IsSealOf, IsSealed};
    ghost use Rattle.core_steps.specs.Answers.{LeadsTo, CanMake, StepAnswers};
    ghost use Rattle.core_steps.specs.RingSteps.{IsPuttable, IsTakeable};

    /// The world of a leg as it opens: each task has done nothing but begin with its part of the start, and all rings
    /// are empty. The layout is one of the plan, the input was read by it, and the start is one of the input. The panes
    /// of the windows are hashed by the keys.
    ///
    /// # Errors
    ///
    /// `StopRange` where a leg from the start cannot stop so, else `SaveRange` where it cannot take its savepoints on
    /// the way there, else `Memory` where memory runs out.
    pub fn new(
        alloc: Global,
        keys: HashKeys,
        given: Given<'a>,
        stop: Stop,
    ) -> Result<World<'a>, LegFault>
        requires laid_out { IsLayoutOf given.plan.now given.layout.now }
        requires belongs { BelongsTo given.plan.now given.input.now }
        requires starts { IsStartIn given.plan.now given.input.now given.start.now }
        ensures stops { OnOk result (CanStop given.entry.input.now.sources (offsets_of given.entry.start.now) stop) }
        ensures saves { OnOk result (CanSaveAt given.entry.input.now.sources (offsets_of given.entry.start.now) (counts_of given.entry.saves.now) (until_of stop)) }
        ensures opens { IfOk result (λ world. IsNewWorld (given_data given.entry (until_of stop)) world) }
        ensures refused { IfErr result (λ fault. IsRefusal given.entry.input.now.sources (offsets_of given.entry.start.now) (counts_of given.entry.saves.now) (until_of stop) fault) }
    {
        let plan = given.plan;
        let input = given.input;
        let _columns = plan.columns();
        let _sources = input.sources();
        let leg = Leg {
            number: given.start.number(),
            saves: given.saves,
            until: Until::from(stop),
        };
        let tasks = tasks(alloc, keys, plan, input, given.start, given.layout, &leg)?;
        let rings = Rings::new(alloc, given.layout)?;
        let world = World {
            given,
            leg,
            tasks,
            rings,
            has_failed: false,
        };
        Ok(world)
    }

    /// Makes a step.
    ///
    /// # Errors
    ///
    /// `NotEnabled` where there is no such step now, and nothing has changed; `Memory` where there is one, but no
    /// memory for it; `Failed` in a world that has failed so.
    pub fn apply(&mut self, step: Step) -> Result<(), StepFault>
        ensures { StepAnswers step self.old self.new result }
    {
        match step {
            Step::Open(task) => self.open(task),
            Step::Read(task, partition) => self.read(task, partition),
            Step::Save(task) => self.save(task),
            Step::Stop(task) => self.stop(task),
            Step::Close(task) => self.close(task),
            Step::Take(task, input) => self.take(task, input),
            Step::Put(task) => self.put(task),
        }
    }

    /// Opens a source: what its partitions' watermarks come to at the start is made pending.
    ///
    /// # Errors
    ///
    /// `NotEnabled` where there is no such step now, and nothing has changed; `Failed` in a world that has failed.
    fn open(&mut self, task: u32) -> Result<(), StepFault>
        ensures { StepAnswers (asked.Open task) self.old self.new result }
    {
        if self.has_failed {
            return Err(StepFault::Failed);
        }
        let Some(source) = self.tasks.get_mut(task as usize) else {
            return Err(StepFault::NotEnabled);
        };
        source.open()
    }

    /// Stops a source: the barrier of the leg's savepoint is made pending.
    ///
    /// # Errors
    ///
    /// `NotEnabled` where there is no such step now, and nothing has changed; `Failed` in a world that has failed.
    fn stop(&mut self, task: u32) -> Result<(), StepFault>
        ensures { StepAnswers (asked.Stop task) self.old self.new result }
    {
        if self.has_failed {
            return Err(StepFault::Failed);
        }
        let Some(source) = self.tasks.get_mut(task as usize) else {
            return Err(StepFault::NotEnabled);
        };
        source.stop()
    }

    /// Closes a source that has read all of its partitions: the end of its stream is made pending.
    ///
    /// # Errors
    ///
    /// `NotEnabled` where there is no such step now, and nothing has changed; `Failed` in a world that has failed.
    fn close(&mut self, task: u32) -> Result<(), StepFault>
        ensures { StepAnswers (asked.Close task) self.old self.new result }
    {
        if self.has_failed {
            return Err(StepFault::Failed);
        }
        let Some(source) = self.tasks.get_mut(task as usize) else {
            return Err(StepFault::NotEnabled);
        };
        source.close()
    }

    /// Lets a source read the next entry of its partition with this number.
    ///
    /// # Errors
    ///
    /// `NotEnabled` where there is no such step now, and nothing has changed; `Memory` where there is one, but no
    /// memory for it; `Failed` in a world that has failed so.
    fn read(&mut self, task: u32, partition: u32) -> Result<(), StepFault>
        ensures { StepAnswers (asked.Read task partition) self.old self.new result }
    {
        if self.has_failed {
            return Err(StepFault::Failed);
        }
        let input = self.given.input;
        let Some(source) = self.tasks.get_mut(task as usize) else {
            return Err(StepFault::NotEnabled);
        };
        let answer = source.read(input, partition);
        self.has_failed = found_no_memory(&answer);
        answer
    }

    /// Lets a source keep itself for the leg's next savepoint: its barrier is made pending, and the source goes on.
    ///
    /// # Errors
    ///
    /// `NotEnabled` where there is no such step now, and nothing has changed; `Memory` where there is one, but no
    /// memory for it; `Failed` in a world that has failed so.
    fn save(&mut self, task: u32) -> Result<(), StepFault>
        ensures { StepAnswers (asked.Save task) self.old self.new result }
    {
        if self.has_failed {
            return Err(StepFault::Failed);
        }
        let Some(source) = self.tasks.get_mut(task as usize) else {
            return Err(StepFault::NotEnabled);
        };
        let answer = source.save();
        self.has_failed = found_no_memory(&answer);
        answer
    }

    /// The task that the first pending message of a task is for, where there is room on the ring.
    pub fn receiver(&self, task: u32) -> Option<u32>
        ensures { MatchOption result ((next : flow.World) → LeadsTo self.now (asked.Put task) next → ⊥) (λ receiver. IsPuttable self.now task receiver) }
    {
        let layout = self.given.layout;
        let Some(sender) = self.tasks.get(task as usize) else {
            return None;
        };
        let Some(output) = sender.pending() else {
            return None;
        };
        let receivers = layout.outputs_of(task);
        let Some(receiver) = receivers.get(output as usize) else {
            return None;
        };
        let receiver = *receiver;
        if self.rings.len(task, receiver) < layout.ring() as usize {
            Some(receiver)
        } else {
            None
        }
    }

    /// Puts the first pending message of a task on its ring.
    ///
    /// # Errors
    ///
    /// `NotEnabled` where there is no such step now, and nothing has changed; `Failed` in a world that has failed.
    fn put(&mut self, task: u32) -> Result<(), StepFault>
        ensures { StepAnswers (asked.Put task) self.old self.new result }
    {
        if self.has_failed {
            return Err(StepFault::Failed);
        }
        let Some(receiver) = self.receiver(task) else {
            return Err(StepFault::NotEnabled);
        };
        let Some(sender) = self.tasks.get_mut(task as usize) else {
            return Err(StepFault::NotEnabled);
        };
        let Some((_, message)) = sender.pop_pending() else {
            return Err(StepFault::NotEnabled);
        };
        self.rings.put(task, receiver, message);
        Ok(())
    }

    /// The task that the ring of an input comes from, where a task can take from it and there is a message.
    fn sender(&self, task: u32, input: u32) -> Option<u32>
        ensures { MatchOption result ((next : flow.World) → LeadsTo self.now (asked.Take task input) next → ⊥) (λ sender. IsTakeable self.now task input sender) }
    {
        let layout = self.given.layout;
        let Some(receiver) = self.tasks.get(task as usize) else {
            return None;
        };
        if !receiver.can_take(input) {
            return None;
        }
        let senders = layout.inputs_of(task);
        let Some(sender) = senders.get(input as usize) else {
            return None;
        };
        let sender = *sender;
        if self.rings.len(sender, task) > 0 {
            Some(sender)
        } else {
            None
        }
    }

    /// Lets a task take the oldest message of an input's ring.
    ///
    /// # Errors
    ///
    /// `NotEnabled` where there is no such step now, and nothing has changed; `Memory` where there is one, but no
    /// memory for it; `Failed` in a world that has failed so.
    fn take(&mut self, task: u32, input: u32) -> Result<(), StepFault>
        ensures { StepAnswers (asked.Take task input) self.old self.new result }
    {
        if self.has_failed {
            return Err(StepFault::Failed);
        }
        let Some(sender) = self.sender(task, input) else {
            return Err(StepFault::NotEnabled);
        };
        let Some(message) = self.rings.pop(sender, task) else {
            return Err(StepFault::NotEnabled);
        };
        let Some(receiver) = self.tasks.get_mut(task as usize) else {
            return Err(StepFault::NotEnabled);
        };
        let answer = receiver.take(input, message);
        self.has_failed = found_no_memory(&answer);
        answer
    }

    /// Whether a source could open.
    fn can_open(&self, task: u32) -> bool
        ensures { IsTrue result ↔ CanMake self.now (asked.Open task) }
    {
        let Some(source) = self.tasks.get(task as usize) else {
            return false;
        };
        source.can_open()
    }

    /// Whether a source could read its partition with this number.
    fn can_read(&self, task: u32, partition: u32) -> bool
        ensures { IsTrue result ↔ CanMake self.now (asked.Read task partition) }
    {
        let Some(source) = self.tasks.get(task as usize) else {
            return false;
        };
        source.can_read(partition)
    }

    /// Whether a source could take a savepoint on the leg's way.
    fn can_save(&self, task: u32) -> bool
        ensures { IsTrue result ↔ CanMake self.now (asked.Save task) }
    {
        let Some(source) = self.tasks.get(task as usize) else {
            return false;
        };
        source.can_save()
    }

    /// Whether a source could stop.
    fn can_stop(&self, task: u32) -> bool
        ensures { IsTrue result ↔ CanMake self.now (asked.Stop task) }
    {
        let Some(source) = self.tasks.get(task as usize) else {
            return false;
        };
        source.can_stop()
    }

    /// Whether a source could close.
    fn can_close(&self, task: u32) -> bool
        ensures { IsTrue result ↔ CanMake self.now (asked.Close task) }
    {
        let Some(source) = self.tasks.get(task as usize) else {
            return false;
        };
        source.can_close()
    }

    /// Whether a step could be made now: never in a world that has failed.
    pub fn enabled(&self, step: Step) -> bool
        ensures { IsTrue result ↔ (self.now.has_failed ≡ false) × CanMake self.now step }
    {
        if self.has_failed {
            return false;
        }
        match step {
            Step::Open(task) => self.can_open(task),
            Step::Read(task, partition) => self.can_read(task, partition),
            Step::Save(task) => self.can_save(task),
            Step::Stop(task) => self.can_stop(task),
            Step::Close(task) => self.can_close(task),
            Step::Take(task, input) => self.sender(task, input).is_some(),
            Step::Put(task) => self.receiver(task).is_some(),
        }
    }

    /// Whether a step found no memory, so that no more can be made.
    pub fn has_failed(&self) -> bool
        ensures says { result ≡ self.now.has_failed }
        ensures sound { IsWorld self.now }
    {
        let World { has_failed, .. } = self;
        *has_failed
    }

    /// What the leg has sealed by the steps that it has made, also where a step found no memory: the savepoint of the
    /// last barrier that every task has passed, and the rows that the sink had before it; `None` where there is no such
    /// barrier. Where a step found no memory, that barrier is one of a savepoint on the leg's way.
    ///
    /// # Errors
    ///
    /// Only where memory runs out.
    pub fn sealed(&self, alloc: Global) -> Result<Option<Sealed>, AllocError>
        ensures is { IfOk result (IsSealed self.now.given (world_in self.now).tasks) }
        ensures exact { IfOk result (λ answer. IfSome answer (IsSealOf self.now.given (world_in self.now).tasks)) }
        ensures on_the_way { let g = self.now.given in self.now.has_failed ≡ true → IfOk result (λ answer. IfSome answer (HasSealed g.plan g.input g.start g.saves)) }
    {
        sealed_of(
            alloc,
            &self.given.begun(),
            &self.leg.until,
            self.tasks.as_slice(),
        )
    }

    /// How the leg ended, with the rows that it has delivered and the savepoint that it leaves where it stopped; `None`
    /// where not every task is done, or the world has failed.
    ///
    /// # Errors
    ///
    /// Only where memory runs out.
    pub fn finish(self, alloc: Global) -> Result<Option<Finish>, AllocError>
        ensures is { IfOk result (λ answer. MatchOption answer (HasFinished self.entry → ⊥) (λ finish. HasFinished self.entry × IsFinishIn self.entry finish)) }
        ensures ends { let g = self.entry.given in IfOk result (λ answer. IfSome answer (λ finish. IsEndOf g.plan g.input g.start g.saves g.until finish)) }
        ensures whole { let g = self.entry.given in IfOk result (λ answer. IfSome answer (λ finish. IsFromNothing g.input g.start → g.until ≡ ToEnd → IsWholeRun g.plan g.input finish)) }
    {
        if self.has_failed() || !self.is_finished() {
            return Ok(None);
        }
        let World {
            given,
            leg,
            tasks,
            ..
        } = self;
        Ok(Some(finish_of(alloc, &given.begun(), &leg.until, tasks)?))
    }

    /// Whether every task is done. Where not, and the world has not failed, there is a step.
    pub fn is_finished(&self) -> bool
        ensures done { IsTrue result ↔ IsFinished (layout_in self.now.given) (world_in self.now) }
        ensures goes_on { result ≡ false → self.now.has_failed ≡ false → (next : Step) × CanMake self.now next }
    {
        for task in &self.tasks {
            if !task.is_done() {
                return false;
            }
        }
        true
    }
}
