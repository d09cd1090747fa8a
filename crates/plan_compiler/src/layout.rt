//! A layout, and what its users ask of it.

use crate::tasks::{Links, Tasks};
use key_groups::GroupRange;
use layout_rules::{Role, Stage, TaskPlace};
use plain_data::Items;
use std::marker::Model;

/// Where the operators of a plan run: stages of chained operators, their tasks, the rings between them,
/// and the partitions that each task of a source reads.
///
/// Tasks are numbered from 0 through the stages, and by subtask within a stage. A task's inputs and
/// outputs are numbered from 0 by ascending task at the other end. Partition p of a source belongs to
/// its subtask p mod parallelism.
#[derive(Debug, Drop)]
pub struct Layout {
    tasks: Tasks,
    links: Items<Links>,
    counts: Items<u32>,
    capacity: u32,
}

impl Model for Layout {
    ghost use Rattle.std.specs.Prelude.{◌≡◌};
    ghost use Rattle.layout_rules.specs.ScaleData.{IsCapacity};
    ghost use Rattle.plan_compiler.specs.LayoutData.{LayoutData, layout_data_of};
    ghost use Rattle.plan_compiler.specs.Tables.{each_task, links_of};

    ghost Value = { LayoutData };

    ghost view = { λ l. layout_data_of l.tasks.stages l.counts l.tasks.max l.capacity };

    ghost invariant = { λ l. (l.links ≡ each_task l.tasks.stages (links_of l.counts l.tasks.stages)) × IsCapacity l.capacity };
}

impl Layout {
    ghost use Rattle.std.specs.Prelude.{◌≡◌, ◌<◌, ◌≤◌, length};
    ghost use Rattle.dataflow_model.specs.declared.role.Role.TheVariants as role;
    ghost use Rattle.layout_rules.specs.declared.limits.TheConstants.{MOST_TASKS};
    ghost use Rattle.layout_rules.specs.Stages as rule;
    ghost use Rattle.layout_rules.specs.ScaleData.{IsCapacity};
    ghost use Rattle.plan_compiler.specs.LayoutData.{layout_data_of};
    ghost use Rattle.plan_compiler.specs.Tables.{each_task, links_of};

    pub(crate) fn new(
        tasks: Tasks,
        links: Items<Links>,
        counts: Items<u32>,
        capacity: u32,
    ) -> Layout
        requires links { links ≡ each_task tasks.stages (links_of counts tasks.stages) }
        requires bounded { IsCapacity capacity }
        ensures { result ≡ layout_data_of tasks.stages counts tasks.max capacity }
    {
        Layout {
            tasks,
            links,
            counts,
            capacity,
        }
    }

    /// The stages: those of the sources in plan order, of the filters, the window's and the sink's.
    pub fn stages(&self) -> &[Stage]
        ensures says { result.now ≡ self.now.stages }
        ensures few { length result.now ≤ MOST_TASKS }
    {
        self.tasks.stages.as_slice()
    }

    /// The stage that the edge out of a stage leads to: from each source's the first after them, from any other the
    /// one after it. No edge leads out of the sink's.
    pub fn next_stage(&self, stage: u32) -> u32
        requires { stage < length self.now.stages }
        ensures { result ≡ rule.next_stage self.now.stages stage }
    {
        self.tasks.next_stage(stage)
    }

    /// The place of each task: at most 256.
    #[tactic(auto, using(crate::proofs::TaskPlaces::place_count))]
    pub fn tasks(&self) -> &[TaskPlace]
        ensures says { result.now ≡ each_task self.now.stages (rule.place_of self.now.stages) }
        ensures counted { length result.now ≡ rule.task_count self.now.stages }
        ensures few { length result.now ≤ MOST_TASKS }
    {
        self.tasks.places.as_slice()
    }

    /// How many tasks there are: at most 256.
    pub fn task_count(&self) -> u32
        ensures says { result ≡ rule.task_count self.now.stages }
        ensures few { result ≤ MOST_TASKS }
    {
        self.tasks.count()
    }

    /// Where a task stands.
    pub fn place(&self, task: u32) -> TaskPlace
        requires { task < rule.task_count self.now.stages }
        ensures says { result ≡ rule.place_of self.now.stages task }
        ensures within { result.stage < length self.now.stages }
    {
        self.tasks.place(task)
    }

    /// The stage that a task stands in.
    pub fn stage(&self, task: u32) -> &Stage
        requires { task < rule.task_count self.now.stages }
        ensures says { result.now ≡ rule.task_stage self.now.stages task }
        ensures some { 0 < result.now.parallelism }
    {
        self.tasks.stage(task)
    }

    /// What a task does.
    pub fn role(&self, task: u32) -> Role
        requires { task < rule.task_count self.now.stages }
        ensures { result ≡ rule.task_role self.now.stages task }
    {
        self.stage(task).role()
    }

    /// How many subtasks the stage of a task has.
    pub fn parallelism_of(&self, task: u32) -> u32
        requires { task < rule.task_count self.now.stages }
        ensures says { result ≡ (rule.task_stage self.now.stages task).parallelism }
        ensures some { 0 < result }
    {
        self.stage(task).parallelism
    }

    /// The key groups of a task of the window.
    pub fn groups_of(&self, task: u32) -> GroupRange
        requires within { task < rule.task_count self.now.stages }
        requires window { rule.task_role self.now.stages task ≡ role.Window }
        ensures { result ≡ rule.groups_of self.now.max self.now.stages task }
    {
        self.tasks.groups_of(task)
    }

    /// The tasks that lead to a task, ascending.
    #[tactic(auto, using(crate::proofs::Ranges::has_place, crate::proofs::Ranges::at_place))]
    pub fn inputs_of(&self, task: u32) -> &[u32]
        requires { task < rule.task_count self.now.stages }
        ensures { result.now ≡ rule.inputs_of self.now.stages task }
    {
        self.links.as_slice()[task as usize].inputs.as_slice()
    }

    /// The tasks that a task leads to, ascending.
    #[tactic(auto, using(crate::proofs::Ranges::has_place, crate::proofs::Ranges::at_place))]
    pub fn outputs_of(&self, task: u32) -> &[u32]
        requires { task < rule.task_count self.now.stages }
        ensures { result.now ≡ rule.outputs_of self.now.stages task }
    {
        self.links.as_slice()[task as usize].outputs.as_slice()
    }

    /// The partitions that a task reads, ascending: none, but for a source's task.
    #[tactic(auto, using(crate::proofs::Ranges::has_place, crate::proofs::Ranges::at_place))]
    pub fn partitions_of(&self, task: u32) -> &[u32]
        requires { task < rule.task_count self.now.stages }
        ensures { result.now ≡ rule.partitions_of self.now.partitions self.now.stages task }
    {
        self.links.as_slice()[task as usize].partitions.as_slice()
    }

    /// How many messages a ring holds: 1 to 1,024.
    pub fn ring(&self) -> u32
        ensures says { result ≡ self.now.capacity }
        ensures bounded { IsCapacity result }
    {
        self.capacity
    }
}
