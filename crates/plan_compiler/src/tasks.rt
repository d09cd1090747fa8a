//! The tasks of stages: where they stand, the rings between them, and the partitions that they read.

ghost use Rattle.std.specs.Prelude.{◌≡◌, ℕ, suc, ◌<◌, ◌≤◌, max, length, slice_index, if◌then◌else◌, IfOk};
ghost use Rattle.layout_rules.specs.declared.limits.TheConstants.{MOST_TASKS};
ghost use Rattle.layout_rules.specs.Scale.{AreStages};
ghost use Rattle.layout_rules.specs.Stages as rule;
ghost use Rattle.dataflow_model.specs.Role.{is_source};
ghost use Rattle.plan_compiler.specs.Tables.{each_task, links_of};

use key_groups::{GroupRange, MaxParallelism, Parallelism, range_of};
use layout_rules::{Edge, Stage, TaskPlace};
use plain_data::Items;
use std::alloc::{AllocError, Global};

/// The stages of a plan, of which so many are its sources', and the places of their tasks.
#[derive(Debug, Drop)]
pub struct Tasks {
    pub stages: Items<Stage>,
    pub places: Items<TaskPlace>,
    pub sources: u32,
    pub max: MaxParallelism,
    ghost known: { AreStages max sources stages },
    ghost placed: { places ≡ each_task stages (rule.place_of stages) },
}

/// The tasks that lead to a task, those that it leads to, and the partitions that it reads, each ascending.
#[derive(Debug, Drop)]
pub struct Links {
    pub inputs: Items<u32>,
    pub outputs: Items<u32>,
    pub partitions: Items<u32>,
}

/// The stage that a stage leads to: from each source's the first after them, from any other the one after it.
pub fn stage_after(sources: u32, stage: u32) -> u32
    requires { stage < MOST_TASKS }
    ensures { result ≡ max sources (suc stage) }
{
    sources.max(stage + 1)
}

/// Whether an edge connects a subtask to one of the stage that it leads to.
fn connects(edge: Option<Edge>, from: u32, into: u32) -> bool
    ensures { result ≡ rule.connects edge from into }
{
    match edge {
        None => false,
        Some(Edge::Forward) => from == into,
        Some(Edge::ByGroup) | Some(Edge::Rebalance) => true,
    }
}

/// How many partitions the source of a stage has; where it has none, 0.
fn partition_count(stage: &Stage, counts: &[u32]) -> u32
    ensures { result ≡ (if is_source (rule.role_of stage.now.operators) then slice_index counts.now (rule.source_of stage.now.operators) else 0) }
{
    match stage.source() {
        Some(source) => counts.get(source as usize).copied().unwrap_or(0),
        None => 0,
    }
}

impl Tasks {
    #[tactic(auto, using(crate::proofs::TaskPlaces::place_count))]
    pub fn count(&self) -> u32
        ensures says { result ≡ rule.task_count self.now.stages }
        ensures few { result ≤ MOST_TASKS }
    {
        self.places.as_slice().len() as u32
    }

    #[tactic(auto, using(crate::proofs::Ranges::has_place, crate::proofs::Ranges::at_place, crate::proofs::TaskPlaces::stage_within))]
    pub fn place(&self, task: u32) -> TaskPlace
        requires { task < rule.task_count self.now.stages }
        ensures says { result ≡ rule.place_of self.now.stages task }
        ensures within { result.stage < length self.now.stages }
    {
        self.places.as_slice()[task as usize]
    }

    #[tactic(auto, using(crate::proofs::TaskPlaces::stage_at_place, crate::proofs::TaskPlaces::subtask_within))]
    pub fn stage(&self, task: u32) -> &Stage
        requires { task < rule.task_count self.now.stages }
        ensures says { result.now ≡ rule.task_stage self.now.stages task }
        ensures some { 0 < result.now.parallelism }
    {
        &self.stages.as_slice()[self.place(task).stage as usize]
    }

    pub fn next_stage(&self, stage: u32) -> u32
        requires { stage < length self.now.stages }
        ensures { result ≡ rule.next_stage self.now.stages stage }
    {
        stage_after(self.sources, stage)
    }

    /// The key groups of a task of the window.
    #[tactic(auto, using(crate::proofs::TaskPlaces::subtask_within, crate::proofs::TaskPlaces::stage_within))]
    pub fn groups_of(&self, task: u32) -> GroupRange
        requires { task < rule.task_count self.now.stages }
        ensures { result ≡ rule.groups_of self.now.max self.now.stages task }
    {
        let parallelism = Parallelism::new(self.stage(task).parallelism, self.max).unwrap();
        range_of(self.max, parallelism, self.place(task).subtask)
    }

    /// Whether a ring leads from one task to another.
    fn is_ring(&self, from: u32, into: u32) -> bool
        requires from { from < rule.task_count self.now.stages }
        requires into { into < rule.task_count self.now.stages }
        ensures { result ≡ rule.is_ring self.now.stages from into }
    {
        let sender = self.place(from);
        let receiver = self.place(into);
        receiver.stage == self.next_stage(sender.stage)
            && connects(self.stage(from).edge, sender.subtask, receiver.subtask)
    }

    #[tactic(auto, using(crate::proofs::Chosen::one_chosen, crate::proofs::Chosen::none_chosen))]
    fn inputs_of(&self, alloc: Global, task: u32) -> Result<Items<u32>, AllocError>
        requires { task < rule.task_count self.now.stages }
        ensures { IfOk result (λ tasks. tasks ≡ rule.inputs_of self.now.stages task) }
    {
        let mut found = Vec::new(alloc);
        for from in 0..self.count() {
            if self.is_ring(from, task) {
                found.push(from)?;
            }
        }
        Ok(Items::from_vec(found))
    }

    #[tactic(auto, using(crate::proofs::Chosen::one_chosen, crate::proofs::Chosen::none_chosen))]
    fn outputs_of(&self, alloc: Global, task: u32) -> Result<Items<u32>, AllocError>
        requires { task < rule.task_count self.now.stages }
        ensures { IfOk result (λ tasks. tasks ≡ rule.outputs_of self.now.stages task) }
    {
        let mut found = Vec::new(alloc);
        for into in 0..self.count() {
            if self.is_ring(task, into) {
                found.push(into)?;
            }
        }
        Ok(Items::from_vec(found))
    }

    #[tactic(auto, using(crate::proofs::Chosen::one_chosen, crate::proofs::Chosen::none_chosen))]
    fn partitions_of(
        &self,
        alloc: Global,
        counts: &[u32],
        task: u32,
    ) -> Result<Items<u32>, AllocError>
        requires { task < rule.task_count self.now.stages }
        ensures { IfOk result (λ partitions. partitions ≡ rule.partitions_of counts.now self.now.stages task) }
    {
        let subtask = self.place(task).subtask;
        let stage = self.stage(task);
        let mut found = Vec::new(alloc);
        for partition in 0..partition_count(stage, counts) {
            if partition % stage.parallelism == subtask {
                found.push(partition)?;
            }
        }
        Ok(Items::from_vec(found))
    }

    /// What each task is linked to, where the sources have so many partitions.
    #[tactic(auto, using(crate::proofs::Ranges::map_more))]
    pub fn links(&self, alloc: Global, counts: &[u32]) -> Result<Items<Links>, AllocError>
        ensures { IfOk result (λ links. links ≡ each_task self.now.stages (links_of counts.now self.now.stages)) }
    {
        let mut links = Vec::new(alloc);
        for task in 0..self.count() {
            links.push(Links {
                inputs: self.inputs_of(alloc, task)?,
                outputs: self.outputs_of(alloc, task)?,
                partitions: self.partitions_of(alloc, counts, task)?,
            })?;
        }
        Ok(Items::from_vec(links))
    }
}
