//! What a leg begins with.

ghost use Rattle.std.specs.Prelude.{◌≡◌, map, IfOk};
ghost use Rattle.redistribute.specs.Snapshots.{saved_partition, saved_source};

use aggregates::Kind;
use plain_data::Items;
use plan_model::Plan;
use savepoint_codec::{SavedGroup, SavedPartition};
use std::alloc::{AllocError, Global};
use std::marker::Model;
use stream_model::{Input, Marked, Partition};

/// What a leg of a job begins with: the number of the savepoint that it goes on from, how far each partition of each
/// source was read, with its watermark there, and what stands in the windows, by key group. Sources stand in plan
/// order.
#[derive(Debug, Drop)]
pub struct Start {
    number: u64,
    sources: Items<Items<SavedPartition>>,
    kinds: Items<Kind>,
    groups: Items<SavedGroup>,
}

impl Model for Start {
    ghost use Rattle.redistribute.specs.StartData.{StartData, AreEntries};

    ghost Value = { StartData };

    ghost view = { λ s. record { number = s.number; sources = s.sources; kinds = s.kinds; groups = s.groups } };

    ghost invariant = { λ s. AreEntries s.kinds s.groups };
}

impl Start {
    ghost use Rattle.std.specs.Prelude.{◌≡◌, ◌<◌, length, slice_index_or, [], IfOk};
    ghost use Rattle.dataflow_model.specs.Leg.{count_at};
    ghost use Rattle.stream_model.specs.InputData.{BelongsTo};
    ghost use Rattle.stream_model.specs.Watermarks.{empty_cut};
    ghost use Rattle.redistribute.specs.StartData.{IsStartOf, AreEntries, offsets_of};
    ghost use Rattle.redistribute.specs.Begins.{IsStartIn, IsFromNothing, HasSnapshot};
    ghost use Rattle.redistribute.specs.Snapshots.{start_at};

    /// The start from nothing: no entry of any partition was read, and its number is 0.
    ///
    /// # Errors
    ///
    /// Only where memory runs out.
    pub fn empty(alloc: Global, plan: &Plan, input: &Input) -> Result<Start, AllocError>
        requires { BelongsTo plan.now input.now }
        ensures snapshot { IfOk result (λ start. start ≡ start_at input.now.sources (empty_cut input.now.sources) 0) }
        ensures belongs { IfOk result (λ start. IsStartOf plan.now start) }
        ensures in_input { IfOk result (λ start. IsStartIn plan.now input.now start) }
        ensures nothing { IfOk result (λ start. IsFromNothing input.now start) }
        ensures has_snapshot { IfOk result (λ start. HasSnapshot plan.now input.now start) }
    {
        let mut sources = Vec::new(alloc);
        for partitions in input.sources() {
            sources.push(unread_source(alloc, partitions.as_slice())?)?;
        }
        Ok(Start {
            number: 0,
            sources: Items::from_vec(sources),
            kinds: Items::from_vec(Vec::new(alloc)),
            groups: Items::from_vec(Vec::new(alloc)),
        })
    }

    /// The start from a savepoint that holds these: its number, how far each partition of each source was read, in plan
    /// order, the kinds of the aggregates, and what stands in the windows, by key group.
    pub fn from_saved(
        number: u64,
        sources: Items<Items<SavedPartition>>,
        kinds: Items<Kind>,
        groups: Items<SavedGroup>,
    ) -> Start
        requires { AreEntries kinds groups }
        ensures { result ≡ record { number = number; sources = sources; kinds = kinds; groups = groups } }
    {
        Start {
            number,
            sources,
            kinds,
            groups,
        }
    }

    /// The number of the savepoint that the leg goes on from; 0 from nothing.
    pub fn number(&self) -> u64
        ensures { result ≡ self.now.number }
    {
        self.number
    }

    /// How many entries of a partition were read.
    pub fn offset(&self, source: u32, partition: u32) -> u64
        requires source_in { source < length self.now.sources }
        requires partition_in { partition < length (slice_index_or self.now.sources source []) }
        ensures { result ≡ count_at (offsets_of self.now) source partition }
    {
        self.sources()[source as usize].as_slice()[partition as usize].offset
    }

    /// How far the partitions of each source were read, with their watermarks.
    pub fn sources(&self) -> &[Items<SavedPartition>]
        ensures { result.now ≡ self.now.sources }
    {
        self.sources.as_slice()
    }

    /// The kinds of the aggregates of what stands in the windows.
    pub(crate) fn kinds(&self) -> &[Kind]
        ensures { result.now ≡ self.now.kinds }
    {
        self.kinds.as_slice()
    }

    /// What stands in the windows, by key group.
    pub(crate) fn groups(&self) -> &[SavedGroup]
        ensures says { result.now ≡ self.now.groups }
        ensures sound { AreEntries self.now.kinds self.now.groups }
    {
        self.groups.as_slice()
    }
}

/// A partition of which no entry was read.
fn unread(entries: &[Marked]) -> SavedPartition
    ensures { result ≡ saved_partition entries.now 0 }
{
    let watermark = if entries.is_empty() {
        i64::MAX
    } else {
        i64::MIN
    };
    SavedPartition {
        offset: 0,
        watermark,
    }
}

/// A source of which no entry was read.
fn unread_source(
    alloc: Global,
    partitions: &[Partition],
) -> Result<Items<SavedPartition>, AllocError>
    ensures { IfOk result (λ saved. saved ≡ saved_source partitions.now (map (λ p. 0) partitions.now)) }
{
    let mut saved = Vec::new(alloc);
    for entries in partitions {
        saved.push(unread(entries.as_slice()))?;
    }
    Ok(Items::from_vec(saved))
}
