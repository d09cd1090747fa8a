//! A leg, as its tasks are told it.

ghost use Rattle.std.specs.Prelude.{◌≡◌, length, map, IfOk};
ghost use Rattle.std.specs.List.{range_with_len};
ghost use Rattle.dataflow_model.specs.Leg as model;
ghost use Rattle.legs.specs.Stops.{until_in};
ghost use Rattle.task_setups.specs.Legs.{sizes_of, leg_over};
ghost use Rattle.task_setups.specs.Setups as told;

use dataflow_model::Ending;
use legs::{Cut, Until};
use plain_data::Items;
use std::alloc::{AllocError, Global};
use stream_model::Input;

/// How far a leg goes, and where it takes savepoints on its way.
#[derive(Debug, Drop)]
pub struct Leg<'a> {
    /// The number of the savepoint that it starts from; 0 where it starts from nothing.
    pub number: u64,
    /// The cuts at which it takes a savepoint and goes on, in their order.
    pub saves: &'a [Cut],
    pub until: Until,
}

/// How a leg ends that is to go so far.
pub(crate) fn ending_of(until: &Until) -> Ending
    ensures { result ≡ model.ending_of (until_in until.now) }
{
    match until {
        Until::ToEnd => Ending::AtEnd,
        Until::ToCut(_) => Ending::AtCut,
        Until::TillAsked => Ending::Asked,
    }
}

/// How many entries a partition has; none, where it is not there.
fn size_of(input: &Input, source: u32, partition: u32) -> u64
    ensures { result ≡ sizes_of input.now source partition }
{
    match input.sources().get(source as usize) {
        Some(partitions) => match partitions.as_slice().get(partition as usize) {
            Some(entries) => entries.len() as u64,
            None => 0,
        },
        None => 0,
    }
}

/// How far a partition is read in the end.
fn end_of(leg: &Leg<'_>, input: &Input, source: u32, partition: u32) -> u64
    ensures { result ≡ model.until_at (sizes_of input.now) (until_in leg.now.until) source partition }
{
    match &leg.until {
        Until::ToEnd | Until::TillAsked => size_of(input, source, partition),
        Until::ToCut(cut) => cut.count(source, partition),
    }
}

/// How far a partition is read until the savepoint at a place is taken, and after the last one in the end.
fn limit_of(leg: &Leg<'_>, input: &Input, save: usize, source: u32, partition: u32) -> u64
    ensures { result ≡ (leg_over leg.now input.now).limit save source partition }
{
    match leg.saves.get(save) {
        Some(cut) => cut.count(source, partition),
        None => end_of(leg, input, source, partition),
    }
}

/// How far each of some partitions of a source is read until the savepoint at a place is taken.
fn limits_of(
    alloc: Global,
    leg: &Leg<'_>,
    input: &Input,
    save: usize,
    source: u32,
    partitions: &[u32],
) -> Result<Items<u64>, AllocError>
    ensures { IfOk result (λ limits. limits ≡ told.limits_at (leg_over leg.now input.now) source partitions.now save) }
{
    let mut limits = Vec::new(alloc);
    for partition in partitions {
        limits.push(limit_of(leg, input, save, source, *partition))?;
    }
    Ok(Items::from_vec(limits))
}

/// How far each of some partitions of a source is read in the end.
pub(crate) fn ends_of(
    alloc: Global,
    leg: &Leg<'_>,
    input: &Input,
    source: u32,
    partitions: &[u32],
) -> Result<Items<u64>, AllocError>
    ensures { IfOk result (λ limits. limits ≡ told.limits_at (leg_over leg.now input.now) source partitions.now (length leg.now.saves.now)) }
{
    limits_of(alloc, leg, input, leg.saves.len(), source, partitions)
}

/// How far each of some partitions of a source is read until each savepoint on the way is taken.
pub(crate) fn limits_on_way(
    alloc: Global,
    leg: &Leg<'_>,
    input: &Input,
    source: u32,
    partitions: &[u32],
) -> Result<Items<Items<u64>>, AllocError>
    ensures { IfOk result (λ limits. limits ≡ map (told.limits_at (leg_over leg.now input.now) source partitions.now) (range_with_len 0 (length leg.now.saves.now))) }
{
    let mut limits = Vec::new(alloc);
    for save in 0..leg.saves.len() {
        limits.push(limits_of(alloc, leg, input, save, source, partitions)?)?;
    }
    Ok(Items::from_vec(limits))
}
