//! Reading the fields of a savepoint up to its key groups, each from the front of bytes.

ghost use Rattle.std.specs.Prelude.{◌≡◌, ◌≤◌, true, Option, None, length, IfOk, string_bytes};
ghost use Rattle.std.specs.List.{list_all};
ghost use Rattle.std.specs.Option.{option_map};
ghost use Rattle.std.specs.Ordering.{nat_cmp};
ghost use Rattle.std.specs.Cmp.Lexicographic.{slice_cmp};
ghost use Rattle.byte_fields.specs.Reads.{Reads, Gives};
ghost use Rattle.byte_fields.specs.Lists.{chain, last_of};
ghost use Rattle.savepoint_codec.specs.Fields.{number_field, max_field, is_uid_after, partition_field, partitions_field, source_field, source_after, sources_field, kind_field, kinds_field};
ghost use Rattle.savepoint_codec.specs.Layout.{record_field};
ghost use Rattle.plan_model.specs.declared.limits.TheConstants.{MOST_AGGREGATES};

use crate::savepoint::{SavedPartition, SavedSource};
use aggregates::Kind;
use byte_fields::{
    FieldFault, ReadFault, read_bytes, read_few, read_i64, read_u8, read_u16, read_u64,
};
use key_groups::MOST_GROUPS;
use plain_data::Items;
use plan_model::{MOST_AGGREGATES, MOST_PARTITIONS, MOST_SOURCES, read_uid};
use std::alloc::Global;
use std::cmp::Ordering;

/// A savepoint's number.
#[tactic(auto, unfolding(crate::specs::Fields::number_field))]
pub(crate) fn read_number(bytes: &[u8]) -> Result<(u64, &[u8]), FieldFault>
    ensures { Reads (λ x. (x.0, x.1.now)) result (number_field.read bytes.now) }
{
    let (number, rest) = read_u64(bytes)?;
    if number == 0 {
        return Err(FieldFault::Range);
    }
    Ok((number, rest))
}

/// How many key groups there are.
#[tactic(auto, unfolding(crate::specs::Fields::max_field))]
pub(crate) fn read_max(bytes: &[u8]) -> Result<(u16, &[u8]), FieldFault>
    ensures { Reads (λ x. (x.0, x.1.now)) result (max_field.read bytes.now) }
{
    let (max, rest) = read_u16(bytes)?;
    if max < 1 || u32::from(max) > MOST_GROUPS {
        return Err(FieldFault::Range);
    }
    Ok((max, rest))
}

/// The plan's record.
#[tactic(auto, unfolding(crate::specs::Layout::record_field, byte_fields::specs::Lists::sized))]
pub(crate) fn read_record(alloc: Global, bytes: &[u8]) -> Result<(Items<u8>, &[u8]), ReadFault>
    ensures { Gives (λ x. (x.0, x.1.now)) result (record_field.read bytes.now) }
{
    let (length, rest) = read_u16(bytes)?;
    let (record, rest) = read_bytes(length as usize, rest)?;
    Ok((Items::from_vec(Vec::from_slice(alloc, record)?), rest))
}

/// Whether a uid comes after the one before, if there is one.
fn is_after(last: Option<&str>, uid: &str) -> bool
    ensures { result ≡ is_uid_after (option_map (λ last. last.now) last.entry) uid.now }
{
    match last {
        None => true,
        Some(last) => last.cmp(uid) == Ordering::Less,
    }
}

#[tactic(auto, unfolding(crate::specs::Fields::partition_field))]
fn read_partition(bytes: &[u8]) -> Result<(SavedPartition, &[u8]), FieldFault>
    ensures { Reads (λ x. (x.0, x.1.now)) result (partition_field.read bytes.now) }
{
    let (offset, rest) = read_u64(bytes)?;
    let (watermark, rest) = read_i64(rest)?;
    Ok((SavedPartition { offset, watermark }, rest))
}

fn read_partition_list(
    alloc: Global,
    count: u8,
    bytes: &[u8],
) -> Result<(Vec<SavedPartition>, &[u8]), ReadFault>
    ensures { Gives (λ x. (x.0.items, x.1.now)) result ((chain (λ _. partition_field) None count).read bytes.now) }
{
    let mut partitions = Vec::new(alloc);
    let mut rest = bytes;
    for _ in 0..count {
        let (partition, after) = read_partition(rest)?;
        partitions.push(partition)?;
        rest = after;
    }
    Ok((partitions, rest))
}

/// The partitions of a source.
#[tactic(auto, unfolding(crate::specs::Fields::partitions_field, byte_fields::specs::Lists::counted))]
fn read_partitions(alloc: Global, bytes: &[u8]) -> Result<(Items<SavedPartition>, &[u8]), ReadFault>
    ensures { Gives (λ x. (x.0, x.1.now)) result (partitions_field.read bytes.now) }
{
    let (count, rest) = read_few(MOST_PARTITIONS as u8, bytes)?;
    let (partitions, rest) = read_partition_list(alloc, count, rest)?;
    Ok((Items::from_vec(partitions), rest))
}

/// A source whose uid comes after the one before.
#[tactic(auto, unfolding(crate::specs::Fields::source_field))]
fn read_source<'a>(
    alloc: Global,
    last: Option<&str>,
    bytes: &'a [u8],
) -> Result<(SavedSource, &'a [u8]), ReadFault>
    ensures { Gives (λ x. (x.0, x.1.now)) result ((source_field (option_map (λ last. last.now) last.entry)).read bytes.now) }
{
    let (uid, rest) = read_uid(alloc, bytes)?;
    if !is_after(last, uid.as_str()) {
        return Err(ReadFault::Bytes(FieldFault::Order));
    }
    let (partitions, rest) = read_partitions(alloc, rest)?;
    Ok((SavedSource { uid, partitions }, rest))
}

/// The uid of the last source, if there is one.
fn last_uid(sources: &[SavedSource]) -> Option<&str>
    ensures { option_map (λ uid. uid.now) result ≡ option_map (λ s. s.uid) (last_of sources.now) }
{
    match sources.last() {
        Some(source) => Some(source.uid.as_str()),
        None => None,
    }
}

fn read_source_list(
    alloc: Global,
    count: u8,
    bytes: &[u8],
) -> Result<(Vec<SavedSource>, &[u8]), ReadFault>
    ensures { Gives (λ x. (x.0.items, x.1.now)) result ((chain source_after None count).read bytes.now) }
{
    let mut sources = Vec::new(alloc);
    let mut rest = bytes;
    for _ in 0..count {
        let (source, after) = read_source(alloc, last_uid(&sources), rest)?;
        sources.push(source)?;
        rest = after;
    }
    Ok((sources, rest))
}

/// The sources.
#[tactic(auto, unfolding(crate::specs::Fields::sources_field, byte_fields::specs::Lists::counted))]
pub(crate) fn read_sources(
    alloc: Global,
    bytes: &[u8],
) -> Result<(Items<SavedSource>, &[u8]), ReadFault>
    ensures { Gives (λ x. (x.0, x.1.now)) result (sources_field.read bytes.now) }
{
    let (count, rest) = read_few(MOST_SOURCES as u8, bytes)?;
    let (sources, rest) = read_source_list(alloc, count, rest)?;
    Ok((Items::from_vec(sources), rest))
}

#[tactic(auto, unfolding(crate::specs::Fields::kind_field))]
fn read_kind(bytes: &[u8]) -> Result<(Kind, &[u8]), FieldFault>
    ensures { Reads (λ x. (x.0, x.1.now)) result (kind_field.read bytes.now) }
{
    let (code, rest) = read_u8(bytes)?;
    match code {
        0 => Ok((Kind::Count, rest)),
        1 => Ok((Kind::Sum, rest)),
        2 => Ok((Kind::Least, rest)),
        3 => Ok((Kind::Greatest, rest)),
        _ => Err(FieldFault::Range),
    }
}

fn read_kind_list(alloc: Global, count: u8, bytes: &[u8]) -> Result<(Vec<Kind>, &[u8]), ReadFault>
    ensures read { Gives (λ x. (x.0.items, x.1.now)) result ((chain (λ _. kind_field) None count).read bytes.now) }
    ensures counted { IfOk result (λ x. length x.0.items ≡ count) }
{
    let mut kinds = Vec::new(alloc);
    let mut rest = bytes;
    for _ in 0..count {
        let (kind, after) = read_kind(rest)?;
        kinds.push(kind)?;
        rest = after;
    }
    Ok((kinds, rest))
}

/// The kinds of the aggregates.
#[tactic(auto, unfolding(crate::specs::Fields::kinds_field, byte_fields::specs::Lists::counted))]
pub(crate) fn read_kinds(alloc: Global, bytes: &[u8]) -> Result<(Items<Kind>, &[u8]), ReadFault>
    ensures read { Gives (λ x. (x.0, x.1.now)) result (kinds_field.read bytes.now) }
    ensures few { IfOk result (λ x. length x.0 ≤ MOST_AGGREGATES) }
{
    let (count, rest) = read_few(MOST_AGGREGATES as u8, bytes)?;
    let (kinds, rest) = read_kind_list(alloc, count, rest)?;
    Ok((Items::from_vec(kinds), rest))
}
