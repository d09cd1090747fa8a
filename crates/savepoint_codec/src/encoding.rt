//! A savepoint put into bytes, in the layout without an index.

ghost use Rattle.std.specs.Prelude.{◌≡◌, ◌<◌, ◌≤◌, None, ◌++◌, length, OnOk, IfOk};
ghost use Rattle.std.specs.List.{All, flat_map};
ghost use Rattle.byte_fields.specs.Fields.{i128_field};
ghost use Rattle.savepoint_codec.specs.EntriesView.{entry_data};
ghost use Rattle.savepoint_codec.specs.Fields.{partition_field, partitions_field, source_field, sources_field, kind_code, kind_field, kinds_field, pane_field, entry_field, entries_field, group_field, groups_field};
ghost use Rattle.savepoint_codec.specs.Layout.{record_field, front_field, front_of, fields, parts_of, unindexed_bytes};
ghost use Rattle.savepoint_codec.specs.Numbers.{numbers_of};
ghost use Rattle.savepoint_codec.specs.Writing.{HasFewPartitions, IsOfKinds, AreOfKinds, IsShort, entry_bytes};

use crate::entries::{Entries, Entry};
use crate::numbers::Numbers;
use crate::savepoint::{Contents, SavedGroup, SavedPartition, SavedSource, Savepoint};
use aggregates::Kind;
use byte_fields::{put_bytes, put_i64, put_i128, put_u8, put_u16, put_u64};
use plan_model::{Pane, put_uid};
use std::alloc::{AllocError, Global};

#[tactic(auto, unfolding(crate::specs::Layout::record_field, byte_fields::specs::Lists::sized))]
fn put_record(out: &mut Vec<u8>, bytes: &[u8]) -> Result<(), AllocError>
    requires { length bytes.now < 65536 }
    ensures { OnOk result (out.new.items ≡ out.old.items ++ record_field.spell bytes.now) }
{
    put_u16(out, bytes.len() as u16)?;
    put_bytes(out, bytes)
}

#[tactic(auto, unfolding(crate::specs::Fields::partition_field))]
fn put_partition(out: &mut Vec<u8>, partition: &SavedPartition) -> Result<(), AllocError>
    ensures { OnOk result (out.new.items ≡ out.old.items ++ partition_field.spell partition.now) }
{
    put_u64(out, partition.offset)?;
    put_i64(out, partition.watermark)
}

fn put_partition_list(out: &mut Vec<u8>, partitions: &[SavedPartition]) -> Result<(), AllocError>
    ensures { OnOk result (out.new.items ≡ out.old.items ++ flat_map partition_field.spell partitions.now) }
{
    for partition in partitions {
        put_partition(out, partition)?;
    }
    Ok(())
}

#[tactic(auto, unfolding(crate::specs::Fields::partitions_field, byte_fields::specs::Fields::few_field))]
fn put_partitions(out: &mut Vec<u8>, partitions: &[SavedPartition]) -> Result<(), AllocError>
    requires { length partitions.now < 256 }
    ensures { OnOk result (out.new.items ≡ out.old.items ++ partitions_field.spell partitions.now) }
{
    put_u8(out, partitions.len() as u8)?;
    put_partition_list(out, partitions)
}

#[tactic(auto, unfolding(crate::specs::Fields::source_field))]
fn put_source(out: &mut Vec<u8>, source: &SavedSource) -> Result<(), AllocError>
    requires { HasFewPartitions source.now }
    ensures { OnOk result (out.new.items ≡ out.old.items ++ (source_field None).spell source.now) }
{
    put_uid(out, source.uid.as_str())?;
    put_partitions(out, source.partitions.as_slice())
}

fn put_source_list(out: &mut Vec<u8>, sources: &[SavedSource]) -> Result<(), AllocError>
    requires { All HasFewPartitions sources.now }
    ensures { OnOk result (out.new.items ≡ out.old.items ++ flat_map (source_field None).spell sources.now) }
{
    for source in sources {
        put_source(out, source)?;
    }
    Ok(())
}

fn put_sources(out: &mut Vec<u8>, sources: &[SavedSource]) -> Result<(), AllocError>
    requires few { length sources.now < 256 }
    requires short { All HasFewPartitions sources.now }
    ensures { OnOk result (out.new.items ≡ out.old.items ++ sources_field.spell sources.now) }
{
    put_u8(out, sources.len() as u8)?;
    put_source_list(out, sources)
}

#[tactic(auto, unfolding(crate::specs::Fields::kind_field))]
fn put_kind(out: &mut Vec<u8>, kind: Kind) -> Result<(), AllocError>
    ensures { OnOk result (out.new.items ≡ out.old.items ++ kind_field.spell kind) }
{
    let code = match kind {
        Kind::Count => 0,
        Kind::Sum => 1,
        Kind::Least => 2,
        Kind::Greatest => 3,
    };
    put_u8(out, code)
}

fn put_kind_list(out: &mut Vec<u8>, kinds: &[Kind]) -> Result<(), AllocError>
    ensures { OnOk result (out.new.items ≡ out.old.items ++ flat_map kind_field.spell kinds.now) }
{
    for kind in kinds {
        put_kind(out, *kind)?;
    }
    Ok(())
}

#[tactic(auto, unfolding(crate::specs::Fields::kinds_field, byte_fields::specs::Fields::few_field))]
fn put_kinds(out: &mut Vec<u8>, kinds: &[Kind]) -> Result<(), AllocError>
    requires { length kinds.now < 256 }
    ensures { OnOk result (out.new.items ≡ out.old.items ++ kinds_field.spell kinds.now) }
{
    put_u8(out, kinds.len() as u8)?;
    put_kind_list(out, kinds)
}

#[tactic(auto, unfolding(crate::specs::Fields::pane_field))]
fn put_pane(out: &mut Vec<u8>, pane: Pane) -> Result<(), AllocError>
    ensures { OnOk result (out.new.items ≡ out.old.items ++ pane_field.spell pane) }
{
    put_i64(out, pane.start)?;
    put_i64(out, pane.key)
}

fn put_narrow_numbers(out: &mut Vec<u8>, numbers: &[i64]) -> Result<(), AllocError>
    ensures { OnOk result (out.new.items ≡ out.old.items ++ flat_map i128_field.spell numbers.now) }
{
    for number in numbers {
        put_i128(out, *number as i128)?;
    }
    Ok(())
}

fn put_wide_numbers(out: &mut Vec<u8>, numbers: &[i128]) -> Result<(), AllocError>
    ensures { OnOk result (out.new.items ≡ out.old.items ++ flat_map i128_field.spell numbers.now) }
{
    for number in numbers {
        put_i128(out, *number)?;
    }
    Ok(())
}

fn put_numbers(out: &mut Vec<u8>, numbers: Numbers<'_>) -> Result<(), AllocError>
    ensures { OnOk result (out.new.items ≡ out.old.items ++ flat_map i128_field.spell (numbers_of numbers.entry)) }
{
    match numbers {
        Numbers::Narrow(numbers) => put_narrow_numbers(out, numbers),
        Numbers::Wide(numbers) => put_wide_numbers(out, numbers),
    }
}

fn put_entry(out: &mut Vec<u8>, entry: Entry<'_>) -> Result<(), AllocError>
    ensures { OnOk result (out.new.items ≡ out.old.items ++ entry_bytes (entry_data entry.entry)) }
{
    put_pane(out, entry.pane)?;
    put_u64(out, entry.count)?;
    put_numbers(out, entry.numbers)
}

/// The entries of a key group, one after the other.
///
/// # Errors
///
/// Only where memory runs out.
pub fn put_entry_list(out: &mut Vec<u8>, entries: &Entries) -> Result<(), AllocError>
    ensures { OnOk result (out.new.items ≡ out.old.items ++ flat_map entry_bytes entries.now.entries) }
{
    for i in 0..entries.len() {
        put_entry(out, entries.entry(i))?;
    }
    Ok(())
}

fn put_entries(out: &mut Vec<u8>, kinds: &[Kind], entries: &Entries) -> Result<(), AllocError>
    requires { All (IsOfKinds kinds.now) entries.now.entries }
    ensures { OnOk result (out.new.items ≡ out.old.items ++ (entries_field kinds.now).spell entries.now.entries) }
{
    put_u64(out, entries.len() as u64)?;
    put_entry_list(out, entries)
}

#[tactic(auto, unfolding(crate::specs::Fields::group_field, crate::specs::Fields::group_number))]
fn put_group(
    out: &mut Vec<u8>,
    max: u16,
    kinds: &[Kind],
    group: &SavedGroup,
) -> Result<(), AllocError>
    requires { AreOfKinds kinds.now group.now }
    ensures { OnOk result (out.new.items ≡ out.old.items ++ (group_field max kinds.now None).spell group.now) }
{
    put_u16(out, group.group)?;
    put_entries(out, kinds, &group.entries)
}

fn put_group_list(
    out: &mut Vec<u8>,
    max: u16,
    kinds: &[Kind],
    groups: &[SavedGroup],
) -> Result<(), AllocError>
    requires { All (AreOfKinds kinds.now) groups.now }
    ensures { OnOk result (out.new.items ≡ out.old.items ++ flat_map (group_field max kinds.now None).spell groups.now) }
{
    for group in groups {
        put_group(out, max, kinds, group)?;
    }
    Ok(())
}

fn put_groups(
    out: &mut Vec<u8>,
    max: u16,
    kinds: &[Kind],
    groups: &[SavedGroup],
) -> Result<(), AllocError>
    requires few { length groups.now < 65536 }
    requires kinds { All (AreOfKinds kinds.now) groups.now }
    ensures { OnOk result (out.new.items ≡ out.old.items ++ (groups_field max kinds.now).spell groups.now) }
{
    put_u16(out, groups.len() as u16)?;
    put_group_list(out, max, kinds, groups)
}

/// What stands in a savepoint's bytes before its key groups.
///
/// # Errors
///
/// Only where memory runs out.
#[tactic(auto, unfolding(crate::specs::Layout::front_field, crate::specs::Fields::number_field, crate::specs::Fields::max_field))]
pub fn put_front(out: &mut Vec<u8>, contents: &Contents) -> Result<(), AllocError>
    requires { IsShort contents.now }
    ensures { OnOk result (out.new.items ≡ out.old.items ++ front_field.spell (front_of contents.now)) }
{
    put_u64(out, contents.number)?;
    put_record(out, contents.plan_record.as_slice())?;
    put_u16(out, contents.max)?;
    put_sources(out, contents.sources.as_slice())?;
    put_uid(out, contents.window_uid.as_str())?;
    put_kinds(out, contents.kinds.as_slice())
}

#[tactic(auto, unfolding(crate::specs::Layout::fields))]
fn put_contents(out: &mut Vec<u8>, contents: &Contents) -> Result<(), AllocError>
    requires { IsShort contents.now }
    ensures { OnOk result (out.new.items ≡ out.old.items ++ fields.spell (parts_of contents.now)) }
{
    put_front(out, contents)?;
    let kinds = contents.kinds.as_slice();
    put_groups(out, contents.max, kinds, contents.groups.as_slice())
}

/// The one spelling of a savepoint in the layout without an index.
///
/// # Errors
///
/// Only where memory runs out.
#[tactic(auto, unfolding(crate::specs::Layout::unindexed_format))]
pub fn encode(alloc: Global, savepoint: &Savepoint) -> Result<Vec<u8>, AllocError>
    ensures { IfOk result (λ bytes. bytes.items ≡ unindexed_bytes savepoint.now) }
{
    let mut out = Vec::new(alloc);
    put_bytes(&mut out, b"WSP1")?;
    put_contents(&mut out, savepoint.contents())?;
    Ok(out)
}
