//! Reading the key groups of a savepoint, each field from the front of bytes.

ghost use Rattle.std.specs.Prelude.{◌≡◌, ◌<◌, ◌≤◌, ◌+◌, ◌*◌, ◌/◌, ◌^◌, ◌++◌, ◌∷◌, [], Ok, Option, None, length, min, IfOk, MatchResult};
ghost use Rattle.std.specs.Option.{option_map};
ghost use Rattle.byte_fields.specs.Reads.{Reads, Gives, Fails};
ghost use Rattle.byte_fields.specs.Lists.{chain, last_of};
ghost use Rattle.savepoint_codec.specs.Reading.{TakesOne, entries_read};
ghost use Rattle.savepoint_codec.specs.Fields.{number_of_kind, pane_field, is_pane_after, count_field, numbers_field, entry_field, entry_after, entries_field, group_number, is_number_after, group_field, group_after, groups_field};
ghost use Rattle.plan_model.specs.declared.limits.TheConstants.{MOST_AGGREGATES, MOST_RECORDS};

use crate::entries::{Entries, Entry};
use crate::numbers::Numbers;
use crate::savepoint::SavedGroup;
use aggregates::Kind;
use byte_fields::{FieldFault, ReadFault, read_i64, read_i128, read_u16, read_u64};
use plain_data::Items;
use plan_model::{MOST_AGGREGATES, MOST_RECORDS, Pane};
use std::alloc::Global;

#[tactic(auto, unfolding(crate::specs::Fields::pane_field))]
fn read_pane(bytes: &[u8]) -> Result<(Pane, &[u8]), FieldFault>
    ensures { Reads (λ x. (x.0, x.1.now)) result (pane_field.read bytes.now) }
{
    let (start, rest) = read_i64(bytes)?;
    let (key, rest) = read_i64(rest)?;
    Ok((Pane { start, key }, rest))
}

/// Whether a pane comes after the one before, if there is one.
fn is_after(last: Option<Pane>, pane: Pane) -> bool
    ensures { result ≡ is_pane_after last pane }
{
    match last {
        None => true,
        Some(last) => { last.start < pane.start || last.start == pane.start && last.key < pane.key }
    }
}

#[tactic(auto, unfolding(crate::specs::Fields::count_field))]
fn read_count(bytes: &[u8]) -> Result<(u64, &[u8]), FieldFault>
    ensures read { Reads (λ x. (x.0, x.1.now)) result (count_field.read bytes.now) }
    ensures few { IfOk result (λ x. x.0 ≤ MOST_RECORDS) }
{
    let (count, rest) = read_u64(bytes)?;
    if count < 1 || count > MOST_RECORDS {
        return Err(FieldFault::Range);
    }
    Ok((count, rest))
}

/// A number that so many records can come to.
#[tactic(auto, unfolding(crate::specs::Fields::number_of_kind))]
fn read_number_of(kind: Kind, count: u64, bytes: &[u8]) -> Result<(i128, &[u8]), FieldFault>
    requires { count ≤ MOST_RECORDS }
    ensures { Reads (λ x. (x.0, x.1.now)) result ((number_of_kind count kind).read bytes.now) }
{
    let (number, rest) = read_i128(bytes)?;
    if !kind.admits(count, number) {
        return Err(FieldFault::Range);
    }
    Ok((number, rest))
}

/// A number for each kind.
fn read_numbers<'a>(
    kinds: &[Kind],
    count: u64,
    bytes: &'a [u8],
    numbers: &mut [i128],
) -> Result<&'a [u8], FieldFault>
    requires few { count ≤ MOST_RECORDS }
    requires room { length numbers.old ≡ length kinds.now }
    ensures { Reads (λ rest. (numbers.new, rest.now)) result ((numbers_field kinds.now count).read bytes.now) }
{
    let mut rest = bytes;
    for (i, kind) in kinds.iter().enumerate() {
        let (number, after) = read_number_of(*kind, count, rest)?;
        numbers[i] = number;
        rest = after;
    }
    Ok(rest)
}

/// How many bytes an entry has: its pane, its count, and its numbers.
pub fn entry_size(width: usize) -> usize
    requires { width ≤ MOST_AGGREGATES }
    ensures { result ≡ 24 + 16 * width }
{
    24 + 16 * width
}

/// The least number of bytes of a key group: its number, the count of its entries, and one entry.
fn least_group_size(width: usize) -> usize
    requires { width ≤ MOST_AGGREGATES }
    ensures { result ≡ 34 + 16 * width }
{
    10 + entry_size(width)
}

/// For how many items room is made, each of at least so many bytes: no more than the bytes can hold.
fn room(count: u64, size: usize, bytes: &[u8]) -> usize
    requires { 0 < size }
    ensures { result ≡ min count (length bytes.now / size) }
{
    count.min((bytes.len() / size) as u64) as usize
}

/// An entry after the one before, put behind those that are there. Gives its pane.
#[tactic(auto, unfolding(crate::specs::Fields::entry_field))]
fn read_entry_onto<'a>(
    entries: &mut Entries,
    kinds: &[Kind],
    last: Option<Pane>,
    bytes: &'a [u8],
) -> Result<(Pane, &'a [u8]), ReadFault>
    requires width { entries.old.width ≡ length kinds.now }
    requires few { length kinds.now ≤ MOST_AGGREGATES }
    ensures { MatchResult result (λ x. TakesOne entries.old entries.new x.0 x.1.now ((entry_field kinds.now last).read bytes.now))
        (λ fault. Fails fault ((entry_field kinds.now last).read bytes.now)) }
{
    let (pane, rest) = read_pane(bytes)?;
    if !is_after(last, pane) {
        return Err(ReadFault::Bytes(FieldFault::Order));
    }
    let (count, rest) = read_count(rest)?;
    let mut numbers = [0; MOST_AGGREGATES];
    let rest = read_numbers(kinds, count, rest, &mut numbers[..kinds.len()])?;
    let numbers = &numbers[..kinds.len()];
    entries.push(Entry {
        pane,
        count,
        numbers: Numbers::Wide(numbers),
    })?;
    Ok((pane, rest))
}

/// So many entries, each after the one before, and the bytes behind them.
///
/// # Errors
///
/// The fault of the first field, from the front, that cannot be read; `Memory`. The count is not trusted:
/// room is made for no more than the bytes can hold.
pub fn read_entry_list<'a>(
    alloc: Global,
    kinds: &[Kind],
    count: u64,
    bytes: &'a [u8],
) -> Result<(Entries, &'a [u8]), ReadFault>
    requires { length kinds.now ≤ MOST_AGGREGATES }
    ensures { Gives (λ x. (x.0, x.1.now)) result (entries_read kinds.now ((chain (entry_after kinds.now) None count).read bytes.now)) }
{
    let mut entries = Entries::new(alloc, kinds.len());
    entries.reserve(room(count, entry_size(kinds.len()), bytes))?;
    let mut last = None;
    let mut rest = bytes;
    for _ in 0..count {
        let (pane, after) = read_entry_onto(&mut entries, kinds, last, rest)?;
        last = Some(pane);
        rest = after;
    }
    Ok((entries, rest))
}

/// The entries of a key group: at least one.
#[tactic(auto, unfolding(crate::specs::Fields::entries_field, byte_fields::specs::Lists::counted))]
fn read_entries<'a>(
    alloc: Global,
    kinds: &[Kind],
    bytes: &'a [u8],
) -> Result<(Entries, &'a [u8]), ReadFault>
    requires { length kinds.now ≤ MOST_AGGREGATES }
    ensures { Gives (λ x. (x.0, x.1.now)) result (entries_read kinds.now ((entries_field kinds.now).read bytes.now)) }
{
    let (count, rest) = read_u64(bytes)?;
    if count == 0 {
        return Err(ReadFault::Bytes(FieldFault::Order));
    }
    read_entry_list(alloc, kinds, count, rest)
}

/// Whether a number comes after the one before, if there is one.
fn is_number_above(last: Option<u16>, number: u16) -> bool
    ensures { result ≡ is_number_after last number }
{
    match last {
        None => true,
        Some(last) => last < number,
    }
}

/// The number of a key group of the plan's, after the one before, and the bytes behind it.
///
/// # Errors
///
/// `Truncated`, `Range` where the plan has no such group, `Order` where it is not above the one before.
#[tactic(auto, unfolding(crate::specs::Fields::group_number))]
pub fn read_group_number(
    max: u16,
    last: Option<u16>,
    bytes: &[u8],
) -> Result<(u16, &[u8]), FieldFault>
    ensures { Reads (λ x. (x.0, x.1.now)) result ((group_number max last).read bytes.now) }
{
    let (group, rest) = read_u16(bytes)?;
    if group >= max {
        return Err(FieldFault::Range);
    }
    if !is_number_above(last, group) {
        return Err(FieldFault::Order);
    }
    Ok((group, rest))
}

/// A key group after the one before.
#[tactic(auto, unfolding(crate::specs::Fields::group_field))]
fn read_group<'a>(
    alloc: Global,
    max: u16,
    kinds: &[Kind],
    last: Option<u16>,
    bytes: &'a [u8],
) -> Result<(SavedGroup, &'a [u8]), ReadFault>
    requires { length kinds.now ≤ MOST_AGGREGATES }
    ensures { Gives (λ x. (x.0, x.1.now)) result ((group_field max kinds.now last).read bytes.now) }
{
    let (group, rest) = read_group_number(max, last, bytes)?;
    let (entries, rest) = read_entries(alloc, kinds, rest)?;
    Ok((SavedGroup { group, entries }, rest))
}

/// The number of the last key group, if there is one.
fn last_group(groups: &[SavedGroup]) -> Option<u16>
    ensures { result ≡ option_map (λ g. g.group) (last_of groups.now) }
{
    match groups.last() {
        Some(group) => Some(group.group),
        None => None,
    }
}

fn read_group_list<'a>(
    alloc: Global,
    max: u16,
    kinds: &[Kind],
    count: u16,
    bytes: &'a [u8],
) -> Result<(Vec<SavedGroup>, &'a [u8]), ReadFault>
    requires { length kinds.now ≤ MOST_AGGREGATES }
    ensures { Gives (λ x. (x.0.items, x.1.now)) result ((chain (group_after max kinds.now) None count).read bytes.now) }
{
    let mut groups = Vec::new(alloc);
    groups.reserve_exact(room(u64::from(count), least_group_size(kinds.len()), bytes))?;
    let mut rest = bytes;
    for _ in 0..count {
        let (group, after) = read_group(alloc, max, kinds, last_group(&groups), rest)?;
        groups.push(group)?;
        rest = after;
    }
    Ok((groups, rest))
}

/// The key groups.
#[tactic(auto, unfolding(crate::specs::Fields::groups_field, byte_fields::specs::Lists::counted))]
pub(crate) fn read_groups<'a>(
    alloc: Global,
    max: u16,
    kinds: &[Kind],
    bytes: &'a [u8],
) -> Result<(Items<SavedGroup>, &'a [u8]), ReadFault>
    requires { length kinds.now ≤ MOST_AGGREGATES }
    ensures { Gives (λ x. (x.0, x.1.now)) result ((groups_field max kinds.now).read bytes.now) }
{
    let (count, rest) = read_u16(bytes)?;
    let (groups, rest) = read_group_list(alloc, max, kinds, count, rest)?;
    Ok((Items::from_vec(groups), rest))
}
