//! The index, and the entries behind it, read from the front of bytes.

ghost use Rattle.std.specs.Prelude.{◌≡◌, ◌≤◌, ◌<◌, ◌+◌, ◌*◌, ◌^◌, None, length, Option};
ghost use Rattle.byte_fields.specs.Reads.{Gives};
ghost use Rattle.byte_fields.specs.Lists.{chain, last_of};
ghost use Rattle.savepoint_index.specs.Index.{head_field, lists_field, indexed_groups, entry_length, first_place};
ghost use Rattle.savepoint_index.specs.Reading.{groups_read};
ghost use Rattle.plan_model.specs.declared.limits.TheConstants.{MOST_AGGREGATES};

use crate::head::{GroupHead, HEAD_BYTES, MOST_BYTES, read_head};
use aggregates::Kind;
use byte_fields::{ReadFault, read_u16};
use plain_data::Items;
use plan_model::MOST_AGGREGATES;
use savepoint_codec::{SavedGroup, entry_size, read_entry_list};
use std::alloc::Global;

/// The last key group of an index, if there is one.
fn last_head(heads: &[GroupHead]) -> Option<GroupHead>
    ensures { result ≡ last_of heads.now }
{
    match heads.last() {
        Some(head) => Some(*head),
        None => None,
    }
}

/// The index of so many key groups. Room is made for no more than the bytes can hold.
fn read_heads(
    alloc: Global,
    max: u16,
    size: u64,
    first: u64,
    count: u16,
    bytes: &[u8],
) -> Result<(Vec<GroupHead>, &[u8]), ReadFault>
    requires { size ≤ MOST_BYTES }
    ensures { Gives (λ x. (x.0.items, x.1.now)) result ((chain (head_field max size first) None count).read bytes.now) }
{
    let mut heads = Vec::new(alloc);
    heads.reserve_exact(usize::from(count).min(bytes.len() / HEAD_BYTES as usize))?;
    let mut rest = bytes;
    for _ in 0..count {
        let (head, after) = read_head(max, size, first, last_head(&heads), rest)?;
        heads.push(head)?;
        rest = after;
    }
    Ok((heads, rest))
}

/// The entries of each key group in the index.
fn read_lists<'a>(
    alloc: Global,
    kinds: &[Kind],
    heads: &[GroupHead],
    bytes: &'a [u8],
) -> Result<(Vec<SavedGroup>, &'a [u8]), ReadFault>
    requires { length kinds.now ≤ MOST_AGGREGATES }
    ensures { Gives (λ x. (x.0.items, x.1.now)) result (groups_read kinds.now heads.now ((lists_field kinds.now heads.now).read bytes.now)) }
{
    let mut groups = Vec::new(alloc);
    groups.reserve_exact(heads.len())?;
    let mut rest = bytes;
    for head in heads {
        let (entries, after) = read_entry_list(alloc, kinds, head.count, rest)?;
        groups.push(SavedGroup {
            group: head.group,
            entries,
        })?;
        rest = after;
    }
    Ok((groups, rest))
}

/// The key groups, where so many bytes stand before them.
#[tactic(auto, unfolding(crate::specs::Index::indexed_groups, crate::specs::Index::indexed_field))]
pub(crate) fn read_groups<'a>(
    alloc: Global,
    max: u16,
    kinds: &[Kind],
    begin: u64,
    bytes: &'a [u8],
) -> Result<(Items<SavedGroup>, &'a [u8]), ReadFault>
    requires few { length kinds.now ≤ MOST_AGGREGATES }
    requires short { begin < 2 ^ 63 }
    ensures { Gives (λ x. (x.0, x.1.now)) result ((indexed_groups max kinds.now begin).read bytes.now) }
{
    let (count, rest) = read_u16(bytes)?;
    let first = begin + 2 + HEAD_BYTES * u64::from(count);
    let size = entry_size(kinds.len()) as u64;
    let (heads, rest) = read_heads(alloc, max, size, first, count, rest)?;
    let (groups, rest) = read_lists(alloc, kinds, heads.as_slice(), rest)?;
    Ok((Items::from_vec(groups), rest))
}
