//! A savepoint put into bytes, with an index.

ghost use Rattle.std.specs.Prelude.{◌≡◌, ◌<◌, ◌≤◌, ◌+◌, ◌*◌, ◌++◌, length, OnOk, IfOk, IfSome};
ghost use Rattle.std.specs.List.{flat_map};
ghost use Rattle.savepoint_codec.specs.Writing.{IsShort};
ghost use Rattle.savepoint_index.specs.Index.{heads_of, indexed_groups};
ghost use Rattle.savepoint_index.specs.Layout.{indexed_fields, indexed_format, savepoint_bytes};
ghost use Rattle.plan_model.specs.declared.limits.TheConstants.{MOST_AGGREGATES};
ghost use Rattle.savepoint_index.specs.Writing.{head_bytes, group_bytes};

use crate::head::{GroupHead, HEAD_BYTES};
use byte_fields::{put_bytes, put_u16, put_u64};
use savepoint_codec::{Contents, SavedGroup, Savepoint, entry_size, put_entry_list, put_front};
use std::alloc::{AllocError, Global};

fn put_head(out: &mut Vec<u8>, head: GroupHead) -> Result<(), AllocError>
    ensures { OnOk result (out.new.items ≡ out.old.items ++ head_bytes head) }
{
    put_u16(out, head.group)?;
    put_u64(out, head.count)?;
    put_u64(out, head.place)
}

/// Where the entries behind so many of so many bytes begin, unless no memory has that many.
fn next_place(place: u64, size: u64, count: u64) -> Option<u64>
    ensures { IfSome result (λ next. next ≡ place + size * count) }
{
    size.checked_mul(count)?.checked_add(place)
}

/// The index of key groups whose entries, each of so many bytes, begin at a place. Gives where they end.
fn put_heads(
    out: &mut Vec<u8>,
    size: u64,
    first: u64,
    groups: &[SavedGroup],
) -> Result<u64, AllocError>
    ensures { OnOk result (out.new.items ≡ out.old.items ++ flat_map head_bytes (heads_of size first groups.now)) }
{
    let mut place = first;
    for group in groups {
        let count = group.entries.len() as u64;
        let head = GroupHead {
            group: group.group,
            count,
            place,
        };
        put_head(out, head)?;
        place = next_place(place, size, count).ok_or(AllocError)?;
    }
    Ok(place)
}

fn put_lists(out: &mut Vec<u8>, groups: &[SavedGroup]) -> Result<(), AllocError>
    ensures { OnOk result (out.new.items ≡ out.old.items ++ flat_map group_bytes groups.now) }
{
    for group in groups {
        put_entry_list(out, &group.entries)?;
    }
    Ok(())
}

/// Key groups with an index before them. Room for all entries is made at once.
fn put_groups(out: &mut Vec<u8>, contents: &Contents) -> Result<(), AllocError>
    requires short { IsShort contents.now }
    requires few { length contents.now.kinds ≤ MOST_AGGREGATES }
    ensures { OnOk result (out.new.items ≡ out.old.items ++ (indexed_groups contents.now.max contents.now.kinds (length out.old.items)).spell contents.now.groups) }
{
    let begin = out.len() as u64;
    let groups = contents.groups.as_slice();
    put_u16(out, groups.len() as u16)?;
    let first = begin + 2 + HEAD_BYTES * (groups.len() as u64);
    let size = entry_size(contents.kinds.as_slice().len()) as u64;
    let end = put_heads(out, size, first, groups)?;
    out.reserve_exact((end as usize).saturating_sub(out.len()))?;
    put_lists(out, groups)
}

/// The spelling of a savepoint with an index.
///
/// # Errors
///
/// Only where memory runs out.
#[tactic(auto, unfolding(crate::specs::Layout::indexed_format, crate::specs::Layout::indexed_fields))]
pub fn encode(alloc: Global, savepoint: &Savepoint) -> Result<Vec<u8>, AllocError>
    ensures { IfOk result (λ bytes. bytes.items ≡ savepoint_bytes savepoint.now) }
{
    let contents = savepoint.contents();
    let mut out = Vec::new(alloc);
    put_bytes(&mut out, b"WSP2")?;
    put_front(&mut out, contents)?;
    put_groups(&mut out, contents)?;
    Ok(out)
}
