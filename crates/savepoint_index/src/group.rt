//! One key group's entries, read by the index.

ghost use Rattle.std.specs.Prelude.{◌≡◌, ◌≤◌, ℕ, List, codes, length, drop, None, Ok, Err};
ghost use Rattle.byte_fields.specs.Format.{mark};
ghost use Rattle.byte_fields.specs.Reads.{Reads, Gives};
ghost use Rattle.byte_fields.specs.declared.fault.ReadFault.TheVariants as read;
ghost use Rattle.savepoint_codec.specs.declared.fault.SaveFault.TheVariants as save;
ghost use Rattle.byte_fields.specs.Lists.{chain};
ghost use Rattle.byte_fields.specs.declared.fault.FieldFault.{FieldFault as FieldFaultValue};
ghost use Rattle.plan_model.specs.declared.limits.TheConstants.{MOST_AGGREGATES};
ghost use Rattle.savepoint_codec.specs.declared.savepoint.Contents.{Contents};
ghost use Rattle.savepoint_codec.specs.Answer.{save_fault};
ghost use Rattle.savepoint_codec.specs.Fields.{entry_after};
ghost use Rattle.savepoint_codec.specs.Layout.{IsSavepoint};
ghost use Rattle.savepoint_codec.specs.Reading.{entries_read};
ghost use Rattle.savepoint_index.specs.declared.head.GroupHead.{GroupHead as GroupHeadValue};
ghost use Rattle.savepoint_index.specs.Layout.{savepoint_bytes};
ghost use Rattle.savepoint_index.specs.Reading.{any_head, value_read};
ghost use Rattle.savepoint_index.specs.Answer.{head_of_group, entries_of_group, GivesEntries};

use crate::head::GroupHead;
use aggregates::Kind;
use byte_fields::{FieldFault, ReadFault, read_mark, read_u16, read_u64};
use savepoint_codec::{Entries, SaveFault, read_entry_list, read_front};
use std::alloc::Global;

/// A key group in the index, whatever its count and place.
#[tactic(auto, unfolding(crate::specs::Reading::any_head))]
fn read_any_head(bytes: &[u8]) -> Result<(GroupHead, &[u8]), FieldFault>
    ensures { Reads (λ x. (x.0, x.1.now)) result (any_head.read bytes.now) }
{
    let (group, rest) = read_u16(bytes)?;
    let (count, rest) = read_u64(rest)?;
    let (place, rest) = read_u64(rest)?;
    Ok((
        GroupHead {
            group,
            count,
            place,
        },
        rest,
    ))
}

/// The key group's place in an index of so many, if it has one.
fn find_head(count: u16, group: u32, bytes: &[u8]) -> Result<Option<GroupHead>, FieldFault>
    ensures { (x : List GroupHeadValue × List ℕ) → (chain (λ _. any_head) None count).read bytes.now ≡ Ok x → result ≡ Ok (head_of_group group x.0) }
{
    let mut rest = bytes;
    for _ in 0..count {
        let (head, after) = read_any_head(rest)?;
        if u32::from(head.group) == group {
            return Ok(Some(head));
        }
        rest = after;
    }
    Ok(None)
}

/// The entries that begin at a place in the bytes.
fn read_at(
    alloc: Global,
    kinds: &[Kind],
    head: GroupHead,
    bytes: &[u8],
) -> Result<Entries, ReadFault>
    requires { length kinds.now ≤ MOST_AGGREGATES }
    ensures { head.place ≤ length bytes.now → Gives (λ entries. entries) result (value_read (entries_read kinds.now ((chain (entry_after kinds.now) None head.count).read (drop head.place bytes.now)))) }
{
    if head.place > bytes.len() as u64 {
        return Err(ReadFault::Bytes(FieldFault::Truncated));
    }
    let (_, behind) = bytes.split_at(head.place as usize);
    let (entries, _) = read_entry_list(alloc, kinds, head.count, behind)?;
    Ok(entries)
}

/// The entries of a key group, read by the index alone.
fn read_group(alloc: Global, bytes: &[u8], group: u32) -> Result<Entries, ReadFault>
    ensures entries { (s : Contents) → IsSavepoint s → bytes.now ≡ savepoint_bytes s → GivesEntries read.Memory result (entries_of_group group s) }
    ensures marked { (fault : FieldFaultValue) → (mark (codes "WSP2")).read bytes.now ≡ Err fault → result ≡ Err (read.Bytes fault) }
{
    let rest = read_mark(b"WSP2", bytes)?;
    let (front, rest) = read_front(alloc, rest)?;
    let (count, rest) = read_u16(rest)?;
    match find_head(count, group, rest)? {
        None => Ok(Entries::new(alloc, front.kinds.len())),
        Some(head) => read_at(alloc, front.kinds.as_slice(), head, bytes),
    }
}

/// The entries of a key group, read by the index alone: none where the savepoint has none of that group.
/// The other groups' entries are not looked at. So bytes that are no savepoint with an index may be answered
/// with entries, or with the first fault that was met on the way.
///
/// # Errors
///
/// `Magic` or `Truncated` where the bytes do not begin as a savepoint with an index; the fault of a field that
/// cannot be read; `Memory`.
pub fn decode_group(alloc: Global, bytes: &[u8], group: u32) -> Result<Entries, SaveFault>
    ensures entries { (s : Contents) → IsSavepoint s → bytes.now ≡ savepoint_bytes s → GivesEntries save.Memory result (entries_of_group group s) }
    ensures marked { (fault : FieldFaultValue) → (mark (codes "WSP2")).read bytes.now ≡ Err fault → result ≡ Err (save_fault fault) }
{
    Ok(read_group(alloc, bytes, group)?)
}
