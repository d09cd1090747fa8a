//! A key group in the index.

ghost use Rattle.std.specs.Prelude.{◌≡◌, ◌==◌, ◌≤◌, Option, None};
ghost use Rattle.std.specs.Option.{option_map};
ghost use Rattle.byte_fields.specs.Reads.{Reads};
ghost use Rattle.savepoint_index.specs.Index.{place_after, head_field};

use byte_fields::{FieldFault, read_u64};
use savepoint_codec::read_group_number;

/// Which key group, how many entries it has, and where the first begins, in bytes from the front.
#[derive(Clone, Copy, Debug)]
pub(crate) struct GroupHead {
    pub group: u16,
    pub count: u64,
    pub place: u64,
}

/// The bytes of a key group in the index: two for its number, and eight each for a count and a place.
pub(crate) const HEAD_BYTES: u64 = 18;

/// The most bytes of an entry: eight each for a start, a key and a count, and sixteen for each of eight aggregates.
pub(crate) const MOST_BYTES: u64 = 152;

/// Whether entries of so many bytes begin at this place: behind those of the key group before, or at the first
/// place. Compared as whole numbers, so that no place is right past the greatest.
fn is_place(size: u64, first: u64, last: Option<GroupHead>, place: u64) -> bool
    requires { size ≤ MOST_BYTES }
    ensures { result ≡ (place == place_after size first last) }
{
    match last {
        None => place == first,
        Some(last) => {
            u128::from(place) == u128::from(last.place) + u128::from(size) * u128::from(last.count)
        }
    }
}

fn group_of(head: Option<GroupHead>) -> Option<u16>
    ensures { result ≡ option_map (λ h. h.group) head }
{
    match head {
        None => None,
        Some(head) => Some(head.group),
    }
}

/// A key group in the index, after the one before.
#[tactic(auto, unfolding(crate::specs::Index::head_field))]
pub(crate) fn read_head(
    max: u16,
    size: u64,
    first: u64,
    last: Option<GroupHead>,
    bytes: &[u8],
) -> Result<(GroupHead, &[u8]), FieldFault>
    requires { size ≤ MOST_BYTES }
    ensures { Reads (λ x. (x.0, x.1.now)) result ((head_field max size first last).read bytes.now) }
{
    let (group, rest) = read_group_number(max, group_of(last), bytes)?;
    let (count, rest) = read_u64(rest)?;
    if count == 0 {
        return Err(FieldFault::Order);
    }
    let (place, rest) = read_u64(rest)?;
    if !is_place(size, first, last, place) {
        return Err(FieldFault::Index);
    }
    Ok((
        GroupHead {
            group,
            count,
            place,
        },
        rest,
    ))
}
