//! A savepoint read from all of its bytes, in the layout without an index.

ghost use Rattle.std.specs.Prelude.{◌≡◌, ◌≤◌, true, length, IfOk, Ok};
ghost use Rattle.byte_fields.specs.Format.{whole};
ghost use Rattle.byte_fields.specs.Reads.{Gives as Read};
ghost use Rattle.savepoint_codec.specs.declared.savepoint.Contents.{Contents as ContentsValue};
ghost use Rattle.savepoint_codec.specs.Layout.{front_field, unindexed_format, IsSavepoint, unindexed_bytes};
ghost use Rattle.plan_model.specs.declared.limits.TheConstants.{MOST_AGGREGATES};
ghost use Rattle.savepoint_codec.specs.Answer.{Gives, unindexed_of_bytes};

use crate::fault::SaveFault;
use crate::fields::{read_kinds, read_max, read_number, read_record, read_sources};
use crate::groups::read_groups;
use crate::savepoint::{Contents, Front, Savepoint};
use byte_fields::{FieldFault, ReadFault, read_mark};
use plan_model::read_uid;
use std::alloc::Global;

/// What stands in a savepoint's bytes before its key groups, and the bytes behind it.
///
/// # Errors
///
/// The fault of the first field, from the front, that cannot be read; `Memory`.
#[tactic(auto, unfolding(crate::specs::Layout::front_field))]
pub fn read_front(alloc: Global, bytes: &[u8]) -> Result<(Front, &[u8]), ReadFault>
    ensures read { Read (λ x. (x.0, x.1.now)) result (front_field.read bytes.now) }
    ensures few { IfOk result (λ x. length x.0.kinds ≤ MOST_AGGREGATES) }
{
    let (number, rest) = read_number(bytes)?;
    let (plan_record, rest) = read_record(alloc, rest)?;
    let (max, rest) = read_max(rest)?;
    let (sources, rest) = read_sources(alloc, rest)?;
    let (window_uid, rest) = read_uid(alloc, rest)?;
    let (kinds, rest) = read_kinds(alloc, rest)?;
    let front = Front {
        number,
        plan_record,
        max,
        sources,
        window_uid,
        kinds,
    };
    Ok((front, rest))
}

#[tactic(auto, unfolding(crate::specs::Layout::unindexed_format, crate::specs::Layout::fields))]
fn read_contents(alloc: Global, bytes: &[u8]) -> Result<(Contents, &[u8]), ReadFault>
    ensures { Read (λ x. (x.0, x.1.now)) result (unindexed_format.read bytes.now) }
{
    let rest = read_mark(b"WSP1", bytes)?;
    let (front, rest) = read_front(alloc, rest)?;
    let (groups, rest) = read_groups(alloc, front.max, front.kinds.as_slice(), rest)?;
    Ok((front.with_groups(groups), rest))
}

fn read_whole(alloc: Global, bytes: &[u8]) -> Result<Contents, ReadFault>
    ensures { Read (λ contents. contents) result (whole unindexed_format bytes.now) }
{
    let (contents, rest) = read_contents(alloc, bytes)?;
    if !rest.is_empty() {
        return Err(ReadFault::Bytes(FieldFault::Trailing));
    }
    Ok(contents)
}

/// The savepoint that the bytes spell, all of them, in the layout without an index.
///
/// # Errors
///
/// The fault of the first field, from the front, that cannot be read; `Memory`. No count is trusted: room
/// is made for no more than the bytes can hold.
pub fn decode(alloc: Global, bytes: &[u8]) -> Result<Savepoint, SaveFault>
    ensures exact { Gives result (unindexed_of_bytes bytes.now) }
    // What is read is spelled so.
    ensures spelled { IfOk result (λ s. bytes.now ≡ unindexed_bytes s) }
    // What is spelled so is read, unless memory runs out.
    ensures read { (s : ContentsValue) → IsSavepoint s → bytes.now ≡ unindexed_bytes s → Gives result (Ok s) }
{
    let contents = read_whole(alloc, bytes)?;
    Ok(Savepoint::from_contents(contents))
}
