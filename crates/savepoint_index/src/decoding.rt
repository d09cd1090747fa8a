//! A savepoint read from all of its bytes, in either layout.

ghost use Rattle.std.specs.Prelude.{◌≡◌, true, IfOk, Ok};
ghost use Rattle.byte_fields.specs.Format.{whole};
ghost use Rattle.byte_fields.specs.Reads.{Gives as Read};
ghost use Rattle.savepoint_codec.specs.declared.savepoint.Contents.{Contents as ContentsValue};
ghost use Rattle.savepoint_codec.specs.Answer.{Gives, fault_said};
ghost use Rattle.savepoint_codec.specs.Layout.{IsSavepoint};
ghost use Rattle.savepoint_index.specs.Layout.{indexed_format, has_index, Spells};
ghost use Rattle.savepoint_index.specs.Answer.{savepoint_of_bytes};

use crate::heads::read_groups;
use byte_fields::{FieldFault, ReadFault, read_mark};
use savepoint_codec::{Contents, SaveFault, Savepoint, decode as decode_unindexed, read_front};
use std::alloc::Global;

/// Whether bytes begin as those of a savepoint with an index.
fn is_indexed(bytes: &[u8]) -> bool
    ensures { result ≡ has_index bytes.now }
{
    match read_mark(b"WSP2", bytes) {
        Ok(_) => true,
        Err(_) => false,
    }
}

#[tactic(auto, unfolding(crate::specs::Layout::indexed_format, crate::specs::Layout::indexed_fields))]
fn read_contents(alloc: Global, bytes: &[u8]) -> Result<(Contents, &[u8]), ReadFault>
    ensures { Read (λ x. (x.0, x.1.now)) result (indexed_format.read bytes.now) }
{
    let rest = read_mark(b"WSP2", bytes)?;
    let (front, behind) = read_front(alloc, rest)?;
    let begin = (bytes.len() - behind.len()) as u64;
    let (groups, rest) = read_groups(alloc, front.max, front.kinds.as_slice(), begin, behind)?;
    Ok((front.with_groups(groups), rest))
}

fn read_whole(alloc: Global, bytes: &[u8]) -> Result<Contents, ReadFault>
    ensures { Read (λ contents. contents) result (whole indexed_format bytes.now) }
{
    let (contents, rest) = read_contents(alloc, bytes)?;
    if !rest.is_empty() {
        return Err(ReadFault::Bytes(FieldFault::Trailing));
    }
    Ok(contents)
}

fn decode_indexed(alloc: Global, bytes: &[u8]) -> Result<Savepoint, SaveFault>
    ensures { Gives result (fault_said (whole indexed_format bytes.now)) }
{
    let contents = read_whole(alloc, bytes)?;
    Ok(Savepoint::from_contents(contents))
}

/// The savepoint that the bytes spell, all of them, with an index or in the layout without one.
///
/// # Errors
///
/// The fault of the first field, from the front, that cannot be read; `Memory`. No count and no place is
/// trusted: room is made for no more than the bytes can hold.
pub fn decode(alloc: Global, bytes: &[u8]) -> Result<Savepoint, SaveFault>
    ensures exact { Gives result (savepoint_of_bytes bytes.now) }
    // What is read is spelled so.
    ensures spelled { IfOk result (λ s. Spells bytes.now s) }
    // What is spelled so is read, unless memory runs out.
    ensures read { (s : ContentsValue) → IsSavepoint s → Spells bytes.now s → Gives result (Ok s) }
{
    if is_indexed(bytes) {
        decode_indexed(alloc, bytes)
    } else {
        decode_unindexed(alloc, bytes)
    }
}
