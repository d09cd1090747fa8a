//! The bytes of a savepoint in both layouts, cut at each place, and with each byte changed.

use crate::indexed::{in_new, in_old};
use savepoint_codec::{SaveFault, Savepoint};
use savepoint_index::{decode, encode};
use std::alloc::{AllocError, Global};
use std::test::Fail;

/// A savepoint of one source with two partitions, in which one record stands in a window: its fields before the entry,
/// but for the mark in front.
const FIELDS: &[&[u8]] = &[
    b"\0\0\0\0\0\0\0\x01",
    b"\0\x2b",
    b"\x03\0\x80\0\x01",
    b"\0\0\0\0\0\0\0\x0a\0\0\0\0\0\0\0\x0a\0\0\0\0\0\0\0\0",
    b"\x01\x01s\0\x04\0\0\x01\x02\x02\x02\x03\x02\0",
    b"\0\x80",
    b"\x01\x01s",
    b"\x02\0\0\0\0\0\0\0\x02\0\0\0\0\0\0\0\x09\0\0\0\0\0\0\0\x02\0\0\0\0\0\0\0\x0b",
    b"\x01w",
    b"\x04\0\x01\x02\x03",
    b"\0\x01\0\x56\0\0\0\0\0\0\0\x01",
];

/// The entry, behind its count or its place.
const ENTRY: &[&[u8]] = &[
    b"\0\0\0\0\0\0\0\x0a\0\0\0\0\0\0\0\x01",
    b"\0\0\0\0\0\0\0\x01",
    b"\0\0\0\0\0\0\0\0\0\0\0\0\0\0\0\x01",
    b"\0\0\0\0\0\0\0\0\0\0\0\0\0\0\0\x07",
    b"\0\0\0\0\0\0\0\0\0\0\0\0\0\0\0\x07",
    b"\0\0\0\0\0\0\0\0\0\0\0\0\0\0\0\x07",
];

fn extend(bytes: &mut Vec<u8>, fields: &[&[u8]]) -> Result<(), Fail> {
    for field in fields {
        bytes.extend_from_slice(field)?;
    }
    Ok(())
}

/// The savepoint in the layout without an index.
fn unindexed(alloc: Global) -> Result<Vec<u8>, Fail> {
    let mut bytes = Vec::new(alloc);
    extend(&mut bytes, &[b"WSP1"])?;
    extend(&mut bytes, FIELDS)?;
    extend(&mut bytes, ENTRY)?;
    Ok(bytes)
}

/// The savepoint in the layout with one: the entry begins at byte 122.
fn indexed(alloc: Global) -> Result<Vec<u8>, Fail> {
    let mut bytes = Vec::new(alloc);
    extend(&mut bytes, &[b"WSP2"])?;
    extend(&mut bytes, FIELDS)?;
    extend(&mut bytes, &[b"\0\0\0\0\0\0\0\x7a"])?;
    extend(&mut bytes, ENTRY)?;
    Ok(bytes)
}

/// How many of some bytes are savepoints, how many have each fault, and how many are savepoints that are spelled
/// otherwise.
#[derive(Clone, Copy, Debug, PartialEq, Eq)]
struct Tally {
    accepted: u32,
    magic: u32,
    truncated: u32,
    trailing: u32,
    order: u32,
    range: u32,
    index: u32,
    memory: u32,
    misspelled: u32,
}

const NONE: Tally = Tally {
    accepted: 0,
    magic: 0,
    truncated: 0,
    trailing: 0,
    order: 0,
    range: 0,
    index: 0,
    memory: 0,
    misspelled: 0,
};

impl Tally {
    /// Where what bytes come to is counted: a fault, or whether they are spelled as their savepoint is.
    fn place(&mut self, answer: Result<bool, SaveFault>) -> &mut u32 {
        match answer {
            Ok(true) => &mut self.accepted,
            Ok(false) => &mut self.misspelled,
            Err(SaveFault::Magic) => &mut self.magic,
            Err(SaveFault::Truncated) => &mut self.truncated,
            Err(SaveFault::Trailing) => &mut self.trailing,
            Err(SaveFault::Order) => &mut self.order,
            Err(SaveFault::Range) => &mut self.range,
            Err(SaveFault::Index) => &mut self.index,
            Err(SaveFault::Memory) => &mut self.memory,
        }
    }
}

/// How a savepoint is spelled in the layout that bytes begin with.
fn spelled(alloc: Global, savepoint: &Savepoint, bytes: &[u8]) -> Result<Vec<u8>, AllocError> {
    if bytes.starts_with(b"WSP1") {
        savepoint_codec::encode(alloc, savepoint)
    } else {
        encode(alloc, savepoint)
    }
}

/// Whether bytes are spelled as a savepoint is.
fn is_spelled(alloc: Global, savepoint: &Savepoint, bytes: &[u8]) -> Result<bool, SaveFault> {
    match spelled(alloc, savepoint, bytes) {
        Ok(spelled) => Ok(spelled.as_slice() == bytes),
        Err(_) => Err(SaveFault::Memory),
    }
}

/// Whether bytes are spelled as the savepoint that they are.
fn is_well_spelled(alloc: Global, bytes: &[u8]) -> Result<bool, SaveFault> {
    let savepoint = decode(alloc, bytes)?;
    is_spelled(alloc, &savepoint, bytes)
}

/// Counts what bytes come to.
fn count(alloc: Global, tally: &mut Tally, bytes: &[u8]) {
    let counted = tally.place(is_well_spelled(alloc, bytes));
    *counted = counted.saturating_add(1);
}

/// What comes of each proper prefix of bytes.
fn prefixes(alloc: Global, bytes: &[u8]) -> Tally {
    let mut tally = NONE;
    for length in 0..bytes.len() {
        count(alloc, &mut tally, &bytes[..length]);
    }
    tally
}

#[test]
fn each_front_is_truncated(rt: HostRuntime) -> Result<(), Fail> {
    for (bytes, truncated) in [(unindexed(rt.alloc())?, 202), (indexed(rt.alloc())?, 210)] {
        let tally = prefixes(rt.alloc(), &bytes);
        assert_eq!(rt; tally, Tally { truncated, ..NONE });
    }
    Ok(())
}

/// Counts what comes of each other value of the byte at a place, which stays as it was.
fn count_changes(alloc: Global, tally: &mut Tally, bytes: &mut [u8], place: usize) {
    let Some(kept) = bytes.get(place).copied() else {
        return;
    };
    for byte in 0..=u8::MAX {
        if byte != kept {
            bytes[place] = byte;
            count(alloc, tally, bytes);
        }
    }
    bytes[place] = kept;
}

/// What comes of bytes with each byte as each other.
fn changes(alloc: Global, bytes: &mut [u8]) -> Tally {
    let mut tally = NONE;
    for place in 0..bytes.len() {
        count_changes(alloc, &mut tally, bytes, place);
    }
    tally
}

// How many there are of each is what the model says, scripts/model. One change of the mark makes it that of the other
// layout.
const OF_UNINDEXED: Tally = Tally {
    accepted: 31_483,
    magic: 1_019,
    truncated: 2_931,
    trailing: 1,
    order: 1,
    range: 16_074,
    index: 1,
    ..NONE
};

const OF_INDEXED: Tally = Tally {
    accepted: 31_483,
    magic: 1_019,
    truncated: 2_411,
    trailing: 1,
    order: 1,
    range: 16_083,
    index: 2_552,
    ..NONE
};

#[test]
fn each_byte_as_each_other(rt: HostRuntime) -> Result<(), Fail> {
    let mut bytes = unindexed(rt.alloc())?;
    assert_eq!(rt; changes(rt.alloc(), &mut bytes), OF_UNINDEXED);
    Ok(())
}

#[test]
fn each_byte_as_each_other_with_an_index(rt: HostRuntime) -> Result<(), Fail> {
    let mut bytes = indexed(rt.alloc())?;
    assert_eq!(rt; changes(rt.alloc(), &mut bytes), OF_INDEXED);
    Ok(())
}

/// What is read without an index is written with one, and the other way round.
#[test]
fn each_layout_as_the_other(rt: HostRuntime) -> Result<(), Fail> {
    let (old, new) = (unindexed(rt.alloc())?, indexed(rt.alloc())?);
    assert_eq!(rt; (old.len(), new.len()), (202, 210));
    assert_eq!(rt; in_new(rt.alloc(), &old)?.as_slice(), new.as_slice());
    assert_eq!(rt; in_old(rt.alloc(), &new)?.as_slice(), old.as_slice());
    Ok(())
}
