//! Savepoints made by chance, read and written in both layouts, by key group, and with an index that is wrong.

use crate::chance::{Made, make};
use savepoint_codec::{Entries, SaveFault, put_entry_list};
use savepoint_index::{decode, decode_group, encode};
use std::alloc::{AllocError, Global};
use std::test::Fail;

/// How many savepoints are made.
const SAVEPOINTS: u64 = 60;

fn bytes_of(alloc: Global, entries: &Entries) -> Result<Vec<u8>, AllocError> {
    let mut bytes = Vec::new(alloc);
    put_entry_list(&mut bytes, entries)?;
    Ok(bytes)
}

/// The savepoint that bytes are, in the layout without an index.
pub(crate) fn in_old(alloc: Global, bytes: &[u8]) -> Result<Vec<u8>, Fail> {
    let savepoint = decode(alloc, bytes)?;
    Ok(savepoint_codec::encode(alloc, &savepoint)?)
}

/// The savepoint that bytes are, in the layout with one.
pub(crate) fn in_new(alloc: Global, bytes: &[u8]) -> Result<Vec<u8>, Fail> {
    let savepoint = decode(alloc, bytes)?;
    Ok(encode(alloc, &savepoint)?)
}

/// Whether bytes are the savepoint that is written so in both layouts.
fn is_read(alloc: Global, bytes: &[u8], old: &[u8], new: &[u8]) -> Result<bool, Fail> {
    let is_old = in_old(alloc, bytes)?.as_slice() == old;
    let is_new = in_new(alloc, bytes)?.as_slice() == new;
    Ok(is_old && is_new)
}

/// Whether the bytes of each layout are read as the savepoint that is written so in both.
fn are_read(alloc: Global, made: &Made) -> Result<[bool; 2], Fail> {
    let old = made.unindexed(alloc)?;
    let new = made.indexed(alloc)?;
    Ok([
        is_read(alloc, &old, &old, &new)?,
        is_read(alloc, &new, &old, &new)?,
    ])
}

/// The key groups of a savepoint, and some that it cannot have.
fn asked(alloc: Global, made: &Made) -> Result<Vec<u32>, AllocError> {
    let mut groups = Vec::from_slice(alloc, &[32_767, 65_536, u32::MAX])?;
    for group in 0..=u32::from(made.max) {
        groups.push(group)?;
    }
    Ok(groups)
}

/// The bytes of the entries of a key group that is read by the index.
fn entries_in(alloc: Global, bytes: &[u8], group: u32) -> Result<Vec<u8>, Fail> {
    let entries = decode_group(alloc, bytes, group)?;
    Ok(bytes_of(alloc, &entries)?)
}

/// The first key group that has other entries by the index than were written of it, or some though it is not there.
fn misread(alloc: Global, made: &Made) -> Result<Option<u32>, Fail> {
    let bytes = made.indexed(alloc)?;
    for group in asked(alloc, made)? {
        let entries = entries_in(alloc, &bytes, group)?;
        if entries.as_slice() != made.entries_of(group) {
            return Ok(Some(group));
        }
    }
    Ok(None)
}

#[test]
fn each_layout_and_each_group_is_read(rt: HostRuntime) -> Result<(), Fail> {
    for seed in 0..SAVEPOINTS {
        let made = make(rt.alloc(), seed)?;
        assert_eq!(rt; are_read(rt.alloc(), &made)?, [true; 2], "savepoint {seed}");
        assert_eq!(rt; misread(rt.alloc(), &made)?, None, "savepoint {seed}");
    }
    Ok(())
}

/// Bytes without an index have no group to read by it, whatever stands behind the mark; nor have those that break off
/// in it.
#[test]
fn no_group_without_an_index(rt: HostRuntime) -> Result<(), Fail> {
    let old = make(rt.alloc(), 1)?.unindexed(rt.alloc())?;
    let cases: [(&[u8], SaveFault); 6] = [
        (&old, SaveFault::Magic),
        (b"WSP1", SaveFault::Magic),
        (b"WSP3", SaveFault::Magic),
        (b"wsp2", SaveFault::Magic),
        (b"WSP", SaveFault::Truncated),
        (b"", SaveFault::Truncated),
    ];
    for (bytes, fault) in cases {
        assert_eq!(rt;
            decode_group(rt.alloc(), bytes, 0).err(),
            Some(fault),
            "{bytes:?}"
        );
    }
    Ok(())
}

/// What comes of bytes, if they are no savepoint.
fn fault_of(alloc: Global, bytes: &[u8]) -> Option<SaveFault> {
    decode(alloc, bytes).err()
}

/// The length of the first front of bytes that is not said to be cut short.
fn mistaken_front(alloc: Global, bytes: &[u8]) -> Option<usize> {
    for length in 0..bytes.len() {
        if fault_of(alloc, &bytes[..length]) != Some(SaveFault::Truncated) {
            return Some(length);
        }
    }
    None
}

#[test]
fn each_front_is_truncated(rt: HostRuntime) -> Result<(), Fail> {
    for seed in 0..6 {
        let bytes = make(rt.alloc(), seed)?.indexed(rt.alloc())?;
        assert_eq!(rt;
            mistaken_front(rt.alloc(), &bytes),
            None,
            "savepoint {seed}"
        );
    }
    Ok(())
}

/// Adds so many to the number of eight bytes at a place.
fn add_at(bytes: &mut [u8], at: usize, more: u64) {
    let mut number: u64 = 0;
    for i in 0..8 {
        let byte = bytes.get(at.wrapping_add(i)).copied().unwrap_or(0);
        number = number.wrapping_mul(256).wrapping_add(u64::from(byte));
    }
    let changed = number.wrapping_add(more).to_be_bytes();
    for (i, byte) in changed.iter().enumerate() {
        if let Some(place) = bytes.get_mut(at.wrapping_add(i)) {
            *place = *byte;
        }
    }
}

/// What comes of the bytes of a savepoint in which the number at a place has so many added.
fn fault_of_change(
    alloc: Global,
    made: &Made,
    at: usize,
    more: u64,
) -> Result<Option<SaveFault>, Fail> {
    let mut bytes = made.indexed(alloc)?;
    add_at(&mut bytes, at, more);
    Ok(fault_of(alloc, &bytes))
}

/// The first of some numbers that is added at a place and not met with a fault.
fn missed(
    alloc: Global,
    made: &Made,
    at: usize,
    added: &[u64],
    fault: SaveFault,
) -> Result<Option<u64>, Fail> {
    for more in added {
        if fault_of_change(alloc, made, at, *more)? != Some(fault) {
            return Ok(Some(*more));
        }
    }
    Ok(None)
}

/// A place that is taken though it is not the right one: one byte too few or too many, one entry too far, or half of
/// all bytes.
fn missed_place(alloc: Global, made: &Made) -> Result<Option<(usize, u64)>, Fail> {
    let added = [1, u64::MAX, made.entry_size, 1 << 63];
    for i in 0..made.groups.len() {
        let place = made.head_place(i).wrapping_add(10);
        if let Some(more) = missed(alloc, made, place, &added, SaveFault::Index)? {
            return Ok(Some((i, more)));
        }
    }
    Ok(None)
}

/// A count that is taken though its entries pass the end of 64 bits and have no place behind them, also where their
/// bytes come to the right one by wrapping. Behind the last key group stands no place, so its entries break off.
fn missed_count(alloc: Global, made: &Made) -> Result<Option<(usize, u64)>, Fail> {
    for i in 0..made.groups.len() {
        let is_last = i.saturating_add(1) == made.groups.len();
        let wanted = if is_last {
            SaveFault::Truncated
        } else {
            SaveFault::Index
        };
        let count = made.head_place(i).wrapping_add(2);
        if let Some(more) = missed(alloc, made, count, &[1 << 61, 1 << 63, 7 << 61], wanted)? {
            return Ok(Some((i, more)));
        }
    }
    Ok(None)
}

#[test]
fn no_wrong_place_or_count_is_taken(rt: HostRuntime) -> Result<(), Fail> {
    for seed in 0..SAVEPOINTS {
        let made = make(rt.alloc(), seed)?;
        assert_eq!(rt; missed_place(rt.alloc(), &made)?, None, "savepoint {seed}");
        assert_eq!(rt; missed_count(rt.alloc(), &made)?, None, "savepoint {seed}");
    }
    Ok(())
}
