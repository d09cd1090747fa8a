//! What stands in panes comes back as it was packed, as parts and as entries.

use aggregates::{Acc, Kind};
use packed_parts::{PackedParts, Packing, Part};
use plan_model::{MOST_AGGREGATES, Pane};
use savepoint_codec::Numbers;
use std::alloc::{AllocError, Global};
use std::test::Fail;

/// The greatest number of 64 bits, and the least.
const MOST: i128 = i64::MAX as i128;

const LEAST: i128 = i64::MIN as i128;

/// The kinds of the parts.
const KINDS: [Kind; 2] = [Kind::Sum, Kind::Least];

/// A sum and a least number of three records for each part, all of 64 bits.
const NARROW: [[i128; 2]; 3] = [[0, 1], [MOST, LEAST], [-5, MOST]];

/// The same, one of which is not.
const WIDE: [[i128; 2]; 3] = [[LEAST - 1, MOST], [3 * MOST, 0], [7, LEAST]];

/// As many records as each part has.
const COUNT: u64 = 3;

/// Packs one part more, and tells whether so many records can come to its numbers.
fn push(packing: &mut Packing, pane: Pane, numbers: &[i128]) -> Result<bool, AllocError> {
    let Some(acc) = Acc::from_parts(packing.kinds(), COUNT, numbers) else {
        return Ok(false);
    };
    packing.push(&Part { pane, acc })?;
    Ok(true)
}

/// Where part i stands.
fn pane_at(i: usize) -> Pane {
    Pane {
        start: -10,
        key: i64::try_from(i).unwrap_or(-1),
    }
}

/// Parts with these numbers, each in a pane of its own.
fn packed(alloc: Global, numbers: &[[i128; 2]]) -> Result<PackedParts, AllocError> {
    let mut packing = Packing::new(alloc, Vec::from_slice(alloc, &KINDS)?);
    for (i, pair) in numbers.iter().enumerate() {
        push(&mut packing, pane_at(i), pair)?;
    }
    Ok(PackedParts::from_packing(packing))
}

/// Whether numbers are these.
fn are(numbers: Numbers<'_>, pair: &[i128; 2]) -> bool {
    let mut room = [0; 2];
    if numbers.len() != 2 {
        return false;
    }
    numbers.copy_to(&mut room);
    room == *pair
}

/// The first place where no part with these numbers stands, as a part or as an entry.
fn first_other(parts: &PackedParts, numbers: &[[i128; 2]]) -> Option<usize> {
    for (i, pair) in numbers.iter().enumerate() {
        if i >= parts.len() {
            return Some(i);
        }
        let entry = parts.entry(i);
        let part = parts.part(i);
        let is_entry = entry.pane == pane_at(i) && entry.count == COUNT && are(entry.numbers, pair);
        let is_part = part.pane == pane_at(i) && part.acc.count() == COUNT;
        if !is_entry || !is_part || !are(Numbers::Wide(part.acc.numbers()), pair) {
            return Some(i);
        }
    }
    None
}

/// Whether the parts keep each number in 64 bits, as far as the first tells.
fn is_narrow(parts: &PackedParts) -> bool {
    0 < parts.len() && matches!(parts.entry(0).numbers, Numbers::Narrow(_))
}

#[test]
fn parts_are_entries(rt: HostRuntime) -> Result<(), Fail> {
    let parts = Box::new(rt.alloc(), packed(rt.alloc(), &NARROW)?)?;
    assert_eq!(rt; parts.len(), NARROW.len());
    assert_eq!(rt; first_other(&parts, &NARROW), None);
    assert!(rt; is_narrow(&parts));
    Ok(())
}

#[test]
fn parts_beyond_64_bits_are_entries(rt: HostRuntime) -> Result<(), Fail> {
    let parts = Box::new(rt.alloc(), packed(rt.alloc(), &WIDE)?)?;
    assert_eq!(rt; parts.len(), WIDE.len());
    assert_eq!(rt; first_other(&parts, &WIDE), None);
    assert!(rt; !is_narrow(&parts));
    Ok(())
}

#[test]
fn parts_are_copied(rt: HostRuntime) -> Result<(), Fail> {
    let alloc = rt.alloc();
    for numbers in [NARROW, WIDE] {
        let parts = Box::new(alloc, packed(alloc, &numbers)?)?;
        let copied = Box::new(alloc, parts.copy(alloc)?)?;
        assert_eq!(rt; copied.len(), numbers.len());
        assert_eq!(rt; first_other(&copied, &numbers), None);
        assert_eq!(rt; is_narrow(&copied), is_narrow(&parts));
    }
    Ok(())
}

#[test]
fn parts_of_all_kinds_fit(rt: HostRuntime) -> Result<(), Fail> {
    let alloc = rt.alloc();
    let kinds = [Kind::Sum; MOST_AGGREGATES];
    let packing = Packing::new(alloc, Vec::from_slice(alloc, &kinds)?);
    let mut packing = Box::new(alloc, packing)?;
    assert!(rt; push(&mut packing, pane_at(0), &[3 * MOST; MOST_AGGREGATES])?);
    let parts = PackedParts::from_packing(Box::into_inner(packing));
    let parts = Box::new(alloc, parts)?;
    assert_eq!(rt; parts.len(), 1);
    if 0 < parts.len() {
        assert_eq!(rt; parts.entry(0).numbers.len(), MOST_AGGREGATES);
    }
    Ok(())
}
