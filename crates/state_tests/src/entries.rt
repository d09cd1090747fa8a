//! Entries give the numbers that they were given, whether each fits in 64 bits or one does not.

ghost use Rattle.std.specs.Prelude.{◌≡◌, length, IfOk, OnOk};
ghost use Rattle.std.specs.List.{All};
ghost use Rattle.savepoint_codec.specs.Numbers.{numbers_of};

use plan_model::Pane;
use savepoint_codec::{Entries, Entry, Numbers, put_entry_list};
use std::alloc::{AllocError, Global};
use std::test::Fail;

/// The greatest number of 64 bits, and the least.
const MOST: i128 = i64::MAX as i128;

const LEAST: i128 = i64::MIN as i128;

/// The numbers of some entries, all of 64 bits.
const NARROW: [[i128; 2]; 4] = [[0, 1], [-1, MOST], [LEAST, 5], [MOST, LEAST]];

/// Numbers that are not.
const BEYOND: [i128; 4] = [MOST + 1, LEAST - 1, i128::MAX, i128::MIN];

/// One more entry, with these numbers.
fn push(entries: &mut Entries, numbers: Numbers<'_>) -> Result<(), AllocError>
    requires two { length (numbers_of numbers) ≡ 2 }
    requires width { entries.old.width ≡ 2 }
    ensures width { OnOk result (entries.new.width ≡ 2) }
    ensures each { OnOk result (All (λ e. length e.total.numbers ≡ 2) entries.old.entries → All (λ e. length e.total.numbers ≡ 2) entries.new.entries) }
{
    let pane = Pane { start: 10, key: 1 };
    entries.push(Entry {
        pane,
        count: 2,
        numbers,
    })?;
    Ok(())
}

/// Entries with these numbers.
fn made(alloc: Global, pairs: &[[i128; 2]]) -> Result<Entries, AllocError>
    ensures width { IfOk result (λ entries. entries.width ≡ 2) }
    ensures each { IfOk result (λ entries. All (λ e. length e.total.numbers ≡ 2) entries.entries) }
{
    let mut entries = Entries::new(alloc, 2);
    entries.reserve(pairs.len())?;
    for pair in pairs {
        push(&mut entries, Numbers::Wide(pair))?;
    }
    Ok(entries)
}

/// The numbers of an entry, if it is there and has two.
fn numbers_at(entries: &Entries, place: usize) -> Option<[i128; 2]> {
    if place >= entries.len() {
        return None;
    }
    let numbers = entries.entry(place).numbers;
    if numbers.len() != 2 {
        return None;
    }
    let mut pair = [0; 2];
    numbers.copy_to(&mut pair);
    Some(pair)
}

/// The first place where entries have other numbers than these.
fn first_other(entries: &Entries, pairs: &[[i128; 2]]) -> Option<usize> {
    for (place, pair) in pairs.iter().enumerate() {
        if numbers_at(entries, place) != Some(*pair) {
            return Some(place);
        }
    }
    None
}

/// Whether the entries keep each number in 64 bits, as far as the first tells.
fn is_narrow(entries: &Entries) -> bool {
    0 < entries.len() && matches!(entries.entry(0).numbers, Numbers::Narrow(_))
}

/// Numbers of 64 bits, and in the middle one that is not.
fn with_one_beyond(alloc: Global, beyond: i128) -> Result<Vec<[i128; 2]>, AllocError> {
    let mut pairs = Vec::from_slice(alloc, &NARROW)?;
    pairs.push([7, beyond])?;
    pairs.extend_from_slice(&NARROW)?;
    Ok(pairs)
}

fn bytes_of(alloc: Global, entries: &Entries) -> Result<Vec<u8>, AllocError> {
    let mut bytes = Vec::new(alloc);
    put_entry_list(&mut bytes, entries)?;
    Ok(bytes)
}

#[test]
fn numbers_of_64_bits_are_kept_in_so_many(rt: HostRuntime) -> Result<(), Fail> {
    let entries = Box::new(rt.alloc(), made(rt.alloc(), &NARROW)?)?;
    assert_eq!(rt; entries.len(), NARROW.len());
    assert_eq!(rt; first_other(&entries, &NARROW), None);
    assert!(rt; is_narrow(&entries));
    Ok(())
}

#[test]
fn all_numbers_come_back_around_one_beyond(rt: HostRuntime) -> Result<(), Fail> {
    for beyond in BEYOND {
        let pairs = with_one_beyond(rt.alloc(), beyond)?;
        let entries = Box::new(rt.alloc(), made(rt.alloc(), &pairs)?)?;
        assert_eq!(rt; entries.len(), pairs.len(), "{beyond}");
        assert_eq!(rt; first_other(&entries, &pairs), None, "{beyond}");
        assert!(rt; !is_narrow(&entries), "{beyond}");
    }
    Ok(())
}

/// Whether entries with more behind them give the numbers of both.
fn are_joined(alloc: Global, front: &[[i128; 2]], back: &[[i128; 2]]) -> Result<bool, AllocError> {
    let mut entries = Box::new(alloc, made(alloc, front)?)?;
    let more = Box::new(alloc, made(alloc, back)?)?;
    entries.append(&more)?;
    let mut pairs = Vec::from_slice(alloc, front)?;
    pairs.extend_from_slice(back)?;
    Ok(entries.len() == pairs.len() && first_other(&entries, &pairs) == None)
}

#[test]
fn entries_go_behind_others(rt: HostRuntime) -> Result<(), Fail> {
    let alloc = rt.alloc();
    assert!(rt; are_joined(alloc, &[], &NARROW)?);
    assert!(rt; are_joined(alloc, &NARROW, &[])?);
    assert!(rt; are_joined(alloc, &NARROW, &NARROW)?);
    for beyond in BEYOND {
        let wide = with_one_beyond(alloc, beyond)?;
        assert!(rt; are_joined(alloc, &NARROW, &wide)?, "{beyond}");
        assert!(rt; are_joined(alloc, &wide, &NARROW)?, "{beyond}");
        assert!(rt; are_joined(alloc, &wide, &wide)?, "{beyond}");
    }
    Ok(())
}

/// Whether entries that are copied give the same numbers, and what is behind them does not go there as well.
fn are_copied(alloc: Global, pairs: &[[i128; 2]]) -> Result<bool, AllocError> {
    let mut entries = Box::new(alloc, made(alloc, pairs)?)?;
    let copied = Box::new(alloc, entries.copy(alloc)?)?;
    entries.append(&copied)?;
    Ok(
        copied.len() == pairs.len()
            && first_other(&copied, pairs) == None
            && entries.len() == 2 * pairs.len(),
    )
}

#[test]
fn entries_are_copied(rt: HostRuntime) -> Result<(), Fail> {
    let alloc = rt.alloc();
    assert!(rt; are_copied(alloc, &[])?);
    assert!(rt; are_copied(alloc, &NARROW)?);
    for beyond in BEYOND {
        let wide = with_one_beyond(alloc, beyond)?;
        assert!(rt; are_copied(alloc, &wide)?, "{beyond}");
    }
    Ok(())
}

#[test]
fn bytes_do_not_tell_how_numbers_are_kept(rt: HostRuntime) -> Result<(), Fail> {
    let narrow = bytes_of(rt.alloc(), &made(rt.alloc(), &NARROW)?)?;
    for beyond in BEYOND {
        let pairs = with_one_beyond(rt.alloc(), beyond)?;
        let wide = bytes_of(rt.alloc(), &made(rt.alloc(), &pairs)?)?;
        assert!(rt; wide.starts_with(&narrow), "{beyond}");
        assert!(rt; wide.ends_with(&narrow), "{beyond}");
    }
    Ok(())
}
