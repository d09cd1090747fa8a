//! Savepoints made by chance, as bytes in both layouts that are put together here.

use std::alloc::{AllocError, Global};

/// Numbers that look like chance: the same in each run.
#[derive(Drop)]
struct Numbers {
    state: u64,
}

impl Numbers {
    fn new(seed: u64) -> Numbers {
        let state = seed
            .wrapping_mul(0x9e37_79b9_7f4a_7c15)
            .wrapping_add(0x2545_f491_4f6c_dd1d);
        Numbers { state }
    }

    fn next(&mut self) -> u64 {
        let mut x = self.state;
        x ^= x << 13;
        x ^= x >> 7;
        x ^= x << 17;
        self.state = x;
        x
    }

    fn byte(&mut self) -> u8 {
        (self.next() / 65_536 % 256) as u8
    }

    /// From 1 to so many.
    fn within(&mut self, most: u8) -> u8 {
        (self.byte() % most.max(1)).saturating_add(1)
    }

    fn signed(&mut self) -> i64 {
        i64::from_be_bytes(self.next().to_be_bytes())
    }
}

/// What stands in a key group: its number, how many entries it has, and their bytes.
#[derive(Drop)]
pub(crate) struct MadeGroup {
    pub group: u16,
    pub count: u64,
    pub entries: Vec<u8>,
}

/// How many bytes a key group has in the index: its number, how many entries it has, and the place of the first.
pub(crate) const HEAD_SIZE: usize = 18;

/// A savepoint: the bytes behind the mark and before the key groups, how many key groups the plan has, how many bytes
/// an entry has, and the key groups that have entries.
#[derive(Drop)]
pub(crate) struct Made {
    pub front: Vec<u8>,
    pub max: u16,
    pub entry_size: u64,
    pub groups: Vec<MadeGroup>,
}

/// The code of the kind of aggregate whose number is the count.
const COUNT: u8 = 0;

/// The codes of so many kinds of aggregates.
fn kinds(alloc: Global, numbers: &mut Numbers, width: u8) -> Result<Vec<u8>, AllocError> {
    let mut kinds = Vec::new(alloc);
    for _ in 0..width {
        kinds.push(numbers.byte() % 4)?;
    }
    Ok(kinds)
}

fn put_sources(front: &mut Vec<u8>, numbers: &mut Numbers) -> Result<(), AllocError> {
    let count = numbers.within(3);
    front.push(count)?;
    for source in 0..count {
        let partitions = numbers.within(4);
        front.extend_from_slice(&[1, b'a'.saturating_add(source), partitions])?;
        for _ in 0..partitions {
            front.extend_from_slice(&numbers.next().to_be_bytes())?;
            front.extend_from_slice(&numbers.next().to_be_bytes())?;
        }
    }
    Ok(())
}

fn put_record(front: &mut Vec<u8>, numbers: &mut Numbers) -> Result<(), AllocError> {
    let count = numbers.within(60);
    front.extend_from_slice(&[0, count])?;
    for _ in 0..count {
        front.push(numbers.byte())?;
    }
    Ok(())
}

fn front(
    alloc: Global,
    numbers: &mut Numbers,
    max: u16,
    width: u8,
    kinds: &[u8],
) -> Result<Vec<u8>, AllocError> {
    let mut front = Vec::new(alloc);
    let number = numbers.next().max(1);
    front.extend_from_slice(&number.to_be_bytes())?;
    put_record(&mut front, numbers)?;
    front.extend_from_slice(&max.to_be_bytes())?;
    put_sources(&mut front, numbers)?;
    front.extend_from_slice(&[1, b'w', width])?;
    front.extend_from_slice(kinds)?;
    Ok(front)
}

/// An entry whose window begins at a time.
fn put_entry(
    entries: &mut Vec<u8>,
    numbers: &mut Numbers,
    start: i64,
    kinds: &[u8],
) -> Result<(), AllocError> {
    let count = u64::from(numbers.within(9));
    entries.extend_from_slice(&start.to_be_bytes())?;
    entries.extend_from_slice(&numbers.next().to_be_bytes())?;
    entries.extend_from_slice(&count.to_be_bytes())?;
    for kind in kinds {
        let number = match *kind {
            COUNT => i128::from(count),
            _ => i128::from(numbers.signed()),
        };
        entries.extend_from_slice(&number.to_be_bytes())?;
    }
    Ok(())
}

fn made_group(
    alloc: Global,
    numbers: &mut Numbers,
    group: u16,
    kinds: &[u8],
) -> Result<MadeGroup, AllocError> {
    let mut entries = Vec::new(alloc);
    let count = numbers.within(4);
    let mut start: i64 = -20;
    for _ in 0..count {
        put_entry(&mut entries, numbers, start, kinds)?;
        start = start.wrapping_add(10);
    }
    Ok(MadeGroup {
        group,
        count: u64::from(count),
        entries,
    })
}

/// About a quarter of so many key groups.
fn made_groups(
    alloc: Global,
    numbers: &mut Numbers,
    max: u16,
    kinds: &[u8],
) -> Result<Vec<MadeGroup>, AllocError> {
    let mut groups = Vec::new(alloc);
    for number in 0..max {
        if numbers.within(4) == 1 {
            groups.push(made_group(alloc, numbers, number, kinds)?)?;
        }
    }
    Ok(groups)
}

/// The savepoint of a seed. Some have no entries at all.
pub(crate) fn make(alloc: Global, seed: u64) -> Result<Made, AllocError> {
    let mut numbers = Numbers::new(seed);
    let max = u16::from(numbers.within(40));
    let width = numbers.within(8);
    let kinds = kinds(alloc, &mut numbers, width)?;
    let front = front(alloc, &mut numbers, max, width, &kinds)?;
    let groups = made_groups(alloc, &mut numbers, max, &kinds)?;
    Ok(Made {
        front,
        max,
        entry_size: 24 + 16 * u64::from(width),
        groups,
    })
}

impl Made {
    fn group_count(&self) -> u16 {
        u16::try_from(self.groups.len()).unwrap_or(u16::MAX)
    }

    /// The bytes before the key groups, or the index of them, with how many there are.
    fn begun(&self, alloc: Global, mark: &[u8]) -> Result<Vec<u8>, AllocError> {
        let mut bytes = Vec::new(alloc);
        bytes.extend_from_slice(mark)?;
        bytes.extend_from_slice(&self.front)?;
        bytes.extend_from_slice(&self.group_count().to_be_bytes())?;
        Ok(bytes)
    }

    /// Its bytes in the layout without an index: each key group's number and count stand before its entries.
    pub(crate) fn unindexed(&self, alloc: Global) -> Result<Vec<u8>, AllocError> {
        let mut bytes = self.begun(alloc, b"WSP1")?;
        for group in self.groups.iter() {
            bytes.extend_from_slice(&group.group.to_be_bytes())?;
            bytes.extend_from_slice(&group.count.to_be_bytes())?;
            bytes.extend_from_slice(&group.entries)?;
        }
        Ok(bytes)
    }

    /// Where each part of the index begins: the first behind the mark, the front and how many key groups there are.
    pub(crate) fn head_place(&self, i: usize) -> usize {
        self.front
            .len()
            .wrapping_add(6)
            .wrapping_add(HEAD_SIZE.wrapping_mul(i))
    }

    /// Its bytes in the layout with an index, without the entries.
    fn index(&self, alloc: Global) -> Result<Vec<u8>, AllocError> {
        let mut bytes = self.begun(alloc, b"WSP2")?;
        let mut place = self.head_place(self.groups.len()) as u64;
        for group in self.groups.iter() {
            bytes.extend_from_slice(&group.group.to_be_bytes())?;
            bytes.extend_from_slice(&group.count.to_be_bytes())?;
            bytes.extend_from_slice(&place.to_be_bytes())?;
            place = place.wrapping_add(group.entries.len() as u64);
        }
        Ok(bytes)
    }

    /// Its bytes in the layout with an index.
    pub(crate) fn indexed(&self, alloc: Global) -> Result<Vec<u8>, AllocError> {
        let mut bytes = self.index(alloc)?;
        for group in self.groups.iter() {
            bytes.extend_from_slice(&group.entries)?;
        }
        Ok(bytes)
    }

    /// The bytes of a key group's entries: none where it has none.
    pub(crate) fn entries_of(&self, group: u32) -> &[u8] {
        match self
            .groups
            .iter()
            .find(|made| u32::from(made.group) == group)
        {
            Some(made) => &made.entries,
            None => &[],
        }
    }
}
