//! A leg that goes on from a savepoint without an index, as a program leaves it that writes none.

use crate::jobs::{ROWS, SCALE, SCALE_OF_TWO, rows_of_leg};
use job::OpenGate;
use savepoint_index::decode;
use std::alloc::Global;
use std::process::Abort;
use std::random::RandomSource;
use std::sync::Wait;
use std::test::Fail;
use std::thread::Threads;
use std::time::Clock;

/// The bytes of the same savepoint without an index.
fn unindexed(alloc: Global, bytes: &[u8]) -> Result<Vec<u8>, Fail> {
    let savepoint = Box::new(alloc, decode(alloc, bytes)?)?;
    Ok(savepoint_codec::encode(alloc, &savepoint)?)
}

/// The rows of a leg that stops halfway, and its savepoint's bytes with an index and without one.
fn halfway<R: AllocGlobal + Abort + RandomSource + Threads + Wait + Clock + Sync>(
    rt: &R,
) -> Result<(Vec<u8>, Vec<u8>, Vec<u8>), Fail> {
    let (rows, saved) = rows_of_leg(rt, SCALE, None, Some("2,2"), &OpenGate)?;
    let indexed = saved.unwrap_or(Vec::new(rt.alloc()));
    let unindexed = unindexed(rt.alloc(), &indexed)?;
    assert!(rt; indexed.starts_with(b"WSP2"));
    assert!(rt; unindexed.starts_with(b"WSP1"));
    Ok((rows, indexed, unindexed))
}

#[test]
fn a_leg_goes_on_from_a_savepoint_without_an_index(rt: HostRuntime) -> Result<(), Fail> {
    let (rows, _, unindexed) = halfway(&rt)?;
    let (later, _) = rows_of_leg(&rt, SCALE_OF_TWO, Some(unindexed), None, &OpenGate)?;
    let mut all = Vec::from_slice(rt.alloc(), &rows)?;
    all.extend_from_slice(&later)?;
    assert_eq!(rt; all.as_slice(), ROWS.as_bytes());
    Ok(())
}

#[test]
fn legs_from_both_layouts_come_to_the_same(rt: HostRuntime) -> Result<(), Fail> {
    let (_, indexed, unindexed) = halfway(&rt)?;
    let (rows, saved) = rows_of_leg(&rt, SCALE_OF_TWO, Some(indexed), Some("3,3"), &OpenGate)?;
    let (same, left) = rows_of_leg(&rt, SCALE_OF_TWO, Some(unindexed), Some("3,3"), &OpenGate)?;
    assert_eq!(rt; rows.as_slice(), same.as_slice());
    assert!(rt; saved.is_some());
    assert!(rt; saved == left);
    Ok(())
}
