//! Legs that are asked to stop.

use crate::gates::{Hold, Watch};
use crate::making::{
    Case, FOUR_THREE, ONE_ONE, Outcome, ROWS, TWO_THREE, TWO_THREE_SHORT, outcome_asked,
    outcome_on_threads,
};
use savepoint_codec::Savepoint;
use savepoint_index::decode;
use std::process::Abort;
use std::random::RandomSource;
use std::sync::atomic::{AtomicBool, Ordering};
use std::sync::{Arc, Wait};
use std::test::Fail;
use std::thread::Threads;
use std::time::Clock;
use thread_runner::{Gate, OpenGate};

const SCALES: &[&str] = &[ONE_ONE, TWO_THREE, TWO_THREE_SHORT, FOUR_THREE];

/// Sets a word when a task comes to a step, before others that wait for that step go on.
#[derive(Drop)]
struct Asker<'a, R> {
    watch: Watch<'a, R>,
    word: Arc<AtomicBool>,
    task: u32,
    step: u64,
}

impl<R: Clock + Sync> Gate for Asker<'_, R> {
    fn pass(&self, task: u32, step: u64) {
        if (task, step) == (self.task, self.step) {
            self.word.store(true, Ordering::SeqCst);
        }
        self.watch.pass(task, step);
    }
}

/// The bytes that a leg left which was asked to stop, or none, which are no savepoint.
fn left(outcome: &Outcome) -> &[u8] {
    match &outcome.savepoint {
        Some(bytes) => bytes.as_slice(),
        None => &[],
    }
}

/// The savepoint that a leg left which was asked to stop.
fn savepoint_of<R: AllocGlobal>(rt: &R, outcome: &Outcome) -> Result<Box<Savepoint>, Fail> {
    let savepoint = decode(rt.alloc(), left(outcome))?;
    Ok(Box::new(rt.alloc(), savepoint)?)
}

/// How far each partition was read, of all sources.
fn offsets<R: AllocGlobal>(rt: &R, outcome: &Outcome) -> Result<Vec<u64>, Fail> {
    let savepoint = savepoint_of(rt, outcome)?;
    let mut offsets = Vec::new(rt.alloc());
    for source in savepoint.contents().sources.as_slice() {
        for place in source.partitions.as_slice() {
            offsets.push(place.offset)?;
        }
    }
    Ok(offsets)
}

/// A leg that has read nothing has no rows, and leaves the first savepoint of its job.
fn check_unread<R: AllocGlobal + Abort>(
    rt: &R,
    outcome: &Outcome,
    scale: &str,
) -> Result<(), Fail> {
    assert_eq!(rt; outcome.rows.as_str(), "", "at {scale}");
    assert_eq!(rt; savepoint_of(rt, outcome)?.contents().number, 1);
    for offset in offsets(rt, outcome)? {
        assert_eq!(rt; offset, 0, "at {scale}");
    }
    Ok(())
}

#[test]
fn a_word_that_is_set_before_stops_a_leg_where_it_begins(rt: HostRuntime) -> Result<(), Fail> {
    let word = Arc::new(rt.alloc(), AtomicBool::new(true))?;
    for scale in SCALES {
        let outcome = outcome_asked(&rt, Case::whole(scale), &OpenGate, &word)?;
        check_unread(&rt, &outcome, scale)?;
    }
    Ok(())
}

#[test]
fn a_word_that_is_never_set_stops_no_leg(rt: HostRuntime) -> Result<(), Fail> {
    let word = Arc::new(rt.alloc(), AtomicBool::new(false))?;
    for scale in SCALES {
        let outcome = outcome_asked(&rt, Case::whole(scale), &OpenGate, &word)?;
        assert_eq!(rt; outcome.rows.as_str(), ROWS, "at {scale}");
        assert!(rt; outcome.savepoint.is_none());
    }
    Ok(())
}

/// A leg that goes on from a savepoint at a scale has the rows of the job that are not there yet.
fn check_rest_at<R: AllocGlobal + Abort + RandomSource + Threads + Wait + Clock + Sync>(
    rt: &R,
    rows: &str,
    savepoint: &[u8],
    scale: &str,
) -> Result<(), Fail> {
    let case = Case {
        from: Some(savepoint),
        ..Case::whole(scale)
    };
    let rest = outcome_on_threads(rt, case, &OpenGate)?;
    let all = format!(in rt.alloc(); "{rows}{}", rest.rows)?;
    assert_eq!(rt; all.as_str(), ROWS, "gone on with at {scale}");
    Ok(())
}

/// The rows of two legs, of which the second goes on from what the first left, are those of the job. Both are sorted,
/// and the windows of the first end no later than those of the second.
fn check_rest<R: AllocGlobal + Abort + RandomSource + Threads + Wait + Clock + Sync>(
    rt: &R,
    first: &Outcome,
) -> Result<(), Fail> {
    for scale in SCALES {
        check_rest_at(rt, first.rows.as_str(), left(first), scale)?;
    }
    Ok(())
}

/// What a leg comes to that is asked to stop when a task comes to a step, and the gate that did so.
fn asked_at<'a, R: AllocGlobal + RandomSource + Threads + Wait + Clock + Sync>(
    rt: &'a R,
    case: Case<'_>,
    holds: &'a [Hold],
    task: u32,
    step: u64,
) -> Result<(Outcome, Asker<'a, R>), Fail> {
    let word = Arc::new(rt.alloc(), AtomicBool::new(false))?;
    let gate = Asker {
        watch: Watch::new(rt, rt.alloc(), 6, holds)?,
        word: Arc::try_clone(&word)?,
        task,
        step,
    };
    let outcome = outcome_asked(rt, case, &gate, &word)?;
    Ok((outcome, gate))
}

#[test]
fn a_leg_that_is_asked_midway_leaves_the_rest_to_the_next(rt: HostRuntime) -> Result<(), Fail> {
    let (outcome, _) = asked_at(&rt, Case::whole(ONE_ONE), &[], 0, 3)?;
    let mut has_read = false;
    for offset in offsets(&rt, &outcome)? {
        has_read = has_read || offset >= 1;
    }
    assert!(rt; has_read);
    check_rest(&rt, &outcome)
}

/// Each of two sources waits for the other: the first behind its first entry until the second comes to its last step,
/// for which it has closed, and the second until the first is there.
const BEHIND_THE_OTHER: &[Hold] = &[
    Hold {
        task: 0,
        step: 2,
        until_task: 1,
        until_step: 15,
    },
    Hold {
        task: 1,
        step: 1,
        until_task: 0,
        until_step: 2,
    },
];

// The other opens, reads 3 entries and closes, which makes 11 messages for the three subtasks of the window.
#[test]
fn a_source_that_has_closed_is_at_its_end_where_another_stops(rt: HostRuntime) -> Result<(), Fail> {
    let case = Case::whole(TWO_THREE);
    let (outcome, gate) = asked_at(&rt, case, BEHIND_THE_OTHER, 1, 15)?;
    assert!(rt; !gate.watch.gave_up());
    assert_eq!(rt; gate.watch.steps(1), 16);
    let read = offsets(&rt, &outcome)?;
    assert_eq!(rt; read.as_slice(), [1, 3].as_slice());
    check_rest(&rt, &outcome)
}

// The source opens, reads 6 entries and closes, which makes 7 messages; the last of them, its end, is yet to be put.
#[test]
fn a_leg_whose_sources_have_closed_goes_on_to_the_end(rt: HostRuntime) -> Result<(), Fail> {
    let (outcome, gate) = asked_at(&rt, Case::whole(ONE_ONE), &[], 0, 14)?;
    assert_eq!(rt; gate.watch.steps(0), 15);
    assert!(rt; outcome.savepoint.is_none());
    assert_eq!(rt; outcome.rows.as_str(), ROWS);
    Ok(())
}
