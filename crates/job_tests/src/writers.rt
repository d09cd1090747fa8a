//! Writers of which a clause says nothing: what they hold is known after a flush alone, or one of their writes fails;
//! and one that is full.

use crate::jobs::{INPUT, PLAN, ROWS, SCALE};
use job::{HashKeys, JobFault, OpenGate, job_group, job_layout, job_run};
use std::io::{Error, ErrorKind, Result as IoResult, Write};
use std::random::RandomSource;
use std::sync::Wait;
use std::test::Fail;
use std::thread::Threads;
use std::time::Clock;

/// What is written of a job, of its layout and of a group.
const TEXTS: &str =
    "0 10 0 1 4 4 4\n0 10 1 1 5 5 5\n10 20 0 1 -3 -3 -3\n10 20 1 2 9 2 7\nstage 0 1 s\nstage 1 1 w\nstage 2 1 (sink)\nedge 0 1 group\nedge 1 2 forward\npartitions 0 0 0 1\ngroups 1 0 0 127\n94 1\n";

/// Keeps what it is given until it is flushed, and then gives it on, or fails.
#[derive(Drop)]
struct Buffering {
    kept: Vec<u8>,
    given_on: Vec<u8>,
    is_broken: bool,
}

impl Buffering {
    fn new(rt: &impl AllocGlobal, is_broken: bool) -> Buffering {
        Buffering {
            kept: Vec::new(rt.alloc()),
            given_on: Vec::new(rt.alloc()),
            is_broken,
        }
    }
}

impl Write for Buffering {
    fn write(&mut self, bytes: &[u8]) -> IoResult<usize> {
        self.kept.extend_from_slice(bytes)?;
        Ok(bytes.len())
    }

    fn flush(&mut self) -> IoResult<()> {
        if self.is_broken {
            return Err(Error::from(ErrorKind::StorageFull));
        }
        self.given_on.extend_from_slice(&self.kept)?;
        self.kept.clear();
        Ok(())
    }
}

/// Why a job, its layout and a group are not written, if they are not.
fn faults_of(
    rt: &(impl AllocGlobal + RandomSource + Threads + Wait + Clock + Sync),
    out: &mut Buffering,
) -> Result<[Option<JobFault>; 3], Fail> {
    let alloc = rt.alloc();
    let keys = HashKeys::random(rt)?;
    let input = Vec::from_slice(alloc, INPUT.as_bytes())?;
    let rows = job_run(
        rt,
        alloc,
        keys,
        PLAN.as_bytes(),
        input,
        None,
        &OpenGate,
        out,
    );
    let layout = job_layout(alloc, PLAN.as_bytes(), SCALE.as_bytes(), out);
    let group = job_group(alloc, "0", "128", "2", out);
    Ok([rows.err(), layout.err(), group.err()])
}

#[test]
fn a_writer_that_buffers_is_flushed(rt: HostRuntime) -> Result<(), Fail> {
    let mut out = Buffering::new(&rt, false);
    let faults = faults_of(&rt, &mut out)?;
    assert_eq!(rt; faults, [None; 3]);
    assert_eq!(rt; out.given_on.as_slice(), TEXTS.as_bytes());
    Ok(())
}

#[test]
fn a_flush_that_fails_is_a_failed_write(rt: HostRuntime) -> Result<(), Fail> {
    let mut out = Buffering::new(&rt, true);
    let faults = faults_of(&rt, &mut out)?;
    assert_eq!(rt; faults, [Some(JobFault::Write); 3]);
    Ok(())
}

/// Why a job is not written into so little room.
fn fault_in(
    rt: &(impl AllocGlobal + RandomSource + Threads + Wait + Clock + Sync),
    room: &mut [u8],
) -> Result<Option<JobFault>, Fail> {
    let mut out = room;
    let keys = HashKeys::random(rt)?;
    let input = Vec::from_slice(rt.alloc(), INPUT.as_bytes())?;
    let said = job_run(
        rt,
        rt.alloc(),
        keys,
        PLAN.as_bytes(),
        input,
        None,
        &OpenGate,
        &mut out,
    );
    Ok(said.err())
}

#[test]
fn a_writer_that_is_full(rt: HostRuntime) -> Result<(), Fail> {
    let mut bytes = [0; 20];
    let fault = fault_in(&rt, &mut bytes)?;
    assert_eq!(rt; fault, Some(JobFault::Write));
    Ok(())
}

/// Takes a few bytes at a time, and fails at one of its writes, if any.
#[derive(Drop)]
struct Failing {
    taken: Vec<u8>,
    most: usize,
    fails_at: Option<usize>,
    writes: usize,
}

impl Write for Failing {
    fn write(&mut self, bytes: &[u8]) -> IoResult<usize> {
        let number = self.writes;
        self.writes = number.saturating_add(1);
        if self.fails_at == Some(number) {
            return Err(Error::from(ErrorKind::BrokenPipe));
        }
        let count = bytes.len().min(self.most);
        self.taken.extend_from_slice(&bytes[..count])?;
        Ok(count)
    }

    fn flush(&mut self) -> IoResult<()> {
        Ok(())
    }
}

/// Why a job is not written by a writer that takes so many bytes at a time, and what the writer has taken and at how
/// many writes.
fn taken_by(
    rt: &(impl AllocGlobal + RandomSource + Threads + Wait + Clock + Sync),
    most: usize,
    fails_at: Option<usize>,
) -> Result<(Option<JobFault>, Failing), Fail> {
    let mut out = Failing {
        taken: Vec::new(rt.alloc()),
        most,
        fails_at,
        writes: 0,
    };
    let keys = HashKeys::random(rt)?;
    let input = Vec::from_slice(rt.alloc(), INPUT.as_bytes())?;
    let said = job_run(
        rt,
        rt.alloc(),
        keys,
        PLAN.as_bytes(),
        input,
        None,
        &OpenGate,
        &mut out,
    );
    Ok((said.err(), out))
}

#[test]
fn a_write_that_fails_is_told_and_ends_the_text(rt: HostRuntime) -> Result<(), Fail> {
    for most in [1, 10, ROWS.len()] {
        let (fault, whole) = taken_by(&rt, most, None)?;
        assert_eq!(rt; fault, None);
        assert_eq!(rt; whole.taken.as_slice(), ROWS.as_bytes());
        assert_eq!(rt; whole.writes, ROWS.len().div_ceil(most));
        for number in 0..whole.writes {
            let (fault, out) = taken_by(&rt, most, Some(number))?;
            assert_eq!(rt; fault, Some(JobFault::Write));
            assert!(rt; ROWS.as_bytes().starts_with(&out.taken));
            assert_eq!(rt; out.taken.len(), number.saturating_mul(most));
        }
    }
    Ok(())
}
