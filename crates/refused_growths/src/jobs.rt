//! Jobs from bytes to bytes.

use crate::files::{file, word};
use crate::gates::SlowWindow;
use crate::telling::{answered, begins, left, refused};
use crate::texts::text_of_leg;
use job::{Gate, OpenGate, job_leg, job_run};
use job_texts::JobFault;
use std::alloc::{AllocError, Global};
use std::random::RandomSource;
use std::rt::Files;
use std::sync::Wait;
use std::thread::Threads;
use std::time::Clock;
use window_state::HashKeys;

/// Room that the rows of the job do not fill, so that the writer itself asks for no memory.
const ROOM: usize = 65536;

/// What the writer has before.
const BEFORE: &[u8] = b"before\n";

fn writer(alloc: Global) -> Result<Vec<u8>, AllocError> {
    let mut out = Vec::with_capacity(alloc, ROOM)?;
    out.extend_from_slice(BEFORE)?;
    Ok(out)
}

fn hash_keys(rt: &impl RandomSource) -> Result<HashKeys, JobFault> {
    match HashKeys::random(rt) {
        Ok(keys) => Ok(keys),
        Err(_) => Err(JobFault::Read),
    }
}

/// Where a leg takes savepoints, and where it stops.
#[derive(Drop)]
struct Aims<'a> {
    saves: Option<&'a str>,
    stop: Option<&'a str>,
}

/// Runs a leg of the job from the savepoint.
fn job_leg_to<
    R: Files + Print + RandomSource + Threads + Wait + Clock + Sync + AllocGlobal,
    G: Gate,
>(rt: &R, name: &str, aims: &Aims<'_>, gate: &G) -> Result<(), JobFault> {
    let alloc = rt.alloc();
    let keys = hash_keys(rt)?;
    let plan = file(rt, "plan")?;
    let scale = file(rt, "scale")?;
    for _ in 0..2 {
        let input = file(rt, "input")?;
        let savepoint = file(rt, "savepoint")?;
        let mut out = writer(alloc)?;
        begins(rt, name)?;
        match job_leg(
            rt,
            alloc,
            keys,
            &plan,
            input,
            &scale,
            Some(savepoint),
            aims.saves,
            aims.stop,
            gate,
            &mut out,
        ) {
            Ok(end) => {
                let rows = String::from_utf8_lossy(alloc, &out)?;
                return answered(rt, text_of_leg(alloc, rows.as_str(), &end)?.as_str());
            }
            Err(fault) => {
                refused(rt, &fault)?;
                let is_same = out.as_slice() == BEFORE;
                left(rt, "the writer is as before", is_same)?;
            }
        }
    }
    Ok(())
}

/// Runs a leg of the job from the savepoint to the cut.
pub(crate) fn job_leg_calls<
    R: Files + Print + RandomSource + Threads + Wait + Clock + Sync + AllocGlobal,
>(rt: &R) -> Result<(), JobFault> {
    let stop = word(rt, "stop")?;
    let aims = Aims {
        saves: None,
        stop: Some(stop.as_str()),
    };
    job_leg_to(rt, "job_leg", &aims, &OpenGate)
}

/// Runs a leg of the job from the savepoint to the end, with a savepoint on its way where the other stops.
pub(crate) fn job_leg_sealing_calls<
    R: Files + Print + RandomSource + Threads + Wait + Clock + Sync + AllocGlobal,
>(rt: &R) -> Result<(), JobFault> {
    let saves = word(rt, "stop")?;
    let aims = Aims {
        saves: Some(saves.as_str()),
        stop: None,
    };
    job_leg_to(rt, "job_leg_sealing", &aims, &SlowWindow { rt })
}

/// Runs the job in the legs of the list.
pub(crate) fn job_run_calls<
    R: Files + Print + RandomSource + Threads + Wait + Clock + Sync + AllocGlobal,
>(rt: &R) -> Result<(), JobFault> {
    let alloc = rt.alloc();
    let keys = hash_keys(rt)?;
    let plan = file(rt, "plan")?;
    let legs = file(rt, "legs")?;
    for _ in 0..2 {
        let input = file(rt, "input")?;
        let mut out = writer(alloc)?;
        begins(rt, "job_run")?;
        match job_run(
            rt,
            alloc,
            keys,
            &plan,
            input,
            Some(&legs),
            &OpenGate,
            &mut out,
        ) {
            Ok(()) => {
                let rows = String::from_utf8_lossy(alloc, &out)?;
                return answered(rt, rows.as_str());
            }
            Err(fault) => {
                refused(rt, &fault)?;
                let is_same = out.as_slice() == BEFORE;
                left(rt, "the writer is as before", is_same)?;
            }
        }
    }
    Ok(())
}
