//! Makes single calls of the engine, and tells what comes of each: the program in which `scripts/refused_growths`
//! refuses each growth of memory in its turn.
//!
//! What a call needs is made first, of the files beside it. Then the call is made; where it is refused, it is told what
//! the refusal has left, and the call is made once more, of the same values.
#![tactic(auto)]

mod calls;
mod files;
mod gates;
mod jobs;
mod planned;
mod runs;
mod saved;
mod states;
mod telling;
mod texts;
mod worlds;

use crate::calls::Call;
use crate::jobs::{job_leg_calls, job_leg_sealing_calls, job_run_calls};
use crate::planned::planned_calls;
use crate::saved::{decode_calls, decode_group_calls, decode_unindexed_calls};
use job_texts::{JobFault, status_of};
use std::io::ErrorKind;
use std::process::ExitCode;
use std::random::RandomSource;
use std::rt::{Env, Files};
use std::sync::Wait;
use std::thread::Threads;
use std::time::Clock;
use std::{env, io};
use thiserror::Error;

/// Why the program ends before it has told of each call.
#[derive(Debug, Drop, Error)]
enum Failure {
    #[error("words: CALL..")]
    Words,
    #[error("{0}")]
    Job(JobFault),
}

impl From<JobFault> for Failure {
    fn from(fault: JobFault) -> Failure {
        Failure::Job(fault)
    }
}

impl From<io::Error> for Failure {
    fn from(error: io::Error) -> Failure {
        match error.kind() {
            ErrorKind::OutOfMemory => Failure::Job(JobFault::Memory),
            _ => Failure::Job(JobFault::Read),
        }
    }
}

/// Makes a call, and tells what came of it.
fn make<R: Files + Print + RandomSource + Threads + Wait + Clock + Sync + AllocGlobal>(
    rt: &R,
    call: Call,
) -> Result<(), JobFault> {
    match call {
        Call::Decode => decode_calls(rt),
        Call::DecodeUnindexed => decode_unindexed_calls(rt),
        Call::DecodeGroup => decode_group_calls(rt),
        Call::JobLeg => job_leg_calls(rt),
        Call::JobLegSealing => job_leg_sealing_calls(rt),
        Call::JobRun => job_run_calls(rt),
        _ => planned_calls(rt, call),
    }
}

/// The words that the program was started with, its own name first.
fn words_of<R: Env + AllocGlobal>(rt: &R) -> io::Result<Vec<String>> {
    let words = env::args(rt)?.collect::<Vec<String>>(rt.alloc())?;
    Ok(words)
}

/// Makes the calls that the words name.
fn make_all<R: Files + Print + Env + RandomSource + Threads + Wait + Clock + Sync + AllocGlobal>(
    rt: &R,
) -> Result<(), Failure> {
    let words = words_of(rt)?;
    for word in words.iter().skip(1) {
        let Some(call) = Call::from_word(word.as_str()) else {
            return Err(Failure::Words);
        };
        make(rt, call)?;
    }
    Ok(())
}

fn main(rt: HostRuntime) -> ExitCode {
    match make_all(&rt) {
        Ok(()) => ExitCode::from(0),
        Err(failure) => {
            let _ = eprintln!(rt; "{failure}");
            match failure {
                Failure::Words => ExitCode::from(2),
                Failure::Job(fault) => ExitCode::from(status_of(&fault)),
            }
        }
    }
}
