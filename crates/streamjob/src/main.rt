//! The program: words in, files read whole, text out.
#![tactic(auto)]

ghost use Rattle.streamjob.specs.Ending.{EndsWith};

use command_line::{outcome, status};
use std::process::ExitCode;
use std::random::RandomSource;
use std::rt::{Env, Files};
use std::sync::Wait;
use std::thread::Threads;
use std::time::Clock;

/// Does what the program's words ask for, and answers the status to end with.
fn exit_status<
    R: Files<File: Send, Dir: Send>
        + Print
        + Eprint
        + Env
        + RandomSource
        + Threads
        + Wait
        + Clock
        + Sync
        + AllocGlobal,
>(rt: &R) -> u8
    ensures { EndsWith result }
{
    let outcome = outcome(rt);
    status(rt, &outcome)
}

fn main(rt: HostRuntime) -> ExitCode {
    ExitCode::from(exit_status(&rt))
}
