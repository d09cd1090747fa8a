//! The command `run` where it leaves a receipt.

ghost use Rattle.std.specs.Prelude.{Some, option_map};
ghost use Rattle.job.specs.Ends.{OnThreads};
ghost use Rattle.job.specs.Run.{Answers};
ghost use Rattle.leg_command.specs.Runs.{AnswersToldRun, whole_said};

use crate::giving::{NewReceipt, given_rows};
use command_files::{file, optional_file};
use job::{HashKeys, OpenGate, job_run, job_run_parallel};
use job_texts::JobFault;
use std::random::RandomSource;
use std::rt::Files;
use std::sync::Wait;
use std::thread::Threads;
use std::time::Clock;

/// The files of a run that leaves a receipt, by their names.
#[derive(Clone, Copy)]
pub struct RunFiles<'a> {
    pub plan: &'a str,
    pub input: &'a str,
    pub receipt: &'a str,
    /// The table of names of which the receipt tells.
    pub names: Option<&'a str>,
}

/// Writes the text of the rows of a plan on an input, run as one leg or in as many subtasks as a word spells.
fn write_rows<R: Threads + Wait + Clock + Sync + AllocGlobal>(
    rt: &R,
    keys: HashKeys,
    plan: &[u8],
    input: Vec<u8>,
    parallelism: Option<&str>,
    rows: &mut Vec<u8>,
) -> Result<(), JobFault>
    ensures { Answers OnThreads (whole_said plan.now input.items (option_map (λ word. word.now) parallelism.entry)) result (Some rows.old.items) (Some rows.new.items) }
{
    let alloc = rt.alloc();
    match parallelism {
        None => job_run(rt, alloc, keys, plan, input, None, &OpenGate, rows),
        Some(word) => job_run_parallel(rt, alloc, keys, plan, input, word, &OpenGate, rows),
    }
}

/// The receipt of a run from nothing.
fn receipt_of<'a>(
    path: &'a str,
    plan: &'a [u8],
    input: &'a [u8],
    names: Option<&'a [u8]>,
) -> NewReceipt<'a> {
    NewReceipt {
        path,
        plan,
        input,
        from: None,
        names,
    }
}

/// Prints the rows of a plan on an input, run in as many subtasks as a word spells or in one, once the receipt is
/// written.
///
/// # Errors
///
/// `Read` where a file cannot be read, else the fault of `job_run` or of `job_run_parallel`; `Write` where the receipt
/// or the rows cannot be written.
pub fn run_with_receipt<
    R: Files + Print + RandomSource + Threads + Wait + Clock + Sync + AllocGlobal,
>(rt: &R, files: &RunFiles<'_>, parallelism: Option<&str>) -> Result<(), JobFault>
    ensures { AnswersToldRun (option_map (λ word. word.now) parallelism.entry) result }
{
    let plan = file(rt, files.plan)?;
    let input = file(rt, files.input)?;
    let names = optional_file(rt, files.names)?;
    let Ok(keys) = HashKeys::random(rt) else {
        return Err(JobFault::Read);
    };
    let copy = input.to_vec(rt.alloc())?;
    let mut rows = Vec::new(rt.alloc());
    let answer = write_rows(rt, keys, &plan, input, parallelism, &mut rows);
    let receipt = receipt_of(files.receipt, &plan, &copy, names.as_deref());
    given_rows(rt, receipt, answer, &rows)
}
