//! What each command does.

ghost use Rattle.std.specs.Prelude.{◌≡◌, is_some, None, option_map, Some, IfErr};
ghost use Rattle.commands.specs.Running.{AnswersRows, AnswersRun, AnswersTold};
ghost use Rattle.commands.specs.Answers.{AnswersSimulate, IsQuestion, AnswersCuts, AnswersLayout, AnswersShow, AnswersGroup, AnswersExplain};

use crate::installed::commit;
use crate::run_words::RunWords;
use command_files::{file, optional_file};
use job::{
    CutQuestion, HashKeys, JobFault, OpenGate, job_cuts, job_group, job_layout, job_run,
    job_run_parallel, job_show, job_simulate,
};
use leg_command::{RunFiles, run_with_receipt};
use std::io::writer;
use std::random::RandomSource;
use std::rt::Files;
use std::sync::Wait;
use std::thread::Threads;
use std::time::Clock;
use user_texts::{TextFault, write_version};

/// Prints the rows of a plan on an input, in legs where a list of them is named.
fn run_in_legs<R: Files + Print + RandomSource + Threads + Wait + Clock + Sync + AllocGlobal>(
    rt: &R,
    words: &RunWords<'_>,
) -> Result<(), JobFault>
    ensures { AnswersRows (is_some words.now.legs) None result }
{
    let plan = file(rt, words.plan)?;
    let input = file(rt, words.input)?;
    let list = optional_file(rt, words.legs)?;
    let Ok(keys) = HashKeys::random(rt) else {
        return Err(JobFault::Read);
    };
    let legs = list.as_deref();
    job_run(
        rt,
        rt.alloc(),
        keys,
        &plan,
        input,
        legs,
        &OpenGate,
        &mut writer(rt),
    )
}

/// Prints the rows of a plan on an input, run in as many subtasks as a word spells.
fn run_parallel<R: Files + Print + RandomSource + Threads + Wait + Clock + Sync + AllocGlobal>(
    rt: &R,
    words: &RunWords<'_>,
    parallelism: &str,
) -> Result<(), JobFault>
    ensures { AnswersRows (is_some words.now.legs) (Some parallelism.now) result }
{
    let plan = file(rt, words.plan)?;
    let input = file(rt, words.input)?;
    let Ok(keys) = HashKeys::random(rt) else {
        return Err(JobFault::Read);
    };
    let mut out = writer(rt);
    job_run_parallel(
        rt,
        rt.alloc(),
        keys,
        &plan,
        input,
        parallelism,
        &OpenGate,
        &mut out,
    )
}

/// Prints the rows of a plan on an input, in legs where a list of them is named, or in so many subtasks.
fn run_rows<R: Files + Print + RandomSource + Threads + Wait + Clock + Sync + AllocGlobal>(
    rt: &R,
    words: &RunWords<'_>,
) -> Result<(), JobFault>
    ensures { AnswersRows (is_some words.now.legs) (option_map (λ word. word.now) words.now.parallelism) result }
{
    match words.parallelism {
        None => run_in_legs(rt, words),
        Some(parallelism) => run_parallel(rt, words, parallelism),
    }
}

/// The same, once the receipt of the run is written, where there is to be one.
fn run_told<R: Files + Print + RandomSource + Threads + Wait + Clock + Sync + AllocGlobal>(
    rt: &R,
    words: &RunWords<'_>,
) -> Result<(), JobFault>
    ensures { AnswersTold (is_some words.now.receipt) words.now result }
{
    let Some(receipt) = words.receipt else {
        return run_rows(rt, words);
    };
    let files = RunFiles {
        plan: words.plan,
        input: words.input,
        receipt,
        names: words.names,
    };
    run_with_receipt(rt, &files, words.parallelism)
}

/// Prints the rows of a plan on an input, in legs where a list of them is named, or in so many subtasks, and leaves a
/// receipt where a file is named for it.
///
/// # Errors
///
/// `Number` where words do not go together: a parallelism or a receipt beside a list of legs, or a table of names
/// without a receipt; `Write` where the receipt would be written over a file that is read; `Read` where a file cannot
/// be read; else the fault of `job_run`, or of `job_run_parallel`; `Write` where the receipt cannot be written.
pub fn run<R: Files + Print + RandomSource + Threads + Wait + Clock + Sync + AllocGlobal>(
    rt: &R,
    words: &RunWords<'_>,
) -> Result<(), JobFault>
    ensures { AnswersRun words.now result }
{
    if words.are_wrong() {
        return Err(JobFault::Number);
    }
    if words.overwrite() {
        return Err(JobFault::Write);
    }
    run_told(rt, words)
}

/// Prints the rows of a plan on an input in legs, by an order of steps that choices pick.
///
/// # Errors
///
/// `Read` where a file cannot be read, else the fault of `job_simulate`.
pub fn simulate<R: Files + Print + RandomSource + AllocGlobal>(
    rt: &R,
    plan: &str,
    input: &str,
    legs: &str,
    choices: &str,
) -> Result<(), JobFault>
    ensures { AnswersSimulate result }
{
    let plan = file(rt, plan)?;
    let input = file(rt, input)?;
    let legs = file(rt, legs)?;
    let choices = file(rt, choices)?;
    let Ok(keys) = HashKeys::random(rt) else {
        return Err(JobFault::Read);
    };
    let mut out = writer(rt);
    job_simulate(rt.alloc(), keys, &plan, input, &legs, &choices, &mut out)
}

/// What is asked of an input: of its partitions, or of the first cut for a time, or of the last that leaves it open.
fn question<'a>(until: Option<&'a str>, stays_open: bool) -> Option<CutQuestion<'a>>
    ensures { IsQuestion (option_map (λ word. word.now) until.entry) stays_open result }
{
    match (until, stays_open) {
        (None, false) => Some(CutQuestion::Extents),
        (Some(word), false) => Some(CutQuestion::Until(word)),
        (None, true) => Some(CutQuestion::Open),
        (Some(_), true) => None,
    }
}

/// Prints how far the partitions of an input go, or the word of a cut of it.
///
/// # Errors
///
/// `Number` where both a time and an open cut are asked for; `Read` where a file cannot be read, else the fault of
/// `job_cuts`.
pub fn cuts<R: Files + Print + AllocGlobal>(
    rt: &R,
    plan: &str,
    input: &str,
    until: Option<&str>,
    stays_open: bool,
) -> Result<(), JobFault>
    ensures { AnswersCuts (option_map (λ word. word.now) until.entry) stays_open result }
{
    let Some(question) = question(until, stays_open) else {
        return Err(JobFault::Number);
    };
    let plan = file(rt, plan)?;
    let input = file(rt, input)?;
    job_cuts(rt.alloc(), &plan, input, question, &mut writer(rt))
}

/// Prints the layout of a plan at a scale.
///
/// # Errors
///
/// `Read` where a file cannot be read, else the fault of `job_layout`.
pub fn layout<R: Files + Print + AllocGlobal>(
    rt: &R,
    plan: &str,
    scale: &str,
) -> Result<(), JobFault>
    ensures { AnswersLayout result }
{
    let plan = file(rt, plan)?;
    let scale = file(rt, scale)?;
    job_layout(rt.alloc(), &plan, &scale, &mut writer(rt))
}

/// Prints what a savepoint holds, or what the key group does that a word spells.
///
/// # Errors
///
/// `Read` where the file cannot be read, else the fault of `job_show`.
pub fn show<R: Files + Print + AllocGlobal>(
    rt: &R,
    savepoint: &str,
    group: Option<&str>,
) -> Result<(), JobFault>
    ensures { AnswersShow (option_map (λ word. word.now) group.entry) result }
{
    let savepoint = file(rt, savepoint)?;
    job_show(rt.alloc(), &savepoint, group, &mut writer(rt))
}

/// Prints the group of a key and its owner.
///
/// # Errors
///
/// The fault of `job_group`.
pub fn group<R: Print + AllocGlobal>(
    rt: &R,
    key: &str,
    max: &str,
    par: &str,
) -> Result<(), JobFault>
    ensures { AnswersGroup key.now max.now par.now result }
{
    job_group(rt.alloc(), key, max, par, &mut writer(rt))
}

/// Prints the page of a fault.
///
/// # Errors
///
/// `NoPage` where no fault has the code, `Write` where standard output takes no more.
pub fn explain<R: Print + AllocGlobal>(rt: &R, code: &str) -> Result<(), TextFault>
    ensures { AnswersExplain code.now result }
{
    fault_pages::explain(code, &mut writer(rt))
}

/// Prints the version of the program and its toolchain, and the commit that it is of, where it is installed.
///
/// # Errors
///
/// `Write` where standard output takes no more.
pub fn version<R: Files + Print + AllocGlobal>(rt: &R) -> Result<(), TextFault>
    ensures { IfErr result (λ fault. fault ≡ TextFault.Write) }
{
    match commit(rt) {
        Some(commit) => write_version(&mut writer(rt), Some(commit.as_str().trim_end())),
        None => write_version(&mut writer(rt), None),
    }
}
