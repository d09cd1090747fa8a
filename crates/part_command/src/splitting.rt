//! The parts of an input, each in a file.

ghost use Rattle.std.specs.Prelude.{◌≡◌, ◌⊎◌, ◌≤◌, IfErr};
ghost use Rattle.stream_model.specs.InputData.{BelongsTo};
ghost use Rattle.part_command.specs.Splitting.{IsUnwritten, AnswersSplit, SplitsTexts};
ghost use Rattle.part_command.specs.Apart.{ChecksApart, ChecksAllApart};

use crate::parting::{parts_of, read_input};
use crate::writing::{files_at, path_of, remove_all, write_files};
use command_files::file;
use job_texts::JobFault;
use key_groups::Parallelism;
use logical_plan::ReadPlan;
use plan_model::Plan;
use std::random::RandomSource;
use std::rt::Files;
use stream_model::Input;

/// The words of `split`.
#[derive(Clone, Copy)]
pub struct SplitWords<'a> {
    /// The file of the plan.
    pub plan: &'a str,
    /// The file of the input.
    pub input: &'a str,
    /// In how many parts.
    pub parts: &'a str,
    /// What the names of the parts' files begin with.
    pub out: &'a str,
}

/// Refuses to write a part over the plan or the input. Two names of one file are not told apart.
fn check_apart(words: &SplitWords<'_>, path: &str) -> Result<(), JobFault>
    ensures { ChecksApart words.now.plan.now words.now.input.now path.now result }
{
    if path == words.plan || path == words.input {
        return Err(JobFault::Write);
    }
    Ok(())
}

/// The same for each part.
fn check_all_apart<R: AllocGlobal>(
    rt: &R,
    words: &SplitWords<'_>,
    parts: Parallelism,
) -> Result<(), JobFault>
    ensures { ChecksAllApart words.now.plan.now words.now.input.now words.now.out.now parts result }
{
    for place in 0..parts.get() as usize {
        let path = path_of(rt.alloc(), words.out, place)?;
        check_apart(words, path.as_str())?;
    }
    Ok(())
}

/// Deals an input out to its parts, and writes these. Where one cannot be written, none of those takes its name that
/// has it not yet.
fn write_parts<R: Files + Print + RandomSource + AllocGlobal>(
    rt: &R,
    words: &SplitWords<'_>,
    plan: &Plan,
    parts: Parallelism,
    input: &Input,
) -> Result<(), JobFault>
    requires fits { parts ≤ plan.now.max }
    requires belongs { BelongsTo plan.now input.now }
    ensures { IfErr result IsUnwritten }
{
    check_all_apart(rt, words, parts)?;
    let files = files_at(rt, words.out, parts)?;
    let answer = write_files(rt, plan, parts, input, &files);
    if answer.is_err() {
        remove_all(rt, &files);
    }
    answer
}

/// The same of a plan and an input that texts tell.
#[tactic(auto, unfolding(crate::specs::Splitting::split_said))]
fn split_texts<R: Files + Print + RandomSource + AllocGlobal>(
    rt: &R,
    words: &SplitWords<'_>,
    plan: &[u8],
    input: Vec<u8>,
) -> Result<(), JobFault>
    ensures { SplitsTexts plan.now input.items words.now.parts.now result }
{
    let plan = Plan::read(rt.alloc(), plan)?;
    let parts = parts_of(&plan, words.parts)?;
    let input = read_input(rt.alloc(), &plan, input)?;
    write_parts(rt, words, &plan, parts, &input)
}

/// Writes the parts of an input, so many as a word spells, to files of one name with a point and the place of the part
/// from 0 behind it: each key's records in one of them, and all watermarks in each.
///
/// # Errors
///
/// `Read` where a file cannot be read; the plan's fault; `Number` where the number of parts is not 1 to the lesser of
/// 64 and the plan's key groups; the input's fault; `Write` where a part's file cannot be written, or is the plan's or
/// the input's; `Memory`. Each file then holds what it held or its part.
pub fn split<R: Files + Print + RandomSource + AllocGlobal>(
    rt: &R,
    words: &SplitWords<'_>,
) -> Result<(), JobFault>
    ensures { AnswersSplit words.now.parts.now result }
{
    let plan = file(rt, words.plan)?;
    let input = file(rt, words.input)?;
    split_texts(rt, words, &plan, input)
}
