//! From the words of `leg` to what comes of it.

ghost use Rattle.std.specs.Prelude.{◌≡◌, ◌⊎◌, None, option_map};
ghost use Rattle.job.specs.Leg.{leg_said, words};
ghost use Rattle.command_files.specs.Files.{CannotRead};
ghost use Rattle.leg_command.specs.Answers.{AnswersLeg, AnswersStop, ComesOfAskedLeg, ComesOfLeg, ComesOfTexts};

use crate::fault::{LegRefusal, after_job};
use crate::giving::{NewReceipt, Place, given};
use crate::since::check_before;
use crate::stop_file::StopFile;
use crate::stops::{LegStop, stop_of};
use crate::texts::{LegBytes, LegTexts, read_texts};
use crate::words::LegWords;
use job::{HashKeys, OpenGate, job_leg, job_leg_asked};
use job_texts::JobFault;
use std::alloc::{AllocError, Global};
use std::random::RandomSource;
use std::rt::Files;
use std::sync::Wait;
use std::thread::Threads;
use std::time::Clock;

/// The texts of a leg, lent, and what it is to leave.
#[derive(Clone, Copy)]
struct LegJob<'a> {
    plan: &'a [u8],
    scale: &'a [u8],
    /// Where its savepoint goes.
    save: Option<&'a str>,
    receipt: Option<NewReceipt<'a>>,
}

impl<'a> LegJob<'a> {
    /// Where what it leaves goes.
    fn place(self, goes_on: bool) -> Place<'a> {
        Place {
            save: self.save,
            receipt: self.receipt,
            goes_on,
        }
    }
}

/// Runs the leg that texts tell to the cut of a word, or to the end, with savepoints on its way, and gives what it
/// gives.
fn done_leg<R: Files + Print + RandomSource + Threads + Wait + Clock + Sync + AllocGlobal>(
    rt: &R,
    keys: HashKeys,
    job: LegJob<'_>,
    bytes: LegBytes,
    saves: Option<&str>,
    stop: Option<&str>,
) -> Result<(), JobFault>
    ensures { ComesOfLeg (leg_said job.entry.plan.now bytes.input.items job.entry.scale.now (option_map (λ bytes. bytes.items) bytes.from) (words (option_map (λ word. word.now) saves.entry) (option_map (λ word. word.now) stop.entry))) result }
{
    let LegBytes { input, from } = bytes;
    let mut rows = Vec::new(rt.alloc());
    let answer = job_leg(
        rt,
        rt.alloc(),
        keys,
        job.plan,
        input,
        job.scale,
        from,
        saves,
        stop,
        &OpenGate,
        &mut rows,
    );
    let place = job.place(stop.is_none());
    given(rt, place, answer, &rows)
}

/// Runs the leg that texts tell till a file is there, or to the end, and gives what it gives.
fn asked_leg<
    R: Files<File: Send, Dir: Send>
        + Print
        + RandomSource
        + Threads
        + Wait
        + Clock
        + Sync
        + AllocGlobal,
>(
    rt: &R,
    keys: HashKeys,
    job: LegJob<'_>,
    bytes: LegBytes,
    file: &StopFile<'_, '_, R>,
) -> Result<(), JobFault>
    ensures { ComesOfAskedLeg (leg_said job.entry.plan.now bytes.input.items job.entry.scale.now (option_map (λ bytes. bytes.items) bytes.from) (words None None)) result }
{
    let asked = file.word()?;
    let LegBytes { input, from } = bytes;
    let mut rows = Vec::new(rt.alloc());
    let answer = job_leg_asked(
        rt,
        rt.alloc(),
        keys,
        job.plan,
        input,
        job.scale,
        from,
        asked,
        file,
        &mut rows,
    );
    given(rt, job.place(false), answer, &rows)
}

/// Runs the leg that texts tell, and gives what it gives.
fn stopped_leg<
    R: Files<File: Send, Dir: Send>
        + Print
        + RandomSource
        + Threads
        + Wait
        + Clock
        + Sync
        + AllocGlobal,
>(rt: &R, job: LegJob<'_>, bytes: LegBytes, stop: LegStop<'_>) -> Result<(), JobFault>
    ensures { CannotRead result ⊎ ComesOfTexts stop.entry job.entry.plan.now bytes.input.items job.entry.scale.now (option_map (λ bytes. bytes.items) bytes.from) result }
{
    let Ok(keys) = HashKeys::random(rt) else {
        return Err(JobFault::Read);
    };
    match stop {
        LegStop::At(saves, stop) => done_leg(rt, keys, job, bytes, saves, stop),
        LegStop::Once(path) => {
            let file = StopFile::new(rt, path)?;
            asked_leg(rt, keys, job, bytes, &file)
        }
    }
}

/// A copy of the bytes of a leg, where a receipt is to tell of them.
fn copied(alloc: Global, receipt: Option<&str>, bytes: &LegBytes) -> Result<LegBytes, AllocError> {
    if receipt.is_none() {
        return Ok(LegBytes {
            input: Vec::new(alloc),
            from: None,
        });
    }
    let input = bytes.input.to_vec(alloc)?;
    let from = match &bytes.from {
        Some(from) => Some(from.to_vec(alloc)?),
        None => None,
    };
    Ok(LegBytes { input, from })
}

/// The receipt that a leg of texts is to leave, where it has a path.
fn new_receipt<'a>(
    path: Option<&'a str>,
    texts: &'a LegTexts,
    bytes: &'a LegBytes,
) -> Option<NewReceipt<'a>> {
    let path = path?;
    Some(NewReceipt {
        path,
        plan: &texts.plan,
        input: &bytes.input,
        from: bytes.from.as_deref(),
        names: texts.names.as_deref(),
    })
}

/// The texts of a leg, lent, and what it is to leave: a receipt of a copy of its bytes, if it has a path.
fn job_of<'a>(
    texts: &'a LegTexts,
    copy: &'a LegBytes,
    save: Option<&'a str>,
    receipt: Option<&'a str>,
) -> LegJob<'a>
    ensures plan { result.plan.now ≡ texts.now.plan.items }
    ensures scale { result.scale.now ≡ texts.now.scale.items }
{
    LegJob {
        plan: &texts.plan,
        scale: &texts.scale,
        save,
        receipt: new_receipt(receipt, texts, copy),
    }
}

/// Runs the leg that the texts of files tell, and gives what it gives.
fn leg_of_texts<
    R: Files<File: Send, Dir: Send>
        + Print
        + RandomSource
        + Threads
        + Wait
        + Clock
        + Sync
        + AllocGlobal,
>(
    rt: &R,
    words: &LegWords<'_>,
    texts: &LegTexts,
    bytes: LegBytes,
    stop: LegStop<'_>,
) -> Result<(), JobFault>
    ensures { CannotRead result ⊎ ComesOfTexts stop.entry texts.now.plan.items bytes.input.items texts.now.scale.items (option_map (λ bytes. bytes.items) bytes.from) result }
{
    let copy = copied(rt.alloc(), words.receipt, &bytes)?;
    let job = job_of(texts, &copy, words.save, words.receipt);
    stopped_leg(rt, job, bytes, stop)
}

/// Runs the leg that files tell, unless a receipt tells of others, and gives what it gives.
fn leg_of_files<
    R: Files<File: Send, Dir: Send>
        + Print
        + RandomSource
        + Threads
        + Wait
        + Clock
        + Sync
        + AllocGlobal,
>(rt: &R, words: &LegWords<'_>, stop: LegStop<'_>) -> Result<(), LegRefusal>
    ensures { AnswersStop words.now stop.entry result }
{
    let (texts, bytes) = read_texts(rt, words)?;
    let from = bytes.from.as_deref();
    let since = texts.since.as_deref();
    let names = texts.names.as_deref();
    check_before(rt.alloc(), &texts.plan, &bytes.input, from, since, names)?;
    after_job(leg_of_texts(rt, words, &texts, bytes, stop))
}

/// Prints the rows of one leg of a job, once the savepoint that it leaves is written, and its receipt, if files are
/// named for them. Where it was given up for want of memory, these are the savepoint that it had sealed on its way, and
/// the rows up to there, and then it is told that memory ran out. With `since` it goes on only where the plan, the
/// entries before the savepoint's cut and the table of names are those that the receipt tells of.
///
/// # Errors
///
/// `Number` where words of receipts do not go with the others; `Write` where a file that it reads would be written
/// over; `Cut` where a file is to stop the leg, and a cut is named besides, or its savepoint would be lost; `Read`
/// where a file cannot be read; what is not as the receipt tells; else the fault of `job_leg`, or of `job_leg_asked`,
/// or `Memory` once all is given of a leg that was given up; `Write` where the savepoint, the receipt or the rows
/// cannot be written.
pub fn leg<
    R: Files<File: Send, Dir: Send>
        + Print
        + RandomSource
        + Threads
        + Wait
        + Clock
        + Sync
        + AllocGlobal,
>(rt: &R, words: &LegWords<'_>) -> Result<(), LegRefusal>
    ensures { AnswersLeg words.now result }
{
    if words.are_wrong() {
        return Err(LegRefusal::Job(JobFault::Number));
    }
    if words.overwrite() {
        return Err(LegRefusal::Job(JobFault::Write));
    }
    let stop = stop_of(words)?;
    leg_of_files(rt, words, stop)
}
