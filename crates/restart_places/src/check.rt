//! From a fault to its places.

ghost use Rattle.std.specs.Prelude.{◌≡◌, ◌<◌, length, IfOk, OnOk};
ghost use Rattle.job_texts.specs.declared.fault.JobFault.TheVariants.{Memory};

use crate::partitions::records_before;
use crate::saved::least_watermark;
use crate::{entries, operators, partitions, plan_parts, stop};
use job_texts::{JobFault, read_cut};
use key_groups::MaxParallelism;
use legs::RestoreFault;
use plan_model::Plan;
use savepoint_codec::{Contents, SavedSource};
use savepoint_index::decode;
use std::alloc::{AllocError, Global};
use std::io::Write;
use std::{fmt, io};
use stream_model::Input;
use text_places::Findings;

/// What a job is to go on from, and where its next leg is to stop: the bytes of a savepoint with the name of its file,
/// and the word of a cut.
#[derive(Clone, Copy)]
pub struct Restart<'r> {
    pub file: &'r str,
    pub savepoint: Option<&'r [u8]>,
    pub stop: Option<&'r str>,
}

/// Tells of the entries that stand under another key group than their keys'.
fn check_groups(
    alloc: Global,
    found: &mut Findings,
    plan: &Plan,
    contents: &Contents,
) -> Result<(), AllocError> {
    let Some(max) = MaxParallelism::new(plan.max()) else {
        return Ok(());
    };
    let test = entries::Test::InGroup(max);
    entries::check_entries(
        alloc,
        found,
        plan.window(),
        &test,
        contents.groups.as_slice(),
    )
}

/// Tells of a number that leaves no room for those of legs to come.
fn check_number(
    alloc: Global,
    found: &mut Findings,
    contents: &Contents,
) -> Result<(), AllocError> {
    let number = contents.number;
    let sentence = format!(in alloc;
        "the savepoint has the number {number}, which is over 2^63: the file was not written by a job, or it was damaged"
    )?;
    found.tell(0, sentence)
}

/// Tells of the entries that do not fit how far the input was read.
fn check_reached(
    alloc: Global,
    found: &mut Findings,
    plan: &Plan,
    input: &Input,
    contents: &Contents,
    fault: RestoreFault,
) -> Result<(), AllocError> {
    let test = match fault {
        RestoreFault::ClosedWindow => {
            entries::Test::Open(least_watermark(contents.sources.as_slice()))
        }
        _ => entries::Test::Counted(records_before(plan, input, contents)),
    };
    entries::check_entries(
        alloc,
        found,
        plan.window(),
        &test,
        contents.groups.as_slice(),
    )
}

/// Tells of the places at which a savepoint does not meet the requirement of a fault.
fn check_savepoint(
    alloc: Global,
    found: &mut Findings,
    plan: &Plan,
    input: &Input,
    contents: &Contents,
    fault: RestoreFault,
) -> Result<(), AllocError> {
    match fault {
        RestoreFault::MaxParallelism => operators::check_max(alloc, found, plan, contents),
        RestoreFault::UnknownUid => operators::check_known(alloc, found, plan, contents),
        RestoreFault::MissingUid => operators::check_all_saved(alloc, found, plan, contents),
        RestoreFault::PlanChanged => plan_parts::check_plan(alloc, found, plan, contents),
        RestoreFault::Partitions => operators::check_counts(alloc, found, plan, contents),
        RestoreFault::Offset => {
            let test = partitions::Test::Offset;
            partitions::check_partitions(alloc, found, plan, input, contents, test)
        }
        RestoreFault::Watermark => {
            let test = partitions::Test::Watermark;
            partitions::check_partitions(alloc, found, plan, input, contents, test)
        }
        RestoreFault::WrongGroup => check_groups(alloc, found, plan, contents),
        RestoreFault::ClosedWindow | RestoreFault::Count => {
            check_reached(alloc, found, plan, input, contents, fault)
        }
        RestoreFault::Number => check_number(alloc, found, contents),
        RestoreFault::Memory => Ok(()),
    }
}

/// Tells why a job cannot go on from the savepoint that bytes spell.
fn check_bytes(
    alloc: Global,
    found: &mut Findings,
    plan: &Plan,
    input: &Input,
    bytes: &[u8],
    fault: RestoreFault,
) -> Result<(), AllocError> {
    match decode(alloc, bytes) {
        Ok(savepoint) => check_savepoint(alloc, found, plan, input, savepoint.contents(), fault),
        Err(_) => Ok(()),
    }
}

/// Tells why a leg that begins where these sources were read so far cannot stop at the cut that a word spells.
fn check_word(
    alloc: Global,
    found: &mut Findings,
    plan: &Plan,
    input: &Input,
    sources: &[SavedSource],
    word: &str,
) -> Result<(), AllocError> {
    match read_cut(alloc, word) {
        Ok(cut) => stop::check_stop(alloc, found, plan, input, sources, &cut),
        Err(_) => Ok(()),
    }
}

/// Tells why a leg from the savepoint that bytes spell, or from nothing, cannot stop at the cut that a word spells.
fn check_leg(
    alloc: Global,
    found: &mut Findings,
    plan: &Plan,
    input: &Input,
    savepoint: Option<&[u8]>,
    word: &str,
) -> Result<(), AllocError> {
    let Some(bytes) = savepoint else {
        return check_word(alloc, found, plan, input, &[], word);
    };
    match decode(alloc, bytes) {
        Ok(savepoint) => {
            let sources = savepoint.contents().sources.as_slice();
            check_word(alloc, found, plan, input, sources, word)
        }
        Err(_) => Ok(()),
    }
}

/// Tells of the places of a fault.
fn check(
    alloc: Global,
    found: &mut Findings,
    plan: &Plan,
    input: &Input,
    restart: Restart<'_>,
    fault: JobFault,
) -> Result<(), AllocError> {
    match (fault, restart.savepoint, restart.stop) {
        (JobFault::Restore(fault), Some(bytes), _) => {
            check_bytes(alloc, found, plan, input, bytes, fault)
        }
        (JobFault::Leg(_), savepoint, Some(word)) => {
            check_leg(alloc, found, plan, input, savepoint, word)
        }
        _ => Ok(()),
    }
}

/// What is told where no place is found.
fn sentence_of(fault: JobFault) -> &'static str {
    match fault {
        JobFault::Save(_) =>
            "the file is no savepoint: it was not written by a job, or it was cut short or damaged",
        JobFault::Cut =>
            "this is no cut: it has a count of entries for each partition, with `,` between them, and with `/` between sources, as 2,2/5",
        JobFault::Leg(_) => "no leg can stop at this cut",
        JobFault::Restore(RestoreFault::PlanChanged) =>
            "the plan in the savepoint is not the one that its uids and numbers are of: the file was not written by a job, or it was damaged",
        _ => "the job cannot go on from the savepoint",
    }
}

/// Tells of the whole where no place was found.
fn tell_whole(alloc: Global, found: &mut Findings, sentence: &str) -> Result<(), AllocError>
    ensures { OnOk result (0 < length found.new.places) }
{
    if !found.is_empty() {
        return Ok(());
    }
    found.tell(0, String::from_str(alloc, sentence)?)
}

/// The places at which a savepoint, or the cut of a leg from there, does not meet the requirement of its fault with a
/// plan and an input of it: at least one, and of many the first 20. Each is of the whole, at offset 0.
///
/// # Errors
///
/// Where memory runs out.
pub fn places_of(
    alloc: Global,
    plan: &Plan,
    input: &Input,
    restart: Restart<'_>,
    fault: JobFault,
) -> Result<Findings, AllocError>
    ensures { IfOk result (λ found. 0 < length found.places) }
{
    let mut found = Findings::new(alloc, 0);
    check(alloc, &mut found, plan, input, restart, fault)?;
    tell_whole(alloc, &mut found, sentence_of(fault))?;
    Ok(found)
}

/// What places are of, as a line begins with it.
#[derive(Clone, Copy)]
enum Subject<'s> {
    File(&'s str),
    Stop(&'s str),
}

impl fmt::Display for Subject<'_> {
    fn fmt<W: fmt::Write>(&self, f: &mut fmt::Formatter<W>) -> fmt::Result {
        match self {
            Subject::File(file) => f.write_str(file),
            Subject::Stop(word) => write!(f, "--stop {word}"),
        }
    }
}

/// What the places of a fault are of.
fn subject_of<'r>(restart: Restart<'r>, fault: JobFault) -> Subject<'r> {
    match (fault, restart.stop) {
        (JobFault::Cut | JobFault::Leg(_), Some(word)) => Subject::Stop(word),
        _ => Subject::File(restart.file),
    }
}

/// Writes a line for each place.
fn write_lines<W: Write>(out: &mut W, subject: Subject<'_>, found: &Findings) -> io::Result<()> {
    for finding in found.places() {
        let sentence = finding.sentence.as_str();
        writeln!(out, "{subject}: {sentence}")?;
    }
    out.flush()
}

/// Writes why a job cannot go on from a savepoint, or its leg cannot stop at a cut, a line for each place, as far as
/// there is memory for them and the writer takes them. Each begins with the name of the savepoint's file, or with
/// `--stop` and the word of the cut. Of want of memory it writes nothing.
pub fn write_places<W: Write>(
    alloc: Global,
    plan: &Plan,
    input: &Input,
    restart: Restart<'_>,
    fault: JobFault,
    out: &mut W,
)
    ensures quiet { fault ≡ Memory → W.contents out.new ≡ W.contents out.old }
{
    if fault == JobFault::Memory {
        return;
    }
    if let Ok(found) = places_of(alloc, plan, input, restart, fault) {
        let _ = write_lines(out, subject_of(restart, fault), &found);
    }
}
