//! What a leg leaves: its savepoint, then its receipt, then its rows.

ghost use Rattle.std.specs.Prelude.{◌≡◌, is_some, option_map, IfErr, IfOk};
ghost use Rattle.new_files.specs.Streams.{HasGot};
ghost use Rattle.leg_command.specs.Answers as answers;
ghost use Rattle.leg_command.specs.Answers.{CannotWrite, HasReceipt, IsKept, IsReceiptKept, after_leg, after_made};

use command_files::{check_apart, print, save};
use job::LegOut;
use job_texts::JobFault;
use leg_receipts::{Told, leg_receipt};
use new_files::NewStream;
use std::random::RandomSource;
use std::rt::Files;
use user_texts::VERSION;

/// A receipt that is to be written: where to, and what it is of.
#[derive(Clone, Copy)]
pub(crate) struct NewReceipt<'a> {
    pub(crate) path: &'a str,
    pub(crate) plan: &'a [u8],
    pub(crate) input: &'a [u8],
    pub(crate) from: Option<&'a [u8]>,
    pub(crate) names: Option<&'a [u8]>,
}

/// Writes bytes to the file at a path, where the standard output does not go, and gives what they were written to.
fn keep<'r, R: Files + Print + RandomSource + AllocGlobal>(
    rt: &'r R,
    path: &str,
    bytes: &[u8],
) -> Result<NewStream<'r, R>, JobFault>
    ensures written { IfOk result (λ stream. HasGot R.File.contents stream bytes.now) }
    ensures refused { IfErr result CannotWrite }
{
    check_apart(rt, path)?;
    save(rt, path, bytes)
}

/// Writes the savepoint that a leg left, if it left one and a file is named for it, and gives what it was written to.
fn keep_savepoint<'r, R: Files + Print + RandomSource + AllocGlobal>(
    rt: &'r R,
    path: Option<&str>,
    saved: Option<&[u8]>,
) -> Result<Option<NewStream<'r, R>>, JobFault>
    ensures kept { IfOk result (λ kept. IsKept R.File.contents (is_some path.entry) (option_map (λ bytes. bytes.now) saved.entry) kept) }
    ensures refused { IfErr result CannotWrite }
{
    match (path, saved) {
        (Some(path), Some(bytes)) => Ok(Some(keep(rt, path, bytes)?)),
        _ => Ok(None),
    }
}

/// The version of the program.
fn version() -> &'static str {
    match VERSION.split_once('\n') {
        Some((version, _)) => version,
        None => VERSION,
    }
}

/// Writes the receipt of a leg that was run, and gives what it was written to. Its texts have been read, so that only
/// memory can be wanting.
fn write_receipt<'r, 'a, R: Files + Print + RandomSource + AllocGlobal>(
    rt: &'r R,
    receipt: NewReceipt<'a>,
    saved: Option<&[u8]>,
    rows: &'a [u8],
) -> Result<NewStream<'r, R>, JobFault>
    ensures written { IfOk result (λ stream. HasReceipt R.File.contents receipt.entry (option_map (λ bytes. bytes.now) saved.entry) rows.now stream) }
    ensures refused { IfErr result CannotWrite }
{
    let NewReceipt {
        path,
        plan,
        input,
        from,
        names,
    } = receipt;
    let told = Told {
        version: version(),
        rows,
        names,
    };
    match leg_receipt(rt.alloc(), plan, input, from, saved, told) {
        Ok(text) => keep(rt, path, text.as_bytes()),
        Err(_) => Err(JobFault::Memory),
    }
}

/// Writes the receipt, if there is to be one, and gives what it was written to.
fn keep_receipt<'r, 'a, R: Files + Print + RandomSource + AllocGlobal>(
    rt: &'r R,
    receipt: Option<NewReceipt<'a>>,
    saved: Option<&[u8]>,
    rows: &'a [u8],
) -> Result<Option<NewStream<'r, R>>, JobFault>
    ensures kept { IfOk result (λ kept. IsReceiptKept R.File.contents receipt.entry (option_map (λ bytes. bytes.now) saved.entry) rows.now kept) }
    ensures refused { IfErr result CannotWrite }
{
    match receipt {
        Some(receipt) => Ok(Some(write_receipt(rt, receipt, saved, rows)?)),
        None => Ok(None),
    }
}

/// The fault of a call that writes into memory: it takes no more only where there is none left.
fn buffered(fault: JobFault) -> JobFault
    ensures { result ≡ answers.buffered fault }
{
    match fault {
        JobFault::Write => JobFault::Memory,
        other => other,
    }
}

/// Where what a leg leaves goes.
#[derive(Clone, Copy)]
pub(crate) struct Place<'a> {
    /// Where its savepoint goes.
    pub(crate) save: Option<&'a str>,
    pub(crate) receipt: Option<NewReceipt<'a>>,
    /// Whether it was to go to the end of its input. A savepoint that it then leaves is one on its way, and no place of
    /// its receipt.
    pub(crate) goes_on: bool,
}

/// Keeps what a leg leaves, and then prints its rows: rows whose savepoint or receipt is lost would come again.
fn give_leg<'a, R: Files + Print + RandomSource + AllocGlobal>(
    rt: &R,
    place: Place<'a>,
    out: &LegOut,
    rows: &'a [u8],
) -> Result<(), JobFault>
    ensures { IfErr result CannotWrite }
{
    let saved = out.savepoint.as_deref();
    let stopped = if place.goes_on && !out.abandoned {
        None
    } else {
        saved
    };
    keep_savepoint(rt, place.save, saved)?;
    keep_receipt(rt, place.receipt, stopped, rows)?;
    print(rt, rows)
}

/// Gives what a leg gives whose rows are in memory, or tells why there is no such leg. One that was given up is told as
/// such, once all that it gives is given.
pub(crate) fn given<'a, R: Files + Print + RandomSource + AllocGlobal>(
    rt: &R,
    place: Place<'a>,
    answer: Result<LegOut, JobFault>,
    rows: &'a [u8],
) -> Result<(), JobFault>
    ensures { after_leg (λ out. out.abandoned) answer result }
{
    match answer {
        Ok(out) => {
            give_leg(rt, place, &out, rows)?;
            if out.abandoned {
                return Err(JobFault::Memory);
            }
            Ok(())
        }
        Err(fault) => Err(buffered(fault)),
    }
}

/// Keeps the receipt of rows, and then prints them.
fn give_rows<'a, R: Files + Print + RandomSource + AllocGlobal>(
    rt: &R,
    receipt: NewReceipt<'a>,
    rows: &'a [u8],
) -> Result<(), JobFault>
    ensures { IfErr result CannotWrite }
{
    write_receipt(rt, receipt, None, rows)?;
    print(rt, rows)
}

/// The same of rows of which no savepoint is left.
pub(crate) fn given_rows<'a, R: Files + Print + RandomSource + AllocGlobal>(
    rt: &R,
    receipt: NewReceipt<'a>,
    answer: Result<(), JobFault>,
    rows: &'a [u8],
) -> Result<(), JobFault>
    ensures { after_made answer result }
{
    match answer {
        Ok(()) => give_rows(rt, receipt, rows),
        Err(fault) => Err(buffered(fault)),
    }
}
