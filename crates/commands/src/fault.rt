//! Why a command is not done.

ghost use Rattle.std.specs.Prelude.{◌≡◌};
ghost use Rattle.import_words.specs.Status.{status as import_status};
ghost use Rattle.job_texts.specs.FaultText as fault_text;
ghost use Rattle.receipts.specs.FaultLine.{receipt_status};
ghost use Rattle.row_commands.specs.Refusals.{status as rows_status};
ghost use Rattle.commands.specs.Outcome.{after_command, after_leg, after_text};
ghost use Rattle.commands.specs.Status as statuses;

use import_words::ImportFault;
use job::{JobFault, status_of};
use leg_command::LegRefusal;
use receipts::ReceiptFault;
use row_commands::RowsRefusal;
use user_texts::TextFault;

/// Why a command is not done.
#[derive(Drop)]
pub enum CommandFault {
    /// The job has no answer.
    Job(JobFault),
    /// A leg does not go on by a receipt.
    Receipt(ReceiptFault),
    /// An input is not written.
    Import(ImportFault),
    /// A text of rows is not shown.
    Rows(RowsRefusal),
    /// No refusal has the code that was to be explained.
    NoPage,
}

/// What comes of a command on a job.
pub fn after_job(answer: Result<(), JobFault>) -> Result<(), CommandFault>
    ensures { result ≡ after_command answer }
{
    match answer {
        Ok(()) => Ok(()),
        Err(fault) => Err(CommandFault::Job(fault)),
    }
}

/// What comes of the command `leg`.
pub fn after_leg(answer: Result<(), LegRefusal>) -> Result<(), CommandFault>
    ensures { result ≡ after_leg answer }
{
    match answer {
        Ok(()) => Ok(()),
        Err(LegRefusal::Job(fault)) => Err(CommandFault::Job(fault)),
        Err(LegRefusal::Receipt(fault)) => Err(CommandFault::Receipt(fault)),
    }
}

/// What comes of a command on a text of the program's own.
pub fn after_page(answer: Result<(), TextFault>) -> Result<(), CommandFault>
    ensures { result ≡ after_text answer }
{
    match answer {
        Ok(()) => Ok(()),
        Err(TextFault::NoPage) => Err(CommandFault::NoPage),
        Err(TextFault::Write) => Err(CommandFault::Job(JobFault::Write)),
    }
}

/// Says the fault, which needs no memory.
fn failed<R: Eprint>(rt: &R, fault: &JobFault) -> u8
    ensures { result ≡ fault_text.status fault.now }
{
    let _ = rt.eprintln(fault);
    status_of(fault)
}

/// Says why a leg does not go on by a receipt, which needs no memory.
fn not_gone_on<R: Eprint>(rt: &R, fault: &ReceiptFault) -> u8
    ensures { result ≡ receipt_status fault.now }
{
    let _ = rt.eprintln(fault);
    receipts::status_of(fault)
}

/// Says why an input is not written, which needs no memory.
fn not_imported<R: Eprint>(rt: &R, fault: &ImportFault) -> u8
    ensures { result ≡ import_status fault.now }
{
    let _ = rt.eprintln(fault);
    import_words::status_of(fault)
}

/// Says why a text of rows is not shown, which needs no memory.
fn not_shown<R: Eprint>(rt: &R, fault: &RowsRefusal) -> u8
    ensures { result ≡ rows_status fault.now }
{
    let _ = rt.eprintln(fault);
    row_commands::status_of(fault)
}

/// Says that a code is none.
fn no_page<R: Eprint>(rt: &R) -> u8
    ensures { result ≡ 2 }
{
    let _ = rt.eprintln("error: no refusal has this code");
    2
}

/// Says why a command is not done, which needs no memory, and answers the status to end with.
pub fn told<R: Eprint>(rt: &R, fault: &CommandFault) -> u8
    ensures { result ≡ statuses.command_status fault.now }
{
    match fault {
        CommandFault::Job(fault) => failed(rt, fault),
        CommandFault::Receipt(fault) => not_gone_on(rt, fault),
        CommandFault::Import(fault) => not_imported(rt, fault),
        CommandFault::Rows(fault) => not_shown(rt, fault),
        CommandFault::NoPage => no_page(rt),
    }
}
