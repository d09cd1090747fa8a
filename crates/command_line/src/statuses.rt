//! The status that the program ends with.

ghost use Rattle.std.specs.Prelude.{◌≡◌};
ghost use Rattle.std.specs.IoError.{error_kind};
ghost use Rattle.clap.specs.Words.{kind_of};
ghost use Rattle.command_line.specs.Status as statuses;

use crate::advice::WordsFault;
use crate::outcomes::Refusal;
use clap::error;
use commands::{CommandFault, told};
use job_texts::JobFault;
use std::io;

/// Says that there is no memory.
fn no_memory<R: Eprint>(rt: &R) -> u8
    ensures { result ≡ 4 }
{
    told(rt, &CommandFault::Job(JobFault::Memory))
}

/// Says what is wrong with the words. Help counts as that, so that standard output has rows alone.
fn refused<R: Eprint>(rt: &R, error: &clap::Error) -> u8
    ensures { result ≡ statuses.words_status (kind_of error.now) }
{
    if error.kind() == error::ErrorKind::OutOfMemory {
        return no_memory(rt);
    }
    let _ = rt.eprint(WordsFault(error));
    2
}

/// Says why there are no words.
fn unread<R: Eprint>(rt: &R, error: &io::Error) -> u8
    ensures { result ≡ statuses.unread_status (error_kind error.now) }
{
    if error.kind() == io::ErrorKind::OutOfMemory {
        return no_memory(rt);
    }
    let _ = rt.eprintln("error: a word is not UTF-8");
    2
}

/// Says why no command is done, and answers the status to end with.
pub fn status<R: Eprint>(rt: &R, outcome: &Result<(), Refusal>) -> u8
    ensures { result ≡ statuses.status outcome.now }
{
    match outcome {
        Ok(()) => 0,
        Err(Refusal::Unread(error)) => unread(rt, error),
        Err(Refusal::Words(error)) => refused(rt, error),
        Err(Refusal::Fault(fault)) => told(rt, fault),
    }
}
