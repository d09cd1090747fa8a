//! From the words to what comes of them.

ghost use Rattle.std.specs.Prelude.{◌≡◌, map, string_bytes};
ghost use Rattle.clap.specs.Words.{subcommand_name_of};
ghost use Rattle.job_texts.specs.declared.fault.JobFault.TheVariants.{Memory};
ghost use Rattle.commands.specs.declared.fault.CommandFault.TheVariants.{Job};
ghost use Rattle.command_line.specs.Outcome.{after_performed, AnswersNamed, AnswersWords, AnswersProgram};
ghost use Rattle.command_line.specs.declared.outcomes.Refusal.TheVariants.{Words, Fault};

use crate::reading::found_command;
use crate::words::command;
use clap::ArgMatches;
use commands::{CommandFault, performed};
use job_texts::JobFault;
use std::alloc::AllocError;
use std::random::RandomSource;
use std::rt::{Env, Files};
use std::sync::Wait;
use std::thread::Threads;
use std::time::Clock;
use std::{env, io};

/// Why the program ends with no command done.
#[derive(Drop)]
pub enum Refusal {
    /// The words that it was started with could not be read as text.
    Unread(io::Error),
    /// The words are not understood, or ask for help.
    Words(clap::Error),
    /// The command is not done.
    Fault(CommandFault),
}

impl From<clap::Error> for Refusal {
    ghost from_gives = { λ error e. e ≡ Words error };

    fn from(error: clap::Error) -> Refusal {
        Refusal::Words(error)
    }
}

impl From<AllocError> for Refusal {
    ghost from_gives = { λ _ e. e ≡ Fault (Job Memory) };

    fn from(_e: AllocError) -> Refusal {
        Refusal::Fault(CommandFault::Job(JobFault::Memory))
    }
}

/// What comes of what a command does.
fn done(answer: Result<(), CommandFault>) -> Result<(), Refusal>
    ensures { result ≡ after_performed answer }
{
    match answer {
        Ok(()) => Ok(()),
        Err(fault) => Err(Refusal::Fault(fault)),
    }
}

/// Does what the command asks for that the words name; clap lets no others through.
fn chosen<
    R: Files<File: Send, Dir: Send>
        + Print
        + RandomSource
        + Threads
        + Wait
        + Clock
        + Sync
        + AllocGlobal,
>(rt: &R, matches: &ArgMatches<'_>) -> Result<(), Refusal>
    ensures { AnswersNamed (subcommand_name_of matches.now) result }
{
    match found_command(matches) {
        Some(command) => done(performed(rt, &command)),
        None => Err(Refusal::Fault(CommandFault::Job(JobFault::Number))),
    }
}

/// The words that the program was started with, its own name first.
fn words_of<R: Env + AllocGlobal>(rt: &R) -> io::Result<Vec<String>> {
    let words = env::args(rt)?.collect::<Vec<String>>(rt.alloc())?;
    Ok(words)
}

/// Does what the command asks for that words name, the program's own name first.
fn obeyed<
    R: Files<File: Send, Dir: Send>
        + Print
        + RandomSource
        + Threads
        + Wait
        + Clock
        + Sync
        + AllocGlobal,
>(rt: &R, words: &[String]) -> Result<(), Refusal>
    ensures { AnswersWords (map string_bytes words.now) result }
{
    let command = command(rt.alloc())?;
    let matches = command.try_get_matches_from(words)?;
    chosen(rt, &matches)
}

/// Does what the command asks for that the program's words name.
///
/// # Errors
///
/// Why no command is done: the words, or the fault of the command.
pub fn outcome<
    R: Files<File: Send, Dir: Send>
        + Print
        + Env
        + RandomSource
        + Threads
        + Wait
        + Clock
        + Sync
        + AllocGlobal,
>(rt: &R) -> Result<(), Refusal>
    ensures { AnswersProgram result }
{
    match words_of(rt) {
        Ok(words) => obeyed(rt, words.as_slice()),
        Err(error) => Err(Refusal::Unread(error)),
    }
}
