//! From a command to what it does.

ghost use Rattle.commands.specs.Outcome.{Performs};

use crate::actions::{cuts, explain, group, layout, run, show, simulate, version};
use crate::checking::check;
use crate::command::Command;
use crate::fault::{CommandFault, after_job, after_leg, after_page};
use crate::importing::import;
use crate::tables::{diff, export, merge};
use leg_command::leg;
use part_command::split;
use std::random::RandomSource;
use std::rt::Files;
use std::sync::Wait;
use std::thread::Threads;
use std::time::Clock;

/// Does what a command asks for.
///
/// # Errors
///
/// Why it is not done.
pub fn performed<
    R: Files<File: Send, Dir: Send>
        + Print
        + RandomSource
        + Threads
        + Wait
        + Clock
        + Sync
        + AllocGlobal,
>(rt: &R, command: &Command<'_>) -> Result<(), CommandFault>
    ensures { Performs command.now result }
{
    match command {
        Command::Run { words } => after_job(run(rt, words)),
        Command::Simulate {
            plan,
            input,
            legs,
            choices,
        } => after_job(simulate(rt, plan, input, legs, choices)),
        Command::Leg { words } => after_leg(leg(rt, words)),
        Command::Cuts {
            plan,
            input,
            until,
            stays_open,
        } => after_job(cuts(rt, plan, input, *until, *stays_open)),
        Command::Layout { plan, scale } => after_job(layout(rt, plan, scale)),
        Command::Check { words } => after_job(check(rt, words)),
        Command::Import { words } => import(rt, words),
        Command::Split { words } => after_job(split(rt, words)),
        Command::Export { plan, words } => export(rt, plan, words),
        Command::Diff { words } => diff(rt, words),
        Command::Merge { words } => merge(rt, words),
        Command::Show { savepoint, group } => after_job(show(rt, savepoint, *group)),
        Command::Group { key, max, par } => after_job(group(rt, key, max, par)),
        Command::Explain { code } => after_page(explain(rt, code)),
        Command::Version => after_page(version(rt)),
    }
}
