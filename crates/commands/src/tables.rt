//! What the commands on texts of rows do.

ghost use Rattle.std.specs.Prelude.{◌≡◌};
ghost use Rattle.commands.specs.Tables.{AnswersDiff, AnswersExport, AnswersMerge, after_rows};

use crate::fault::CommandFault;
use crate::importing::plan_at;
use plan_model::Plan;
use row_commands::{DiffWords, ExportWords, MergeWords, RowsRefusal};
use std::io::{Write, writer};
use std::random::RandomSource;
use std::rt::Files;

/// What comes of a command on a text of rows.
fn after_rows(answer: Result<(), RowsRefusal>) -> Result<(), CommandFault>
    ensures { result ≡ after_rows answer }
{
    match answer {
        Ok(()) => Ok(()),
        Err(fault) => Err(CommandFault::Rows(fault)),
    }
}

/// Prints the rows of a plan that was read as a table.
fn export_by<R: Files + Print + RandomSource + AllocGlobal>(
    rt: &R,
    plan: &Plan,
    words: &ExportWords<'_>,
) -> Result<(), RowsRefusal> {
    let mut out = row_commands::export(rt, plan, words, writer(rt))?;
    match out.flush() {
        Ok(()) => Ok(()),
        Err(_) => Err(RowsRefusal::Write),
    }
}

/// Prints the rows of a plan as a table, by the columns that they were imported from.
///
/// # Errors
///
/// `Read` where the plan's file cannot be read, else the fault of the plan, else that of the export.
pub fn export<R: Files + Print + RandomSource + AllocGlobal>(
    rt: &R,
    plan: &str,
    words: &ExportWords<'_>,
) -> Result<(), CommandFault>
    ensures { AnswersExport result }
{
    match plan_at(rt, plan) {
        Ok(plan) => after_rows(export_by(rt, &plan, words)),
        Err(fault) => Err(CommandFault::Job(fault)),
    }
}

/// Prints what changed between two texts of rows.
///
/// # Errors
///
/// The fault of the comparison.
pub fn diff<R: Files + Print + AllocGlobal>(
    rt: &R,
    words: &DiffWords<'_>,
) -> Result<(), CommandFault>
    ensures { AnswersDiff result }
{
    after_rows(row_commands::diff(rt, words, &mut writer(rt)))
}

/// Prints the rows of several texts as one.
///
/// # Errors
///
/// The fault of the first text that is none of rows in order, or of one that has a row where another has.
pub fn merge<R: Files + Print + AllocGlobal>(
    rt: &R,
    words: &MergeWords<'_>,
) -> Result<(), CommandFault>
    ensures { AnswersMerge result }
{
    after_rows(row_commands::merge(rt, words, &mut writer(rt)))
}
