//! What the command `import` does.

ghost use Rattle.std.specs.Prelude.{◌≡◌};
ghost use Rattle.commands.specs.Importing.{AnswersImport, ReadsPlan, ReadsText, after_import};

use crate::fault::CommandFault;
use command_files::file;
use import_command::ImportWords;
use import_words::ImportFault;
use job::JobFault;
use logical_plan::ReadPlan;
use plan_model::Plan;
use std::alloc::Global;
use std::random::RandomSource;
use std::rt::Files;

/// The plan that a text is.
fn plan_of(alloc: Global, text: &[u8]) -> Result<Plan, JobFault>
    ensures { ReadsText text.now result }
{
    match Plan::read(alloc, text) {
        Ok(plan) => Ok(plan),
        Err(fault) => Err(JobFault::from(fault)),
    }
}

/// The plan in the file at a path.
pub(crate) fn plan_at<R: Files + AllocGlobal>(rt: &R, path: &str) -> Result<Plan, JobFault>
    ensures { ReadsPlan result }
{
    let bytes = file(rt, path)?;
    plan_of(rt.alloc(), &bytes)
}

/// What comes of an import.
fn after_import(answer: Result<(), ImportFault>) -> Result<(), CommandFault>
    ensures { result ≡ after_import answer }
{
    match answer {
        Ok(()) => Ok(()),
        Err(fault) => Err(CommandFault::Import(fault)),
    }
}

/// Writes an input of a plan from CSV or NDJSON files.
///
/// # Errors
///
/// `Read` where the plan's file cannot be read, else the fault of the plan, else that of the import.
pub fn import<R: Files + Print + RandomSource + AllocGlobal>(
    rt: &R,
    words: &ImportWords<'_>,
) -> Result<(), CommandFault>
    ensures { AnswersImport result }
{
    match plan_at(rt, words.plan) {
        Ok(plan) => after_import(import_command::import(rt, &plan, words)),
        Err(fault) => Err(CommandFault::Job(fault)),
    }
}
