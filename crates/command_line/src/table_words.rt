//! The words of the commands on texts of rows.

ghost use Rattle.std.specs.Prelude.{IfOk};
ghost use Rattle.command_line.specs.Words.{IsCommand, diff_shape, export_files_shape, export_shape, rows_shape};

use crate::words::{PLAN, flag, named, option, required, several};
use clap::Command;
use std::alloc::{AllocError, Global};

const EXPORT: &str = "\
Each row becomes a record of CSV, or a JSON object a line: start and end of its window, its key, and the
number of each aggregate, as they were before the import whose COLUMNS are named: times, days, months
and years in ISO 8601, names, decimals with their point. COLUMNS are those of `import`.

Example: streamjob export plan.json rows.txt time:ms,customer:name,bytes --names names.csv
Page: docs/FORMATS.md, under Export";

/// The files of an export.
fn export_files<'a>(alloc: Global) -> Result<Command<'a>, AllocError>
    ensures { IfOk result (λ c. IsCommand export_files_shape c) }
{
    let about = "Print the rows of a plan as a table, with times, names and decimals";
    let command = named(alloc, "export", about, EXPORT);
    let command = required(alloc, command, "PLAN", PLAN)?;
    let command = required(
        alloc,
        command,
        "ROWS",
        "File of the rows, as `run` prints them",
    )?;
    required(
        alloc,
        command,
        "COLUMNS",
        "Fields of the files that made a record, as `import` has them",
    )
}

/// The same with its options.
pub(crate) fn export_words<'a>(alloc: Global) -> Result<Command<'a>, AllocError>
    ensures { IfOk result (λ c. IsCommand export_shape c) }
{
    let command = export_files(alloc)?;
    let command = option(
        alloc,
        command,
        "names",
        "FILE",
        "File of the table of names",
    )?;
    let command = option(
        alloc,
        command,
        "header",
        "WORD",
        "Whether the names of the fields stand in front: yes or no (yes)",
    )?;
    flag(
        alloc,
        command,
        "json",
        "Print a JSON object a line in place of CSV; not with --header",
    )
}

const DIFF: &str = "\
It prints the rows that stand in one text alone, and those that have other numbers, in the order of
START and KEY. Both texts are read once, side by side.

Example: streamjob diff old.txt new.txt
Page: docs/FORMATS.md, under Diff";

pub(crate) fn diff_words<'a>(alloc: Global) -> Result<Command<'a>, AllocError>
    ensures { IfOk result (λ c. IsCommand diff_shape c) }
{
    let about = "Print what changed between two texts of rows";
    let command = named(alloc, "diff", about, DIFF);
    let command = required(alloc, command, "OLD", "File of the old rows")?;
    required(alloc, command, "NEW", "File of the new rows")
}

const ROWS: &str = "\
The rows of all files come in the order of START and KEY, as `run` prints those of one job. No two
files have a row of one START and KEY. Each file is read once, side by side with the others.

Example: streamjob rows rows.0 rows.1 rows.2
Page: docs/FORMATS.md, under Rows";

pub(crate) fn rows_words<'a>(alloc: Global) -> Result<Command<'a>, AllocError>
    ensures { IfOk result (λ c. IsCommand rows_shape c) }
{
    let about = "Print the rows of several texts as one";
    let command = named(alloc, "rows", about, ROWS);
    several(
        alloc,
        command,
        "FILE",
        "File of rows, as `run` prints them; may be repeated",
    )
}
