//! The words of the command that deals an input out.

ghost use Rattle.std.specs.Prelude.{IfOk};
ghost use Rattle.command_line.specs.Words.{IsCommand, split_shape};

use crate::words::{INPUT, PLAN, named, required};
use clap::Command;
use std::alloc::{AllocError, Global};

const SPLIT: &str = "\
It writes OUT.0 to OUT.(N-1), each an input of the plan: of each partition the records whose keys'
groups one of N subtasks would own, and all watermarks. `run` of each and `rows` of what they print
come to the rows of one `run`.

Example: streamjob split plan.json input.json 4 part
Page: docs/GUIDE.md, under More than one machine";

pub(crate) fn split_words<'a>(alloc: Global) -> Result<Command<'a>, AllocError>
    ensures { IfOk result (λ c. IsCommand split_shape c) }
{
    let about = "Write an input in parts, for as many jobs";
    let command = named(alloc, "split", about, SPLIT);
    let command = required(alloc, command, "PLAN", PLAN)?;
    let command = required(alloc, command, "INPUT", INPUT)?;
    let command = required(
        alloc,
        command,
        "N",
        "How many parts, 1 to 64 and at most the plan's maxParallelism",
    )?;
    required(
        alloc,
        command,
        "OUT",
        "What the names of the files of the parts begin with",
    )
}
