//! The commands, with their words.

use crate::check_words::CheckWords;
use crate::run_words::RunWords;
use import_command::ImportWords;
use leg_command::LegWords;
use part_command::SplitWords;
use row_commands::{DiffWords, ExportWords, MergeWords};

/// What the program is to do.
#[derive(Drop)]
pub enum Command<'a> {
    /// Print the rows of a plan on an input, in legs where a list of them is named, or in so many subtasks.
    Run {
        words: RunWords<'a>,
    },
    /// Print the rows of a plan on an input in legs, by an order of steps that choices pick.
    Simulate {
        plan: &'a str,
        input: &'a str,
        legs: &'a str,
        choices: &'a str,
    },
    /// Print the rows of one leg of a job.
    Leg {
        words: LegWords<'a>,
    },
    /// Print how far the partitions of an input go, or the first cut for a time, or the last that leaves the input
    /// open.
    Cuts {
        plan: &'a str,
        input: &'a str,
        until: Option<&'a str>,
        stays_open: bool,
    },
    /// Print the layout of a plan at a scale.
    Layout {
        plan: &'a str,
        scale: &'a str,
    },
    /// Print the places at which a plan is refused, or an input or a scale of it, or a leg over them.
    Check {
        words: CheckWords<'a>,
    },
    /// Write an input of a plan from CSV or NDJSON files.
    Import {
        words: ImportWords<'a>,
    },
    /// Write the parts of an input, so that several jobs come to the rows of one.
    Split {
        words: SplitWords<'a>,
    },
    /// Print the rows of a plan as a table, by the columns that they were imported from.
    Export {
        plan: &'a str,
        words: ExportWords<'a>,
    },
    /// Print what changed between two texts of rows.
    Diff {
        words: DiffWords<'a>,
    },
    /// Print the rows of several texts as one.
    Merge {
        words: MergeWords<'a>,
    },
    /// Print what a savepoint holds, or what one of its key groups does.
    Show {
        savepoint: &'a str,
        group: Option<&'a str>,
    },
    /// Print the group of a key and its owner.
    Group {
        key: &'a str,
        max: &'a str,
        par: &'a str,
    },
    /// Print the page of a fault.
    Explain {
        code: &'a str,
    },
    /// Print the version of the program and its toolchain.
    Version,
}
