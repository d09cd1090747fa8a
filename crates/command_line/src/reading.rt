//! From what clap finds in words to a command.

ghost use Rattle.std.specs.Prelude.{◌≡◌, option_map};
ghost use Rattle.clap.specs.Words.{found_of, subcommand_name_of};
ghost use Rattle.command_line.specs.Reading.{word, HasCheckWords, HasExportWords, HasImportWords, HasLegWords, HasMergeWords, HasRunWords, HasSplitWords, IsFound, IsRead, IsReadOf, is_file_command, is_job_command, is_told_command};

use clap::ArgMatches;
use commands::{CheckWords, Command, RunWords};
use import_command::ImportWords;
use leg_command::LegWords;
use part_command::SplitWords;
use row_commands::{DiffWords, ExportWords, MergeWords};

fn named<'a>(words: &ArgMatches<'a>, name: &str) -> &'a str
    ensures { result.now ≡ word (found_of words.now) name.now }
{
    words.get_str(name).unwrap_or("")
}

/// The words of an import.
fn import_words<'m>(words: &'m ArgMatches<'_>) -> ImportWords<'m>
    ensures { HasImportWords (found_of words.now) result }
{
    ImportWords {
        plan: named(words, "PLAN"),
        input: named(words, "INPUT"),
        columns: named(words, "COLUMNS"),
        sources: words.get_strs("SOURCE").unwrap_or(&[]),
        names: words.get_str("names"),
        bound: words.get_str("bound"),
        late: words.get_str("late"),
        once: words.get_str("once"),
        twice: words.get_str("twice"),
        bad: words.get_str("bad"),
        report: words.get_str("report"),
        zones: words.get_str("zones"),
        zone: words.get_str("zone"),
        fold: words.get_str("fold"),
        separator: words.get_str("separator"),
        decimal: words.get_str("decimal"),
        is_aligned: words.get_flag("align"),
        rows: words.get_str("rows"),
        ranges: words.get_str("ranges"),
    }
}

/// The words of a check.
fn check_words<'m>(words: &'m ArgMatches<'_>) -> CheckWords<'m>
    ensures { HasCheckWords (found_of words.now) result }
{
    CheckWords {
        plan: named(words, "PLAN"),
        input: words.get_str("INPUT"),
        scale: words.get_str("SCALE"),
        scale_option: words.get_str("scale"),
        from: words.get_str("from"),
        stop: words.get_str("stop"),
        save: words.get_str("save"),
    }
}

/// The words of an export behind its plan's.
fn export_words<'m>(words: &'m ArgMatches<'_>) -> ExportWords<'m>
    ensures { HasExportWords (found_of words.now) result }
{
    ExportWords {
        rows: named(words, "ROWS"),
        columns: named(words, "COLUMNS"),
        names: words.get_str("names"),
        header: words.get_str("header"),
        json: words.get_flag("json"),
    }
}

/// The words of a split.
fn split_words<'m>(words: &'m ArgMatches<'_>) -> SplitWords<'m>
    ensures { HasSplitWords (found_of words.now) result }
{
    SplitWords {
        plan: named(words, "PLAN"),
        input: named(words, "INPUT"),
        parts: named(words, "N"),
        out: named(words, "OUT"),
    }
}

/// The words of a merge.
fn merge_words<'m>(words: &'m ArgMatches<'_>) -> MergeWords<'m>
    ensures { HasMergeWords (found_of words.now) result }
{
    MergeWords {
        files: words.get_strs("FILE").unwrap_or(&[]),
    }
}

/// The words of a run.
fn run_words<'m>(words: &'m ArgMatches<'_>) -> RunWords<'m>
    ensures { HasRunWords (found_of words.now) result }
{
    RunWords {
        plan: named(words, "PLAN"),
        input: named(words, "INPUT"),
        legs: words.get_str("LEGS"),
        parallelism: words.get_str("parallelism"),
        receipt: words.get_str("receipt"),
        names: words.get_str("names"),
    }
}

/// The words of a leg.
fn leg_words<'m>(words: &'m ArgMatches<'_>) -> LegWords<'m>
    ensures { HasLegWords (found_of words.now) result }
{
    LegWords {
        plan: named(words, "PLAN"),
        input: named(words, "INPUT"),
        scale: named(words, "SCALE"),
        from: words.get_str("from"),
        saves: words.get_str("saves"),
        stop: words.get_str("stop"),
        stop_file: words.get_str("stop-file"),
        save: words.get_str("save"),
        since: words.get_str("since"),
        receipt: words.get_str("receipt"),
        names: words.get_str("names"),
    }
}

/// The command that runs a job, or tells how it is laid out, that a name and the words after it say, if the name is one
/// of such.
fn job_command<'m>(name: &str, words: &'m ArgMatches<'_>) -> Option<Command<'m>>
    ensures { IsReadOf is_job_command name.now (found_of words.now) result }
{
    match name {
        "run" => Some(Command::Run {
            words: run_words(words),
        }),
        "simulate" => Some(Command::Simulate {
            plan: named(words, "PLAN"),
            input: named(words, "INPUT"),
            legs: named(words, "LEGS"),
            choices: named(words, "CHOICES"),
        }),
        "leg" => Some(Command::Leg {
            words: leg_words(words),
        }),
        "cuts" => Some(Command::Cuts {
            plan: named(words, "PLAN"),
            input: named(words, "INPUT"),
            until: words.get_str("until"),
            stays_open: words.get_flag("open"),
        }),
        "layout" => Some(Command::Layout {
            plan: named(words, "PLAN"),
            scale: named(words, "SCALE"),
        }),
        _ => None,
    }
}

/// The same of a command that makes files, or looks at such.
fn file_command<'m>(name: &str, words: &'m ArgMatches<'_>) -> Option<Command<'m>>
    ensures { IsReadOf is_file_command name.now (found_of words.now) result }
{
    match name {
        "check" => Some(Command::Check {
            words: check_words(words),
        }),
        "import" => Some(Command::Import {
            words: import_words(words),
        }),
        "split" => Some(Command::Split {
            words: split_words(words),
        }),
        "export" => Some(Command::Export {
            plan: named(words, "PLAN"),
            words: export_words(words),
        }),
        "diff" => Some(Command::Diff {
            words: DiffWords {
                old: named(words, "OLD"),
                new: named(words, "NEW"),
            },
        }),
        "rows" => Some(Command::Merge {
            words: merge_words(words),
        }),
        _ => None,
    }
}

/// The same of a command that tells something.
fn told_command<'m>(name: &str, words: &'m ArgMatches<'_>) -> Option<Command<'m>>
    ensures { IsReadOf is_told_command name.now (found_of words.now) result }
{
    match name {
        "show" => Some(Command::Show {
            savepoint: named(words, "SAVEPOINT"),
            group: words.get_str("group"),
        }),
        "group" => Some(Command::Group {
            key: named(words, "KEY"),
            max: named(words, "MAX"),
            par: named(words, "PAR"),
        }),
        "explain" => Some(Command::Explain {
            code: named(words, "CODE"),
        }),
        "version" => Some(Command::Version),
        _ => None,
    }
}

/// The command that a name and the words after it say, if the name is one of a command.
fn command_in<'m>(name: &str, words: &'m ArgMatches<'_>) -> Option<Command<'m>>
    ensures { IsRead name.now (found_of words.now) result }
{
    if let Some(command) = job_command(name, words) {
        return Some(command);
    }
    if let Some(command) = file_command(name, words) {
        return Some(command);
    }
    told_command(name, words)
}

/// The command that clap has found, if it has found one.
pub fn found_command<'m>(matches: &'m ArgMatches<'_>) -> Option<Command<'m>>
    ensures { IsFound (subcommand_name_of matches.now) result }
{
    let (name, words) = matches.subcommand()?;
    command_in(name, words)
}
