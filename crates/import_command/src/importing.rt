//! From the words of an import to the input.

ghost use Rattle.std.specs.Prelude.{◌≡◌, true, OnOk};
ghost use Rattle.import_command.specs.Apart.{are_apart};

use crate::apart::{check_apart, check_parts_apart};
use crate::input_files::InputFiles;
use crate::keeping::{BesideFiles, named, written};
use crate::names::{NameFile, no_names, random_state};
use crate::words::{ImportWords, dealing_of, entry_rule, once_columns, point_of, separator_of};
use crate::zoning::{clocks_of, placed_columns, zones_of};
use column_files::columns_text;
use import_columns::{Column, ColumnWord};
use import_copies::{ImportRule, Ledger, LedgerWants, OnceRule, import_files};
use import_reports::ImportReport;
use import_words::{ImportFault, check_columns, check_sources, read_columns};
use name_table::NameTable;
use new_files::{NewStream, write_whole};
use plan_model::Plan;
use std::random::RandomSource;
use std::rt::Files;

/// What the words ask for, where they are taken.
fn rule_of<'i, R: AllocGlobal>(
    rt: &R,
    plan: &'i Plan,
    words: &'i ImportWords<'i>,
    said: &[ColumnWord<'_>],
    columns: &'i [Column<'i>],
) -> Result<ImportRule<'i>, ImportFault>
    ensures { OnOk result (are_apart words.now ≡ true) }
{
    check_columns(rt.alloc(), said, plan.columns(), words.names.is_some())?;
    let entries = entry_rule(rt.alloc(), words, plan)?;
    let dealing = dealing_of(rt.alloc(), words, plan)?;
    let separator = separator_of(rt.alloc(), words.separator)?;
    let point = point_of(rt.alloc(), words.decimal, separator)?;
    check_sources(rt.alloc(), words.sources, plan.sources())?;
    check_apart(rt.alloc(), words)?;
    check_parts_apart(rt.alloc(), words, dealing)?;
    Ok(ImportRule {
        sources: plan.sources(),
        words: words.sources,
        columns,
        time: plan.window().time as usize,
        separator,
        point,
        entries,
        once: None,
        dealing,
    })
}

/// The rule with what tells records from one another.
fn with_once<'i>(rule: ImportRule<'i>, once: OnceRule<'i>) -> ImportRule<'i> {
    ImportRule {
        sources: rule.sources,
        words: rule.words,
        columns: rule.columns,
        time: rule.time,
        separator: rule.separator,
        point: rule.point,
        entries: rule.entries,
        once: Some(once),
        dealing: rule.dealing,
    }
}

/// Writes what is told of an import, if there is a file for it.
fn write_report<R: Files + Print + RandomSource + AllocGlobal>(
    rt: &R,
    path: Option<&str>,
    report: Option<ImportReport>,
) -> Result<(), ImportFault> {
    match (path, report) {
        (Some(path), Some(report)) => {
            let Ok(text) = report.text(rt.alloc()) else {
                return Err(ImportFault::Memory);
            };
            written(rt, path, write_whole(rt, path, text.as_bytes()))?;
            Ok(())
        }
        _ => Ok(()),
    }
}

/// Writes the input to a new file, or its parts to one each, and what is no row of it to others, which take their
/// names.
fn write_files<'r, R: Files + Print + RandomSource + AllocGlobal>(
    rt: &'r R,
    rule: ImportRule<'_>,
    words: &ImportWords<'_>,
    new: &InputFiles,
    beside: &BesideFiles<'_>,
    names: &mut NameTable,
) -> Result<Vec<NewStream<'r, R>>, ImportFault> {
    let places = beside.open(rt, rule.columns)?;
    let wants = LedgerWants {
        once: rule.once.is_some(),
        report: words.report.is_some(),
    };
    let mut ledger = Ledger::new(rt.alloc(), places, rule.columns, wants)?;
    let mut streams = new.open(rt)?;
    let old_names = names.names().len();
    let answer = import_files(rt, rule, names, &mut ledger, &mut streams);
    named(rt, words, rule.dealing, answer)?;
    let new_names = names.names().len().saturating_sub(old_names);
    let (places, report) = ledger.finish(rule.columns, new_names as u64)?;
    beside.keep(rt, places)?;
    write_report(rt, words.report, report)?;
    Ok(streams)
}

/// The same, and the table of names where there is a file of one. The input's file takes its name last, or those of its
/// parts do.
fn write_all<R: Files + Print + RandomSource + AllocGlobal>(
    rt: &R,
    rule: ImportRule<'_>,
    words: &ImportWords<'_>,
    new: &InputFiles,
    beside: &BesideFiles<'_>,
    table: Option<&NameFile<'_>>,
) -> Result<(), ImportFault> {
    let Some(table) = table else {
        let mut names = no_names(rt)?;
        let streams = write_files(rt, rule, words, new, beside, &mut names)?;
        return new.keep(rt, &streams);
    };
    let bytes = table.read(rt)?;
    let mut names = table.table(rt, &bytes)?;
    let streams = write_files(rt, rule, words, new, beside, &mut names)?;
    table.keep(rt, &bytes, &names)?;
    new.keep(rt, &streams)
}

/// The same, and leaves no new file behind where it fails.
fn import_by<R: Files + Print + RandomSource + AllocGlobal>(
    rt: &R,
    rule: ImportRule<'_>,
    words: &ImportWords<'_>,
    table: Option<&NameFile<'_>>,
) -> Result<(), ImportFault> {
    let new = InputFiles::at(rt, words.input, rule.dealing)?;
    let beside = BesideFiles::at(rt, words)?;
    let answer = write_all(rt, rule, words, &new, &beside, table);
    if answer.is_err() {
        new.remove(rt);
        beside.remove(rt);
    }
    answer
}

/// The same, where no other import uses the table of names meanwhile.
fn import_alone<R: Files + Print + RandomSource + AllocGlobal>(
    rt: &R,
    rule: ImportRule<'_>,
    words: &ImportWords<'_>,
) -> Result<(), ImportFault> {
    let Some(path) = words.names else {
        return import_by(rt, rule, words, None);
    };
    let table = NameFile::lock(rt, path)?;
    let answer = import_by(rt, rule, words, Some(&table));
    table.release(rt);
    answer
}

/// The same, with what tells records from one another, if words ask for that.
fn import_once<R: Files + Print + RandomSource + AllocGlobal>(
    rt: &R,
    rule: ImportRule<'_>,
    words: &ImportWords<'_>,
) -> Result<(), ImportFault> {
    let places = once_columns(rt.alloc(), words, rule.columns)?;
    let Some(columns) = &places else {
        return import_alone(rt, rule, words);
    };
    let state = random_state(rt)?;
    let once = OnceRule {
        columns: columns.as_slice(),
        state,
    };
    import_alone(rt, with_once(rule, once), words)
}

/// Writes an input of a plan from the files that words name, or the parts of one, as many as words say, each to a file
/// of its name with a point and the place of the part from 0 behind it; and with it the table of names, the records
/// that are late, there twice or bad, and what is told of the import, where words ask for these. Each file that is
/// written holds what it held or all that is written.
///
/// # Errors
///
/// What is refused first, the words before the files; `Names` also where another import uses the table, or has changed
/// it; `Write` where a file cannot be written, is read too or would be written twice; `Memory`. The input's file then
/// holds what it held, and that of a part what it held or its part.
pub fn import<R: Files + Print + RandomSource + AllocGlobal>(
    rt: &R,
    plan: &Plan,
    words: &ImportWords<'_>,
) -> Result<(), ImportFault>
    ensures { OnOk result (are_apart words.now ≡ true) }
{
    let written = columns_text(rt, words.columns)?;
    let said = read_columns(rt.alloc(), written.as_deref().unwrap_or(words.columns))?;
    let zones = zones_of(rt, words.zones, words.zone, &said)?;
    let clocks = clocks_of(rt.alloc(), words.zone, words.fold, &zones)?;
    let columns = placed_columns(rt.alloc(), &said, &zones, clocks)?;
    let rule = rule_of(rt, plan, words, &said, &columns)?;
    import_once(rt, rule, words)?;
    Ok(())
}
