//! The words of an import.

ghost use Rattle.std.specs.Prelude.{◌≡◌, ◌≤◌, IfSome, MatchOption, Some, None, is_some};
ghost use Rattle.std.specs.List.{list_all};
ghost use Rattle.import_words.specs.Files.{parts};
ghost use Rattle.import_words.specs.Judging.{IsRefusal};
ghost use Rattle.import_command.specs.Dealing.{IsByPlan, GivesDealing};
ghost use Rattle.import_command.specs.Numbers.{number_said, parts_said};
ghost use Rattle.import_command.specs.Once.{column_of, GivesPlaces, GivesOnce};
ghost use Rattle.import_command.specs.Separating.{GivesSeparator, GivesPoint};

use crate::apart::is_device;
use columns::MOST_ROWS;
use dealt_texts::Dealing;
use decimal_texts::DecimalPoint;
use field_values::are_digits;
use import_columns::Column;
use import_entries::{EntryRule, WindowEnds};
use import_words::{ImportCode, ImportFault, refused};
use imports::Separator;
use key_groups::{MOST_SUBTASKS, MaxParallelism, Parallelism};
use plan_model::{Plan, SourceSpec, WindowSpec};
use std::alloc::Global;

/// The words of an import.
#[derive(Clone, Copy)]
pub struct ImportWords<'a> {
    /// The file of the plan.
    pub plan: &'a str,
    /// The file of the input that is written.
    pub input: &'a str,
    /// What each number of a record is.
    pub columns: &'a str,
    /// The files of the sources.
    pub sources: &'a [&'a str],
    /// The file of the table of names.
    pub names: Option<&'a str>,
    /// How far behind the latest a record may come.
    pub bound: Option<&'a str>,
    /// The file for late records.
    pub late: Option<&'a str>,
    /// What stands between the fields of CSV: a comma, where no word says so.
    pub separator: Option<&'a str>,
    /// What stands for the point of decimals in CSV: a point, where no word says so.
    pub decimal: Option<&'a str>,
    /// The folder of the zones: that of the system, where no word says so.
    pub zones: Option<&'a str>,
    /// The zone of times that have none.
    pub zone: Option<&'a str>,
    /// Which of two instants such a time is that the zone's clocks show twice or never: `first` or `second`.
    pub fold: Option<&'a str>,
    /// The fields that tell records from one another, with commas between: of those that are the same the first counts.
    pub once: Option<&'a str>,
    /// The file for the others of those.
    pub twice: Option<&'a str>,
    /// The file for bad records.
    pub bad: Option<&'a str>,
    /// The file for what is told of the import.
    pub report: Option<&'a str>,
    /// Whether watermarks are rounded down to the ends of windows, so that a record is late just where its windows are
    /// closed.
    pub is_aligned: bool,
    /// The most rows of an entry: as many as there can be, where no word says so.
    pub rows: Option<&'a str>,
    /// To how many parts the input is dealt out, each with a file of its own: it is written whole, where no word says
    /// so.
    pub ranges: Option<&'a str>,
}

/// The number that digits write, if it has 64 bits.
fn number_of(word: &str) -> Option<u64>
    ensures { result ≡ number_said word.now }
{
    if !are_digits(word.as_bytes()) {
        return None;
    }
    word.parse().ok()
}

fn refused_number(alloc: Global, option: &str, word: &str, range: &str) -> ImportFault
    ensures { IsRefusal ImportCode.Number result }
{
    refused(
        ImportCode::Number,
        format!(in alloc; "{option}: {word:?} is no whole number from {range}"),
    )
}

fn bound_of(alloc: Global, word: Option<&str>) -> Result<Option<u64>, ImportFault> {
    let Some(word) = word else {
        return Ok(None);
    };
    match number_of(word) {
        Some(number) => Ok(Some(number)),
        None => Err(refused_number(alloc, "--bound", word, "0 to 18446744073709551615")),
    }
}

/// The rule of entries of so many rows at most, if there can be such.
fn rule_with(rows: u64, bound: Option<u64>) -> Option<EntryRule> {
    let rows = u32::try_from(rows).ok()?;
    EntryRule::new(rows, bound)
}

/// The rule with watermarks at the ends of windows, where words ask for that.
fn rule_at_ends(rule: EntryRule, words: &ImportWords<'_>, window: &WindowSpec) -> EntryRule {
    if !words.is_aligned {
        return rule;
    }
    match WindowEnds::new(window.size, window.slide, window.offset) {
        Some(ends) => rule.aligned(ends),
        None => rule,
    }
}

fn refused_bound(alloc: Global) -> ImportFault
    ensures { IsRefusal ImportCode.Options result }
{
    refused(
        ImportCode::Options,
        format!(in alloc; "--bound: each source of the plan makes its own watermarks"),
    )
}

/// Whether each source makes its own watermarks.
fn make_all(sources: &[SourceSpec]) -> bool
    ensures { result ≡ list_all (λ s. is_some s.bound) sources.now }
{
    sources.iter().all(|source| source.bound.is_some())
}

/// What is asked of the entries.
///
/// # Errors
///
/// `Number` where a word is no number in its range; `Options` where there is a bound, and each source has its own;
/// `Memory`.
pub(crate) fn entry_rule(
    alloc: Global,
    words: &ImportWords<'_>,
    plan: &Plan,
) -> Result<EntryRule, ImportFault> {
    let bound = bound_of(alloc, words.bound)?;
    if bound.is_some() && make_all(plan.sources()) {
        return Err(refused_bound(alloc));
    }
    let rows = match words.rows {
        Some(word) => number_of(word).unwrap_or(0),
        None => MOST_ROWS as u64,
    };
    match rule_with(rows, bound) {
        Some(rule) => Ok(rule_at_ends(rule, words, plan.window())),
        None => Err(refused_number(alloc, "--rows", words.rows.unwrap_or(""), "1 to 4096")),
    }
}

fn refused_device(alloc: Global, path: &str) -> ImportFault
    ensures { IsRefusal ImportCode.Options result }
{
    refused(
        ImportCode::Options,
        format!(in alloc; "--ranges: {path:?} is a device, beside which parts have no files"),
    )
}

/// In how many parts an input of so many key groups is dealt out, as a word says it: 1 to the lesser of 64 and these.
fn parts_of(max: MaxParallelism, word: &str) -> Option<Parallelism>
    ensures said { result ≡ parts_said max word.now }
    ensures fits { IfSome result (λ parts. parts ≤ max) }
{
    let count = number_of(word)?;
    if count > MOST_SUBTASKS as u64 {
        return None;
    }
    Parallelism::new(count as u32, max)
}

/// To so many parts of a plan's input as a word says, if it can be dealt out so.
fn dealing_by(plan: &Plan, word: &str) -> Option<Dealing>
    ensures { MatchOption result (parts_said plan.now.max word.now ≡ None) (λ dealing. (parts_said plan.now.max word.now ≡ Some dealing.parts) × IsByPlan plan.now dealing.parts dealing) }
{
    let max = MaxParallelism::new(plan.max())?;
    let parts = parts_of(max, word)?;
    Dealing::new(max, parts, plan.window().key as usize)
}

/// How an input is dealt out to parts, if it is.
///
/// # Errors
///
/// `Number` where a word does not say 1 to the lesser of 64 and the plan's key groups; `Options` where the input is a
/// device; `Memory`.
pub(crate) fn dealing_of(
    alloc: Global,
    words: &ImportWords<'_>,
    plan: &Plan,
) -> Result<Option<Dealing>, ImportFault>
    ensures { GivesDealing words.now plan.now result }
{
    let Some(word) = words.ranges else {
        return Ok(None);
    };
    let Some(dealing) = dealing_by(plan, word) else {
        let range = format!(in alloc; "1 to {}", plan.max().min(MOST_SUBTASKS))?;
        return Err(refused_number(alloc, "--ranges", word, range.as_str()));
    };
    if is_device(words.input) {
        return Err(refused_device(alloc, words.input));
    }
    Ok(Some(dealing))
}

fn refused_separator(alloc: Global, word: &str) -> ImportFault
    ensures { IsRefusal ImportCode.Options result }
{
    refused(
        ImportCode::Options,
        format!(in alloc;
            "--separator: {word:?} is neither `tab` nor one character of ASCII that is no quotation mark"
        ),
    )
}

/// What stands between the fields of CSV.
///
/// # Errors
///
/// `Options` where a word says no separator; `Memory`.
pub(crate) fn separator_of(alloc: Global, word: Option<&str>) -> Result<Separator, ImportFault>
    ensures { GivesSeparator word.entry result }
{
    let Some(word) = word else {
        return Ok(Separator::COMMA);
    };
    match Separator::said_by(word) {
        Some(separator) => Ok(separator),
        None => Err(refused_separator(alloc, word)),
    }
}

fn refused_point(alloc: Global, word: &str, what: &str) -> ImportFault
    ensures { IsRefusal ImportCode.Options result }
{
    refused(
        ImportCode::Options,
        format!(in alloc; "--decimal: {word:?} {what}"),
    )
}

/// What stands for the point of decimals in CSV with a separator.
///
/// # Errors
///
/// `Options` where a word says no such, or what stands between the fields; `Memory`.
pub(crate) fn point_of(
    alloc: Global,
    word: Option<&str>,
    separator: Separator,
) -> Result<DecimalPoint, ImportFault>
    ensures { GivesPoint word.entry separator result }
{
    let Some(word) = word else {
        return Ok(DecimalPoint::Point);
    };
    match DecimalPoint::said_by(word) {
        Some(point) if point.byte() != separator.byte() => Ok(point),
        Some(_) => Err(refused_point(
            alloc,
            word,
            "stands between the fields, and --separator names another",
        )),
        None => Err(refused_point(alloc, word, "is neither a point nor a comma")),
    }
}

fn refused_field(alloc: Global, field: &str) -> ImportFault
    ensures { IsRefusal ImportCode.Columns result }
{
    refused(
        ImportCode::Columns,
        format!(in alloc; "--once: COLUMNS names no field {field:?}"),
    )
}

/// The first column of a field.
fn column_of(columns: &[Column<'_>], field: &str) -> Option<usize>
    ensures { result ≡ column_of columns.now field.now }
{
    columns.iter().position(|column| column.field == field)
}

/// The columns of fields that stand in a word, with commas between.
fn columns_of(alloc: Global, word: &str, columns: &[Column<'_>]) -> Result<Vec<usize>, ImportFault>
    ensures { GivesPlaces columns.now (parts word.now) result }
{
    let mut found = Vec::new(alloc);
    for field in word.split(',') {
        match column_of(columns, field) {
            Some(column) => found.push(column)?,
            None => return Err(refused_field(alloc, field)),
        }
    }
    Ok(found)
}

/// The columns whose fields tell records from one another, if words ask for that.
///
/// # Errors
///
/// `Options` where the others of such records are to go to a file, and nothing tells records from one another;
/// `Columns` where no column has one of the fields; `Memory`.
pub(crate) fn once_columns(
    alloc: Global,
    words: &ImportWords<'_>,
    columns: &[Column<'_>],
) -> Result<Option<Vec<usize>>, ImportFault>
    ensures { GivesOnce words.now columns.now result }
{
    match (words.once, words.twice) {
        (Some(once), _) => Ok(Some(columns_of(alloc, once, columns)?)),
        (None, Some(_)) => Err(refused(
            ImportCode::Options,
            format!(in alloc; "--twice stands without --once"),
        )),
        (None, None) => Ok(None),
    }
}
