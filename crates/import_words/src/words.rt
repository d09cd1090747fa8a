//! What the words of an import say.

ghost use Rattle.std.specs.Prelude.{◌≡◌, map, length, bytes_eq};
ghost use Rattle.std.specs.List.{list_all, list_any};
ghost use Rattle.import_words.specs.Files.{parts};
ghost use Rattle.import_words.specs.Judging.{IsRefusal, Judges};
ghost use Rattle.import_words.specs.Words.{ReadsColumns, are_right};
ghost use Rattle.import_words.specs.Words.{only, files_named, GivesFiles, GivesLists, names_some, has_files, are_sources};

use crate::files::file_lists;
use crate::refusal::{ImportCode, ImportFault, refused};
use import_columns::{ColumnFault, ColumnWord, WordKind, column_word};
use plan_model::SourceSpec;
use std::alloc::Global;

/// What is wrong with the word of a column.
fn wrong_column(fault: ColumnFault) -> &'static str {
    match fault {
        ColumnFault::Form => {
            "a field's name stands alone, or with a number of decimal places, ms, us, ns, name, a comparison as ge:500, or day, month, year, hour or weekday and a zone as day:Europe/Berlin behind a colon"
        }
        ColumnFault::Places => "no more than 18 decimal places are kept",
        ColumnFault::Bound(_) => "the bound of a comparison is a whole number of 64 bits",
    }
}

fn refused_column(alloc: Global, word: &str, what: &str) -> ImportFault
    ensures { IsRefusal ImportCode.Columns result }
{
    refused(ImportCode::Columns, format!(in alloc; "{word:?}: {what}"))
}

/// The columns that a word says, with commas between.
///
/// # Errors
///
/// `Columns` where one of them is none; `Memory`.
pub fn read_columns<'w>(alloc: Global, word: &'w str) -> Result<Vec<ColumnWord<'w>>, ImportFault>
    ensures { ReadsColumns word.now result }
{
    let mut columns = Vec::new(alloc);
    for one in word.split(',') {
        match column_word(one) {
            Ok(column) => {
                if columns.push(column).is_err() {
                    return Err(ImportFault::Memory);
                }
            }
            Err(fault) => return Err(refused_column(alloc, one, wrong_column(fault))),
        }
    }
    Ok(columns)
}

/// Refuses columns of another number than the plan's, and names where no table is named for them.
///
/// # Errors
///
/// `Columns`; `Memory`.
pub fn check_columns(
    alloc: Global,
    columns: &[ColumnWord<'_>],
    wanted: u32,
    has_names: bool,
) -> Result<(), ImportFault>
    ensures { Judges (are_right columns.now wanted has_names) ImportCode.Columns result }
{
    let count = columns.len();
    if count as u64 != u64::from(wanted) {
        return Err(refused(
            ImportCode::Columns,
            format!(in alloc; "there are {count}, and the plan has {wanted}"),
        ));
    }
    for column in columns {
        if !has_names && matches!(&column.kind, WordKind::Name) {
            return Err(refused_column(
                alloc,
                column.field,
                "a column of names needs a table of them, by --names",
            ));
        }
    }
    Ok(())
}

fn refused_source(alloc: Global, word: &str, what: &str) -> ImportFault
    ensures { IsRefusal ImportCode.Sources result }
{
    refused(ImportCode::Sources, format!(in alloc; "{word:?}: {what}"))
}

/// What words say of the files of a source. Each word is the source's name, an equals sign and that.
fn said_of<'w>(
    alloc: Global,
    words: &[&'w str],
    source: &SourceSpec,
) -> Result<&'w str, ImportFault>
    ensures { GivesFiles (only (files_named source.now.uid (map (λ word. word.now) words.now))) result }
{
    let uid = source.uid.as_str();
    let mut found = None;
    for word in words {
        if let Some((name, files)) = word.split_once('=') {
            if uid == name {
                if found.is_some() {
                    return Err(refused_source(alloc, uid, "its files are named twice"));
                }
                found = Some(files);
            }
        }
    }
    match found {
        Some(files) => Ok(files),
        None => Err(refused_source(
            alloc,
            uid,
            "the plan has this source, and no word names its files",
        )),
    }
}

/// The files that words name for a source: of each partition those that stand behind one another. Each word is
/// `SOURCE=FILE+FILE,FILE`, with commas between the partitions and pluses between the files of one; two pluses stand
/// for one in the name of a file.
///
/// # Errors
///
/// `Sources` where not one word names the source; `Memory`.
pub fn files_of(
    alloc: Global,
    words: &[&str],
    source: &SourceSpec,
) -> Result<Vec<Vec<String>>, ImportFault>
    ensures { GivesLists (only (files_named source.now.uid (map (λ word. word.now) words.now))) result }
{
    let said = said_of(alloc, words, source)?;
    file_lists(alloc, said)
}

/// Whether one of the sources has a name.
fn is_source(sources: &[SourceSpec], name: &str) -> bool
    ensures { result ≡ list_any (λ source. bytes_eq source.uid name.now) sources.now }
{
    sources.iter().any(|source| source.uid.as_str() == name)
}

/// Refuses a word that names no source.
fn check_word(alloc: Global, word: &str, sources: &[SourceSpec]) -> Result<(), ImportFault>
    ensures { Judges (names_some sources.now word.now) ImportCode.Sources result }
{
    match word.split_once('=') {
        Some((name, _)) => {
            if is_source(sources, name) {
                return Ok(());
            }
            Err(refused_source(alloc, name, "the plan has no such source"))
        }
        None => Err(refused_source(
            alloc,
            word,
            "a source and its files are SOURCE=FILE[+FILE..][,FILE[+FILE..]..]",
        )),
    }
}

/// Refuses words of which one names no source.
fn check_words(alloc: Global, words: &[&str], sources: &[SourceSpec]) -> Result<(), ImportFault>
    ensures { Judges (list_all (names_some sources.now) (map (λ word. word.now) words.now)) ImportCode.Sources result }
{
    for word in words {
        check_word(alloc, word, sources)?;
    }
    Ok(())
}

/// How many files a word names, with commas between.
fn count_of(files: &str) -> usize
    ensures { result ≡ length (parts files.now) }
{
    files.split(',').count()
}

/// What may be wrong with the words for a source's files: that a pattern stands there for their names.
fn pattern_hint(files: &str) -> &'static str {
    let is_pattern = files.bytes().any(|byte| matches!(byte, b'*' | b'?' | b'['));
    if is_pattern {
        "; no pattern is expanded: name each file, with commas between"
    } else {
        ""
    }
}

/// Refuses a source with another number of files than it has partitions.
fn check_files(alloc: Global, words: &[&str], source: &SourceSpec) -> Result<(), ImportFault>
    ensures { Judges (has_files (map (λ word. word.now) words.now) source.now) ImportCode.Sources result }
{
    let uid = source.uid.as_str();
    let wanted = source.partitions;
    let files = said_of(alloc, words, source)?;
    let count = count_of(files);
    if count as u64 == u64::from(wanted) {
        return Ok(());
    }
    let hint = pattern_hint(files);
    Err(refused(
        ImportCode::Sources,
        format!(in alloc;
            "{uid:?}: files are named for {count} partitions, and the plan has {wanted}{hint}"
        ),
    ))
}

/// Refuses words that name no source of the plan, and sources with another number of files than they have partitions.
///
/// # Errors
///
/// `Sources`; `Memory`.
pub fn check_sources(
    alloc: Global,
    words: &[&str],
    sources: &[SourceSpec],
) -> Result<(), ImportFault>
    ensures { Judges (are_sources (map (λ word. word.now) words.now) sources.now) ImportCode.Sources result }
{
    check_words(alloc, words, sources)?;
    for source in sources {
        check_files(alloc, words, source)?;
    }
    Ok(())
}
