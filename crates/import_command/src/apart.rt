//! That an import writes no file that it reads, and none twice.

ghost use Rattle.std.specs.Prelude.{◌≡◌};
ghost use Rattle.std.specs.List.{list_any};
ghost use Rattle.import_words.specs.Judging.{IsRefusal, Judges};
ghost use Rattle.import_command.specs.Apart.{is_device, has_file, names_file, is_source, has_columns, is_read, may_write, is_path, may_write_behind, are_apart, is_apart};

use crate::input_files::path_of_part;
use crate::words::ImportWords;
use dealt_texts::Dealing;
use import_words::{ImportCode, ImportFault, names_path, refused};
use std::alloc::Global;

/// Whether a path is one of a device.
pub(crate) fn is_device(path: &str) -> bool
    ensures { result ≡ is_device path.now }
{
    path.as_bytes().starts_with(b"/dev/")
}

/// Whether a file is one of those that stand in a word, with commas and pluses between.
fn has_file(files: &str, path: &str) -> bool
    ensures { result ≡ has_file path.now files.now }
{
    files.split(',').any(|part| names_path(part, path))
}

/// Whether a word of a source names a file.
fn names_file(word: &str, path: &str) -> bool
    ensures { result ≡ names_file path.now word.now }
{
    match word.split_once('=') {
        Some((_, files)) => has_file(files, path),
        None => false,
    }
}

/// Whether words of sources name a file.
fn is_source(sources: &[&str], path: &str) -> bool
    ensures { result ≡ is_source sources.now path.now }
{
    sources.iter().any(|word| names_file(word, path))
}

/// Whether the columns stand in a file.
fn has_columns(columns: &str, path: &str) -> bool
    ensures { result ≡ has_columns columns.now path.now }
{
    match columns.strip_prefix("@") {
        Some(file) => column_files::names_file(columns) && file == path,
        None => false,
    }
}

/// Whether words name a file that is read: the plan's, that of the columns, or one of a source.
fn is_read(words: &ImportWords<'_>, path: &str) -> bool
    ensures { result ≡ is_read words.now path.now }
{
    words.plan == path || has_columns(words.columns, path) || is_source(words.sources, path)
}

fn refused_file(alloc: Global, path: &str, why: &str) -> ImportFault
    ensures { IsRefusal ImportCode.Write result }
{
    refused(ImportCode::Write, format!(in alloc; "{path}: {why}"))
}

/// Refuses to write a file that is read, or that is written already. What a device takes, as `/dev/null`, is lost
/// in no file.
fn check_file(
    alloc: Global,
    words: &ImportWords<'_>,
    path: &str,
    is_written: bool,
) -> Result<(), ImportFault>
    ensures { Judges (may_write words.now path.now is_written) ImportCode.Write result }
{
    if is_device(path) {
        return Ok(());
    }
    if is_read(words, path) {
        return Err(refused_file(alloc, path, "the import reads it too"));
    }
    if is_written {
        return Err(refused_file(alloc, path, "the import writes it twice"));
    }
    Ok(())
}

/// Whether this is the path, if there is one.
fn is_path(other: Option<&str>, path: &str) -> bool
    ensures { result ≡ is_path other.entry path.now }
{
    match other {
        Some(other) => other == path,
        None => false,
    }
}

/// Whether a path is one of those before.
fn is_one_of(before: &[Option<&str>], path: &str) -> bool
    ensures { result ≡ list_any (λ other. is_path other path.now) before.now }
{
    before.iter().any(|other| is_path(*other, path))
}

/// Refuses to write a file, if there is one, that is read, or that is one of those before.
fn check_behind(
    alloc: Global,
    words: &ImportWords<'_>,
    before: &[Option<&str>],
    path: Option<&str>,
) -> Result<(), ImportFault>
    ensures { Judges (may_write_behind words.now before.now path.entry) ImportCode.Write result }
{
    match path {
        Some(path) => check_file(alloc, words, path, is_one_of(before, path)),
        None => Ok(()),
    }
}

/// Refuses words by which an import would write over a file of its own. Two names of one file are not told apart.
///
/// # Errors
///
/// `Write` with the file that is named twice; `Memory`.
pub(crate) fn check_apart(alloc: Global, words: &ImportWords<'_>) -> Result<(), ImportFault>
    ensures { Judges (are_apart words.now) ImportCode.Write result }
{
    let input = Some(words.input);
    let (late, twice, bad) = (words.late, words.twice, words.bad);
    check_behind(alloc, words, &[], input)?;
    check_behind(alloc, words, &[input], late)?;
    check_behind(alloc, words, &[input, late], twice)?;
    check_behind(alloc, words, &[input, late, twice], bad)?;
    check_behind(alloc, words, &[input, late, twice, bad], words.report)?;
    let before = [input, late, twice, bad, words.report];
    check_behind(alloc, words, &before, words.names)
}

/// Refuses to write the file of a part that is read, or that is written for something else.
fn check_part(alloc: Global, words: &ImportWords<'_>, path: &str) -> Result<(), ImportFault>
    ensures { Judges (is_apart words.now path.now) ImportCode.Write result }
{
    let others = [
        words.late,
        words.twice,
        words.bad,
        words.report,
        words.names,
    ];
    check_file(alloc, words, path, is_one_of(&others, path))
}

/// The same of each part, if an input is dealt out to parts.
///
/// # Errors
///
/// `Write` with the first such file; `Memory`.
pub(crate) fn check_parts_apart(
    alloc: Global,
    words: &ImportWords<'_>,
    dealing: Option<Dealing>,
) -> Result<(), ImportFault> {
    let Some(dealing) = dealing else {
        return Ok(());
    };
    for place in 0..dealing.parts() {
        let path = path_of_part(alloc, words.input, place)?;
        check_part(alloc, words, path.as_str())?;
    }
    Ok(())
}
