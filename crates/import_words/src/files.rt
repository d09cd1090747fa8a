//! The files that a text names, with pluses between.

ghost use Rattle.std.specs.Prelude.{◌≡◌, [], bytes_eq};
ghost use Rattle.std.specs.List.{list_any};
ghost use Rattle.import_words.specs.Files.{names_in, GivesNames, ReadsLists, IsNext, Without, is_left};

use crate::refusal::ImportFault;
use std::alloc::Global;

/// What stands behind the first pluses of a text.
#[derive(Clone, Copy)]
enum Behind<'w> {
    /// There is no plus.
    Nothing,
    /// There is one, and the next name is behind it.
    Name(&'w str),
    /// There are two, which stand for one in the name, and the name goes on behind them.
    Plus(&'w str),
}

/// What stands before the first plus of a text, and what stands behind it.
fn next_part(text: &str) -> (&str, Behind<'_>)
    ensures { IsNext text.now result.0.now result.1 }
{
    match text.split_once('+') {
        Some((front, behind)) => match behind.strip_prefix('+') {
            Some(rest) => (front, Behind::Plus(rest)),
            None => (front, Behind::Name(behind)),
        },
        None => (text, Behind::Nothing),
    }
}

/// The names of the files that a text names. A plus stands between two of them, and two stand for one in a name.
///
/// # Errors
///
/// Only where memory runs out.
pub(crate) fn file_names(alloc: Global, text: &str) -> Result<Vec<String>, ImportFault>
    ensures { GivesNames text.now result }
{
    let mut names = Vec::new(alloc);
    let mut name = String::new(alloc);
    let mut rest = text;
    'parts: loop {
        let (front, behind) = next_part(rest);
        name.push_str(front)?;
        match behind {
            Behind::Nothing => {
                names.push(name)?;
                return Ok(names);
            }
            Behind::Name(text) => {
                names.push(name)?;
                name = String::new(alloc);
                rest = text;
            }
            Behind::Plus(text) => {
                name.push_str("+")?;
                rest = text;
            }
        }
    }
}

/// The names of the files in each part of a text, with commas between the parts.
///
/// # Errors
///
/// Only where memory runs out.
pub(crate) fn file_lists(alloc: Global, text: &str) -> Result<Vec<Vec<String>>, ImportFault>
    ensures { ReadsLists text.now result }
{
    let mut lists = Vec::new(alloc);
    for part in text.split(',') {
        lists.push(file_names(alloc, part)?)?;
    }
    Ok(lists)
}

/// What of a text stands behind its front, if there is a text and it begins so.
fn without<'w>(text: Option<&'w str>, front: &str) -> Option<&'w str>
    ensures { Without text.entry front.now result }
{
    match text {
        Some(text) => text.strip_prefix(front),
        None => None,
    }
}

/// Whether there is a text and it is empty.
fn is_done(text: Option<&str>) -> bool
    ensures { result ≡ is_left text.entry [] }
{
    match text {
        Some(text) => text.is_empty(),
        None => false,
    }
}

/// Whether one of the files that a text names, with pluses between, has a path.
pub fn names_path(text: &str, path: &str) -> bool
    ensures { result ≡ list_any (bytes_eq path.now) (names_in text.now) }
{
    let mut rest = text;
    let mut left = Some(path);
    'parts: loop {
        let (front, behind) = next_part(rest);
        left = without(left, front);
        match behind {
            Behind::Nothing => return is_done(left),
            Behind::Name(text) => {
                if is_done(left) {
                    return true;
                }
                left = Some(path);
                rest = text;
            }
            Behind::Plus(text) => {
                left = without(left, "+");
                rest = text;
            }
        }
    }
}
