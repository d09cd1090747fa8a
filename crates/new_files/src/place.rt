//! Where what is written to a path goes. For each call of the system a path is copied onto the stack, so functions that
//! make one have frames of their own.

ghost use Rattle.std.specs.Prelude.{◌≡◌, IfErr};
ghost use Rattle.std.specs.IoError.{error_kind};

use std::io::ErrorKind;
use std::rt::Files;
use std::{fs, io};

/// Where what is written to a path goes.
#[derive(Drop)]
pub(crate) enum Place {
    /// Into the standard output, by the stream that is open.
    Standard,
    /// Into what stands at this path: a pipe, a device, or what is open under a number.
    Standing(String),
    /// Into the regular file of this path, which need not be there yet.
    Named(String),
}

/// The most symbolic links that are followed.
const MOST_LINKS: usize = 40;

/// The folder of what this program has open, by numbers.
const OPEN_FILES: &str = "/proc/self/fd";

/// What the standard output is there.
const STANDARD: &str = "/proc/self/fd/1";

/// The folder of a path, and the name in it.
pub(crate) fn folder_and_name(path: &str) -> (&str, &str) {
    match path.rsplit_once('/') {
        Some(("", name)) => ("/", name),
        Some((folder, name)) => (folder, name),
        None => (".", path),
    }
}

/// What comes of asking for another path, where only want of memory is told.
fn found<T>(answer: io::Result<T>) -> io::Result<Option<T>>
    ensures { IfErr result (λ error. error_kind error ≡ ErrorKind.OutOfMemory) }
{
    match answer {
        Ok(value) => Ok(Some(value)),
        Err(error) if error.kind() == ErrorKind::OutOfMemory => Err(error),
        Err(_) => Ok(None),
    }
}

/// The path of what a path leads to over symbolic links, if something is there.
#[inline(never)]
fn canonical<R: Files + AllocGlobal>(rt: &R, path: &str) -> io::Result<Option<String>>
    ensures { IfErr result (λ error. error_kind error ≡ ErrorKind.OutOfMemory) }
{
    match found(fs::canonicalize(rt, path))? {
        Some(path) => Ok(Some(path.into_string())),
        None => Ok(None),
    }
}

/// Whether what was found is at this path.
fn is_at(found: Option<String>, path: &str) -> bool {
    found.is_some_and(|found| found.as_str() == path)
}

/// The place of a path in a folder of what programs have open: no name there is that of a file.
fn open_place<R: Files + AllocGlobal>(rt: &R, path: &str) -> io::Result<Option<Place>>
    ensures { IfErr result (λ error. error_kind error ≡ ErrorKind.OutOfMemory) }
{
    let (folder, name) = folder_and_name(path);
    let Some(folder) = canonical(rt, folder)? else {
        return Ok(None);
    };
    if !folder.as_str().starts_with("/proc/") {
        return Ok(None);
    }
    if name == "1" && is_at(canonical(rt, OPEN_FILES)?, folder.as_str()) {
        return Ok(Some(Place::Standard));
    }
    Ok(Some(Place::Standing(String::from_str(rt.alloc(), path)?)))
}

/// The path that the symbolic link at a path leads to, if one is there.
#[inline(never)]
fn next_path<R: Files + AllocGlobal>(rt: &R, path: &str) -> io::Result<Option<String>>
    ensures { IfErr result (λ error. error_kind error ≡ ErrorKind.OutOfMemory) }
{
    let Some(target) = found(fs::read_link(rt, path))? else {
        return Ok(None);
    };
    let target = target.into_string();
    if target.as_str().starts_with("/") {
        return Ok(Some(target));
    }
    let (folder, _) = folder_and_name(path);
    Ok(Some(format!(in rt.alloc(); "{folder}/{target}")?))
}

/// The place to which symbolic links lead from a path, if it is one without a file's name.
fn place_by_links<R: Files + AllocGlobal>(rt: &R, path: &str) -> io::Result<Option<Place>>
    ensures { IfErr result (λ error. error_kind error ≡ ErrorKind.OutOfMemory) }
{
    let mut at = String::from_str(rt.alloc(), path)?;
    for _ in 0..MOST_LINKS {
        if let Some(place) = open_place(rt, at.as_str())? {
            return Ok(Some(place));
        }
        match next_path(rt, at.as_str())? {
            Some(next) => at = next,
            None => return Ok(None),
        }
    }
    Ok(None)
}

/// Whether something is at a path that is no file, as a pipe, a device or a folder.
#[inline(never)]
fn is_no_file<R: Files>(rt: &R, path: &str) -> bool {
    fs::metadata(rt, path).is_ok_and(|found| !found.is_file())
}

/// Where what is written to a path goes.
pub(crate) fn place_of<R: Files + AllocGlobal>(rt: &R, path: &str) -> io::Result<Place>
    ensures { IfErr result (λ error. error_kind error ≡ ErrorKind.OutOfMemory) }
{
    if let Some(place) = place_by_links(rt, path)? {
        return Ok(place);
    }
    if is_no_file(rt, path) {
        return Ok(Place::Standing(String::from_str(rt.alloc(), path)?));
    }
    match canonical(rt, path)? {
        Some(path) => Ok(Place::Named(path)),
        None => Ok(Place::Named(String::from_str(rt.alloc(), path)?)),
    }
}

/// Whether the standard output goes into the regular file that a path names. Two names that a file has of its own, as
/// hard links, are not told apart.
///
/// # Errors
///
/// Only where there is no memory.
pub fn is_standard_output<R: Files + AllocGlobal>(rt: &R, path: &str) -> io::Result<bool>
    ensures { IfErr result (λ error. error_kind error ≡ ErrorKind.OutOfMemory) }
{
    let Place::Named(path) = place_of(rt, path)? else {
        return Ok(false);
    };
    Ok(is_at(canonical(rt, STANDARD)?, path.as_str()))
}
