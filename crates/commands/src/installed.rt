//! The commit that an installed program is of. For each call of the system a path is copied onto the stack, so
//! functions that make one have frames of their own.

use command_files::file;
use std::fs;
use std::rt::Files;

/// Where the system tells the path of the program that runs.
const PROGRAM: &str = "/proc/self/exe";

/// The most bytes of a file that has the name of a commit.
const MOST_BYTES: u64 = 256;

/// The path under which a program is installed, from the program's own.
fn prefix_of(program: &str) -> Option<&str> {
    let (folder, _) = program.rsplit_once('/')?;
    let (prefix, folder) = folder.rsplit_once('/')?;
    if folder == "bin" { Some(prefix) } else { None }
}

/// Where an installed program has the name of its commit.
#[inline(never)]
fn place<R: Files + AllocGlobal>(rt: &R) -> Option<String> {
    let program = fs::read_link(rt, PROGRAM).ok()?;
    let program = program.into_string();
    let prefix = prefix_of(program.as_str())?;
    format!(in rt.alloc(); "{prefix}/share/doc/streamjob/COMMIT").ok()
}

/// Whether a small regular file is at a path.
#[inline(never)]
fn is_small_file<R: Files>(rt: &R, path: &str) -> bool {
    fs::metadata(rt, path).is_ok_and(|found| found.is_file() && found.len() <= MOST_BYTES)
}

/// What stands in the file that `scripts/install` puts beside the documents, if the program is installed.
#[inline(never)]
pub(crate) fn commit<R: Files + AllocGlobal>(rt: &R) -> Option<String> {
    let path = place(rt)?;
    if !is_small_file(rt, path.as_str()) {
        return None;
    }
    let bytes = file(rt, path.as_str()).ok()?;
    String::from_utf8(bytes).ok()
}
