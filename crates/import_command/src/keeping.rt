//! The files that an import writes.

use crate::words::ImportWords;
use dealt_texts::Dealing;
use import_asides::{BadRecords, SetAside};
use import_columns::Column;
use import_copies::Places;
use import_words::{ImportCode, ImportFault, refused};
use imports::RowFault;
use new_files::{NewFile, NewStream};
use std::alloc::{AllocError, Global};
use std::io;
use std::io::ErrorKind;
use std::random::RandomSource;
use std::rt::Files;

/// What is told where a file at a path was not written.
pub(crate) fn write_fault<R: AllocGlobal>(rt: &R, path: &str, error: &io::Error) -> ImportFault {
    match error.kind() {
        ErrorKind::OutOfMemory => ImportFault::Memory,
        _ => refused(ImportCode::Write, format!(in rt.alloc(); "{path}")),
    }
}

/// What comes of writing the file at a path.
pub(crate) fn written<R: AllocGlobal, T>(
    rt: &R,
    path: &str,
    answer: io::Result<T>,
) -> Result<T, ImportFault> {
    match answer {
        Ok(value) => Ok(value),
        Err(error) => Err(write_fault(rt, path, &error)),
    }
}

/// What comes of writing records to the file at a path.
fn put<R: AllocGlobal, T>(
    rt: &R,
    path: &str,
    answer: Result<T, RowFault>,
) -> Result<T, ImportFault> {
    match answer {
        Ok(value) => Ok(value),
        Err(RowFault::Memory) => Err(ImportFault::Memory),
        Err(_) => Err(refused(ImportCode::Write, format!(in rt.alloc(); "{path}"))),
    }
}

/// Puts a path, if there is one, behind others.
fn push_path(paths: &mut String, path: Option<&str>) -> Result<(), AllocError> {
    match path {
        Some(path) => {
            paths.push_str(" or ")?;
            paths.push_str(path)
        }
        None => Ok(()),
    }
}

/// The files of the input: its own, or those of its parts.
fn paths_of_input(
    alloc: Global,
    input: &str,
    dealing: Option<Dealing>,
) -> Result<String, AllocError> {
    match dealing {
        Some(dealing) => {
            let parts = dealing.parts();
            format!(in alloc; "{input}.N, of {parts} parts")
        }
        None => String::from_str(alloc, input),
    }
}

/// The files that are written as the records come, of which one could not be.
fn paths_of(
    alloc: Global,
    words: &ImportWords<'_>,
    dealing: Option<Dealing>,
) -> Result<String, AllocError> {
    let mut paths = paths_of_input(alloc, words.input, dealing)?;
    push_path(&mut paths, words.late)?;
    push_path(&mut paths, words.twice)?;
    push_path(&mut paths, words.bad)?;
    Ok(paths)
}

/// Names the file that was not written, where an import does not tell which: one of those that are written as the
/// records come.
pub(crate) fn named<R: AllocGlobal>(
    rt: &R,
    words: &ImportWords<'_>,
    dealing: Option<Dealing>,
    answer: Result<(), ImportFault>,
) -> Result<(), ImportFault> {
    let Err(ImportFault::Write) = &answer else {
        return answer;
    };
    Err(refused(ImportCode::Write, paths_of(rt.alloc(), words, dealing)))
}

/// A file beside the input, at the path that words say for it.
#[derive(Drop)]
struct Beside<'w> {
    path: &'w str,
    new: NewFile,
}

/// The files for records that are no rows of the input, where words say paths for them.
pub(crate) struct BesideFiles<'w> {
    late: Option<Beside<'w>>,
    twice: Option<Beside<'w>>,
    bad: Option<Beside<'w>>,
}

// By hand, since a proof goes over a derived drop field by field.
impl Drop for BesideFiles<'_> {
    fn drop(self) {
        let BesideFiles {
            late: _,
            twice: _,
            bad: _,
        } = self;
    }
}

fn file_at<'w, R: Files + RandomSource + AllocGlobal>(
    rt: &R,
    path: Option<&'w str>,
) -> Result<Option<Beside<'w>>, ImportFault> {
    match path {
        Some(path) => {
            let new = written(rt, path, NewFile::at(rt, path))?;
            Ok(Some(Beside { path, new }))
        }
        None => Ok(None),
    }
}

fn remove<R: Files>(rt: &R, file: Option<&Beside<'_>>) {
    if let Some(file) = file {
        let _ = file.new.remove(rt);
    }
}

/// What records that are set aside are written to, if there is a file for them.
fn set_aside<'r, R: Files + Print + AllocGlobal>(
    rt: &'r R,
    file: Option<&Beside<'_>>,
    columns: &[Column<'_>],
) -> Result<Option<SetAside<NewStream<'r, R>>>, ImportFault> {
    let Some(file) = file else {
        return Ok(None);
    };
    let stream = written(rt, file.path, file.new.open(rt))?;
    let records = put(rt, file.path, SetAside::new(rt.alloc(), stream, columns))?;
    Ok(Some(records))
}

/// What bad records are written to, if there is a file for them.
fn bad_records<'r, R: Files + Print + AllocGlobal>(
    rt: &'r R,
    file: Option<&Beside<'_>>,
) -> Result<Option<BadRecords<NewStream<'r, R>>>, ImportFault> {
    let Some(file) = file else {
        return Ok(None);
    };
    let stream = written(rt, file.path, file.new.open(rt))?;
    let records = put(rt, file.path, BadRecords::new(rt.alloc(), stream))?;
    Ok(Some(records))
}

/// Has records that were set aside in their file.
fn keep_aside<R: Files + Print + AllocGlobal>(
    rt: &R,
    file: Option<&Beside<'_>>,
    records: Option<SetAside<NewStream<'_, R>>>,
) -> Result<(), ImportFault> {
    match (file, records) {
        (Some(file), Some(records)) => {
            let stream = put(rt, file.path, records.finish())?;
            written(rt, file.path, file.new.keep(rt, &stream))
        }
        _ => Ok(()),
    }
}

/// Has bad records in their file.
fn keep_bad<R: Files + Print + AllocGlobal>(
    rt: &R,
    file: Option<&Beside<'_>>,
    records: Option<BadRecords<NewStream<'_, R>>>,
) -> Result<(), ImportFault> {
    match (file, records) {
        (Some(file), Some(records)) => {
            let stream = put(rt, file.path, records.finish())?;
            written(rt, file.path, file.new.keep(rt, &stream))
        }
        _ => Ok(()),
    }
}

impl<'w> BesideFiles<'w> {
    /// The files for which words say paths.
    ///
    /// # Errors
    ///
    /// `Write`; `Memory`.
    pub(crate) fn at<R: Files + RandomSource + AllocGlobal>(
        rt: &R,
        words: &ImportWords<'w>,
    ) -> Result<BesideFiles<'w>, ImportFault> {
        Ok(BesideFiles {
            late: file_at(rt, words.late)?,
            twice: file_at(rt, words.twice)?,
            bad: file_at(rt, words.bad)?,
        })
    }

    /// Removes those that have not their names yet.
    pub(crate) fn remove<R: Files>(&self, rt: &R) {
        remove(rt, self.late.as_ref());
        remove(rt, self.twice.as_ref());
        remove(rt, self.bad.as_ref());
    }

    /// What records are written to.
    ///
    /// # Errors
    ///
    /// `Write`; `Memory`.
    pub(crate) fn open<'r, R: Files + Print + AllocGlobal>(
        &self,
        rt: &'r R,
        columns: &[Column<'_>],
    ) -> Result<Places<NewStream<'r, R>>, ImportFault> {
        Ok(Places {
            late: set_aside(rt, self.late.as_ref(), columns)?,
            twice: set_aside(rt, self.twice.as_ref(), columns)?,
            bad: bad_records(rt, self.bad.as_ref())?,
        })
    }

    /// Has what was written in the files.
    ///
    /// # Errors
    ///
    /// `Write`; `Memory`.
    pub(crate) fn keep<R: Files + Print + AllocGlobal>(
        &self,
        rt: &R,
        places: Places<NewStream<'_, R>>,
    ) -> Result<(), ImportFault> {
        let Places { late, twice, bad } = places;
        keep_aside(rt, self.late.as_ref(), late)?;
        keep_aside(rt, self.twice.as_ref(), twice)?;
        keep_bad(rt, self.bad.as_ref(), bad)
    }
}
