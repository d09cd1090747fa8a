//! The table of names, from its file and back.

use crate::keeping::{write_fault, written};
use import_asides::text_of_names;
use import_tellings::refused_names;
use import_words::{ImportCode, ImportFault, refused};
use imports::{CsvRows, read_names};
use name_table::NameTable;
use new_files::{LockFile, write_whole};
use std::fs;
use std::hash::RandomState;
use std::io::ErrorKind;
use std::random::RandomSource;
use std::rt::Files;

/// A file of a table of names, as an import has it from its reading to its writing.
#[derive(Drop)]
pub(crate) struct NameFile<'w> {
    path: &'w str,
    lock: LockFile,
}

/// The refusal of a table that another import uses.
fn refused_in_use<R: AllocGlobal>(rt: &R, path: &str, lock: &str) -> ImportFault {
    refused(
        ImportCode::Names,
        format!(in rt.alloc();
            "{path}: another import uses it; where none does, one was killed: remove {lock}"
        ),
    )
}

/// The refusal of a table that is no longer what was read.
fn refused_changed<R: AllocGlobal>(rt: &R, path: &str) -> ImportFault {
    refused(
        ImportCode::Names,
        format!(in rt.alloc(); "{path}: it changed while this import ran: import again"),
    )
}

/// What a file at a path holds, which is nothing where there is none.
fn bytes_at<R: Files + AllocGlobal>(rt: &R, path: &str) -> Result<Vec<u8>, ImportFault> {
    match fs::read(rt, path) {
        Ok(bytes) => Ok(bytes),
        Err(error) => match error.kind() {
            ErrorKind::NotFound => Ok(Vec::new(rt.alloc())),
            ErrorKind::OutOfMemory => Err(ImportFault::Memory),
            _ => Err(refused(ImportCode::Read, format!(in rt.alloc(); "{path}"))),
        },
    }
}

/// What the hashes of a table start from.
///
/// # Errors
///
/// `Read` where the system gives no random numbers; `Memory`.
pub(crate) fn random_state<R: RandomSource + AllocGlobal>(
    rt: &R,
) -> Result<RandomState, ImportFault> {
    match RandomState::new(rt) {
        Ok(state) => Ok(state),
        Err(_) => Err(refused(ImportCode::Read, format!(in rt.alloc(); "random numbers"))),
    }
}

/// The table of an import that has no file of one.
///
/// # Errors
///
/// `Read` where the system gives no random numbers; `Memory`.
pub(crate) fn no_names<R: RandomSource + AllocGlobal>(rt: &R) -> Result<NameTable, ImportFault> {
    Ok(NameTable::new(rt.alloc(), random_state(rt)?))
}

impl<'w> NameFile<'w> {
    /// The file at a path, which no other import uses from now on.
    ///
    /// # Errors
    ///
    /// `Names` where another one uses it; `Write`; `Memory`.
    pub(crate) fn lock<R: Files + AllocGlobal>(
        rt: &R,
        path: &'w str,
    ) -> Result<NameFile<'w>, ImportFault> {
        let lock = written(rt, path, LockFile::of(rt, path))?;
        match lock.take(rt) {
            Ok(()) => Ok(NameFile { path, lock }),
            Err(error) => Err(match error.kind() {
                ErrorKind::AlreadyExists => {
                    refused_in_use(rt, path, lock.path().unwrap_or(path))
                }
                _ => write_fault(rt, path, &error),
            }),
        }
    }

    /// Lets other imports use it.
    pub(crate) fn release<R: Files>(&self, rt: &R) {
        let _ = self.lock.release(rt);
    }

    /// What it holds: nothing where there is no file.
    ///
    /// # Errors
    ///
    /// `Read`; `Memory`.
    pub(crate) fn read<R: Files + AllocGlobal>(&self, rt: &R) -> Result<Vec<u8>, ImportFault> {
        bytes_at(rt, self.path)
    }

    /// The table that its bytes tell.
    ///
    /// # Errors
    ///
    /// `Names` where they are no table; `Read` where the system gives no random numbers; `Memory`.
    pub(crate) fn table<R: RandomSource + AllocGlobal>(
        &self,
        rt: &R,
        bytes: &[u8],
    ) -> Result<NameTable, ImportFault> {
        let state = random_state(rt)?;
        let Ok(mut rows) = CsvRows::new(rt.alloc(), bytes) else {
            return Err(ImportFault::Memory);
        };
        match read_names(rt.alloc(), state, &mut rows) {
            Ok(names) => Ok(names),
            Err(fault) => Err(refused_names(rt.alloc(), self.path, &rows, fault)),
        }
    }

    /// Refuses to write over a file that no longer holds the bytes that were read.
    fn check_unchanged<R: Files + AllocGlobal>(
        &self,
        rt: &R,
        bytes: &[u8],
    ) -> Result<(), ImportFault> {
        if self.lock.path().is_none() || bytes_at(rt, self.path)?.as_slice() == bytes {
            return Ok(());
        }
        Err(refused_changed(rt, self.path))
    }

    /// Writes the table in place of the bytes that were read.
    ///
    /// # Errors
    ///
    /// `Names` where it no longer holds them; `Read`; `Write`; `Memory`.
    pub(crate) fn keep<R: Files + Print + RandomSource + AllocGlobal>(
        &self,
        rt: &R,
        bytes: &[u8],
        names: &NameTable,
    ) -> Result<(), ImportFault> {
        match text_of_names(rt.alloc(), names) {
            Ok(text) => {
                self.check_unchanged(rt, bytes)?;
                written(rt, self.path, write_whole(rt, self.path, &text))?;
                Ok(())
            }
            Err(_) => Err(ImportFault::Memory),
        }
    }
}
