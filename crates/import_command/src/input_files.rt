//! The files of the input that an import writes: one, or one for each part.

use crate::keeping::written;
use dealt_texts::Dealing;
use import_words::ImportFault;
use new_files::{NewFile, NewStream};
use std::alloc::{AllocError, Global};
use std::random::RandomSource;
use std::rt::Files;

/// A file of the input, at its path.
#[derive(Drop)]
struct InputFile {
    path: String,
    new: NewFile,
}

/// The files of the input, or of its parts in their order.
#[derive(Drop)]
pub(crate) struct InputFiles {
    files: Vec<InputFile>,
}

/// The path of the part at a place.
pub(crate) fn path_of_part(alloc: Global, input: &str, place: usize) -> Result<String, AllocError> {
    format!(in alloc; "{input}.{place}")
}

/// How many files there are, and whether each is that of a part.
fn path_of(
    alloc: Global,
    input: &str,
    dealing: Option<Dealing>,
    place: usize,
) -> Result<String, AllocError> {
    match dealing {
        Some(_) => path_of_part(alloc, input, place),
        None => String::from_str(alloc, input),
    }
}

/// How many files there are.
fn count_of(dealing: Option<Dealing>) -> usize {
    match dealing {
        Some(dealing) => dealing.parts(),
        None => 1,
    }
}

impl InputFiles {
    /// Those for an input at a path, or for its parts beside it, if it is dealt out.
    ///
    /// # Errors
    ///
    /// `Write`; `Memory`.
    pub(crate) fn at<R: Files + RandomSource + AllocGlobal>(
        rt: &R,
        input: &str,
        dealing: Option<Dealing>,
    ) -> Result<InputFiles, ImportFault> {
        let mut files = Vec::new(rt.alloc());
        for place in 0..count_of(dealing) {
            let path = path_of(rt.alloc(), input, dealing, place)?;
            let new = written(rt, path.as_str(), NewFile::at(rt, path.as_str()))?;
            files.push(InputFile { path, new })?;
        }
        Ok(InputFiles { files })
    }

    /// Opens them, each at its place.
    ///
    /// # Errors
    ///
    /// `Write`; `Memory`.
    pub(crate) fn open<'r, R: Files + Print + AllocGlobal>(
        &self,
        rt: &'r R,
    ) -> Result<Vec<NewStream<'r, R>>, ImportFault> {
        let mut streams = Vec::new(rt.alloc());
        for file in &self.files {
            let stream = written(rt, file.path.as_str(), file.new.open(rt))?;
            streams.push(stream)?;
        }
        Ok(streams)
    }

    /// Has what was written in the files. One after the other takes its name.
    ///
    /// # Errors
    ///
    /// `Write`; `Memory`.
    pub(crate) fn keep<R: Files + Print + AllocGlobal>(
        &self,
        rt: &R,
        streams: &[NewStream<'_, R>],
    ) -> Result<(), ImportFault> {
        for (file, stream) in self.files.iter().zip(streams.iter()) {
            written(rt, file.path.as_str(), file.new.keep(rt, stream))?;
        }
        Ok(())
    }

    /// Removes those that have not their names yet.
    pub(crate) fn remove<R: Files>(&self, rt: &R) {
        for file in &self.files {
            let _ = file.new.remove(rt);
        }
    }
}
