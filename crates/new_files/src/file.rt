//! A file that takes the place of another.

ghost use Rattle.std.specs.Prelude.{◌≡◌, true, string_bytes, IfOk, IsOk};
ghost use Rattle.new_files.specs.Names.{IsBeside, IsTarget, has_no_name};
ghost use Rattle.new_files.specs.Streams.{IsStreamOf, HasGot};

use crate::place::{Place, folder_and_name, place_of};
use crate::stream::NewStream;
use std::fs::{File, OpenFile, OpenOptions};
use std::io::writer;
use std::marker::Model;
use std::random::RandomSource;
use std::rt::Files;
use std::{fs, io};

/// Where what is written goes, until it is all there.
#[derive(Drop)]
pub(crate) enum Target {
    /// Into the standard output, by the stream that is open.
    Standard,
    /// Into what stands at this path, behind what it holds.
    Standing(String),
    /// Into a file of the user's, which takes its path once it is written.
    Beside {
        path: String,
        /// The path until then, of a file that is none of the user's.
        beside: String,
    },
}

/// A file that is written beside the one at a path, and takes its name once its bytes are on the disk: whatever happens
/// meanwhile, there is what there was or all that is written. What is no regular file of a name of its own, as a pipe,
/// a device or what is open under a number, is written to as it stands, behind what it holds, and the standard output
/// by the stream that is open.
pub struct NewFile {
    target: Target,
}

// By hand, since a proof goes over a derived drop field by field.
impl Drop for NewFile {
    fn drop(self) {
        let NewFile { target: _ } = self;
    }
}

impl Model for NewFile {
    ghost use Rattle.new_files.specs.Names.{IsTarget};
    ghost use Rattle.new_files.specs.declared.file.Target.{Target};

    ghost Value = { Target };

    ghost view = { λ new. new.target };

    ghost invariant = { λ new. IsTarget new.target };
}

/// The name of a file that is not there yet, beside the one at a path.
fn name_beside<R: RandomSource + AllocGlobal>(rt: &R, path: &str) -> io::Result<String>
    ensures { IfOk result (λ beside. IsBeside path.now (string_bytes beside)) }
{
    let mut bytes = [0; 8];
    rt.fill_bytes(&mut bytes)?;
    let number = u64::from_le_bytes(bytes);
    Ok(format!(in rt.alloc(); "{path}.{number:016x}.part")?)
}

/// Gives a file another path. Both are copied onto the stack, in a frame of its own.
#[inline(never)]
fn rename<R: Files>(rt: &R, from: &str, to: &str) -> io::Result<()> {
    fs::rename(rt, from, to)
}

/// Has the names in the folder of a path on the disk, where the system can.
#[inline(never)]
fn flush_folder<R: Files>(rt: &R, path: &str) {
    let (folder, _) = folder_and_name(path);
    if let Ok(folder) = File::open(rt, folder) {
        let _ = folder.sync_all();
    }
}

impl NewFile {
    /// A file for the place of the one at a path. Symbolic links to a file are followed.
    ///
    /// # Errors
    ///
    /// Where there is no memory, or the system gives no random bytes for a name.
    pub fn at<R: Files + RandomSource + AllocGlobal>(rt: &R, path: &str) -> io::Result<NewFile>
        ensures { IfOk result IsTarget }
    {
        let target = match place_of(rt, path)? {
            Place::Standard => Target::Standard,
            Place::Standing(path) => Target::Standing(path),
            Place::Named(path) => {
                let beside = name_beside(rt, path.as_str())?;
                Target::Beside { path, beside }
            }
        };
        Ok(NewFile { target })
    }

    /// Opens it for what is to be written: the standard output just where it is that.
    ///
    /// # Errors
    ///
    /// Where no file can be made there.
    pub fn open<'r, R: Files + Print>(&self, rt: &'r R) -> io::Result<NewStream<'r, R>>
        ensures { IfOk result (IsStreamOf self.now) }
    {
        match &self.target {
            Target::Standard => Ok(NewStream::Standard(writer(rt))),
            Target::Standing(path) => {
                let file = OpenOptions::new().append(true).open(rt, path.as_str())?;
                Ok(NewStream::File(file))
            }
            Target::Beside { beside, .. } => {
                let file = File::create_new(rt, beside.as_str())?;
                Ok(NewStream::File(file))
            }
        }
    }

    /// Has what was written on the disk, and gives it the path's name. What has no name of its own is left alone.
    ///
    /// # Errors
    ///
    /// Where one of these cannot be done.
    pub fn keep<R: Files + Print>(&self, rt: &R, stream: &NewStream<'_, R>) -> io::Result<()>
        ensures { has_no_name self.now ≡ true → IsOk result }
    {
        match (&self.target, stream) {
            (Target::Beside { path, beside }, NewStream::File(file)) => {
                file.sync_all()?;
                rename(rt, beside.as_str(), path.as_str())?;
                flush_folder(rt, path.as_str());
                Ok(())
            }
            _ => Ok(()),
        }
    }

    /// Writes bytes as all that it holds, and gives what they were written to.
    fn fill<'r, R: Files + Print>(&self, rt: &'r R, bytes: &[u8]) -> io::Result<NewStream<'r, R>>
        ensures { IfOk result (λ stream. HasGot R.File.contents stream bytes.now) }
    {
        let stream = self.open(rt)?.with_bytes(bytes)?;
        self.keep(rt, &stream)?;
        Ok(stream)
    }

    /// Removes it, where it has not taken the path's name. What has no name of its own is left alone.
    ///
    /// # Errors
    ///
    /// Where it cannot be removed.
    pub fn remove<R: Files>(&self, rt: &R) -> io::Result<()>
        ensures { has_no_name self.now ≡ true → IsOk result }
    {
        match &self.target {
            Target::Beside { beside, .. } => fs::remove_file(rt, beside.as_str()),
            Target::Standard | Target::Standing(_) => Ok(()),
        }
    }
}

/// Writes bytes as the whole of the file at a path, in the way of [`NewFile`], and gives what they were written to.
///
/// # Errors
///
/// Where the file cannot be written, and then it holds what it held; where there is no memory.
pub fn write_whole<'r, R: Files + Print + RandomSource + AllocGlobal>(
    rt: &'r R,
    path: &str,
    bytes: &[u8],
) -> io::Result<NewStream<'r, R>>
    ensures { IfOk result (λ stream. HasGot R.File.contents stream bytes.now) }
{
    let new = NewFile::at(rt, path)?;
    let written = new.fill(rt, bytes);
    if written.is_err() {
        let _ = new.remove(rt);
    }
    written
}
