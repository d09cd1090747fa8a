//! A file that says that another is in use.

ghost use Rattle.std.specs.Prelude.{◌≡◌, None, IfOk, IfErr, IsOk, option_map};
ghost use Rattle.std.specs.IoError.{error_kind};
ghost use Rattle.new_files.specs.Names.{IsLock};

use crate::place::{Place, place_of};
use std::fs::File;
use std::io;
use std::io::ErrorKind;
use std::marker::Model;
use std::rt::Files;

/// A file beside another, which is there as long as a program reads and writes the other. What is no regular file has
/// none.
pub struct LockFile {
    path: Option<String>,
}

// By hand, since a proof goes over a derived drop field by field.
impl Drop for LockFile {
    fn drop(self) {
        let LockFile { path: _ } = self;
    }
}

impl Model for LockFile {
    ghost use Rattle.std.specs.Prelude.{ℕ, List, Option, option_map, string_bytes};
    ghost use Rattle.new_files.specs.Names.{IsLock};

    ghost Value = { Option (List ℕ) };

    ghost view = { λ lock. option_map string_bytes lock.path };

    ghost invariant = { λ lock. IsLock (option_map string_bytes lock.path) };
}

impl LockFile {
    /// The one of the file at a path: of its name with `.lock` behind it.
    ///
    /// # Errors
    ///
    /// Only where there is no memory.
    pub fn of<R: Files + AllocGlobal>(rt: &R, path: &str) -> io::Result<LockFile>
        ensures named { IfOk result IsLock }
        ensures refused { IfErr result (λ error. error_kind error ≡ ErrorKind.OutOfMemory) }
    {
        match place_of(rt, path)? {
            Place::Named(path) => {
                let path = format!(in rt.alloc(); "{path}.lock")?;
                Ok(LockFile { path: Some(path) })
            }
            Place::Standard | Place::Standing(_) => Ok(LockFile { path: None }),
        }
    }

    /// Its path, if there is one.
    pub fn path(&self) -> Option<&str>
        ensures { option_map (λ path. path.now) result ≡ self.now }
    {
        match &self.path {
            Some(path) => Some(path.as_str()),
            None => None,
        }
    }

    /// Makes it anew. Where there is none to make, nothing is refused.
    ///
    /// # Errors
    ///
    /// `AlreadyExists` where it is there, so that the other file is in use, or a program that used it was ended; any
    /// other where none can be made.
    pub fn take<R: Files>(&self, rt: &R) -> io::Result<()>
        ensures { self.now ≡ None → IsOk result }
    {
        if let Some(path) = self.path() {
            let _file = File::create_new(rt, path)?;
        }
        Ok(())
    }

    /// Removes it, once it was made. Where there is none to remove, nothing is refused.
    ///
    /// # Errors
    ///
    /// Where it cannot be removed.
    pub fn release<R: Files>(&self, rt: &R) -> io::Result<()>
        ensures { self.now ≡ None → IsOk result }
    {
        match self.path() {
            Some(path) => std::fs::remove_file(rt, path),
            None => Ok(()),
        }
    }
}
