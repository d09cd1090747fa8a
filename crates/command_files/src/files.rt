//! Files read whole.

ghost use Rattle.std.specs.Prelude.{◌≡◌, ◌⊎◌, is_some, IfErr, IfOk};
ghost use Rattle.std.specs.IoError.{error_kind};
ghost use Rattle.command_files.specs.Files as said;

use job_texts::{JobFault, read_all};
use std::fs::File;
use std::io;
use std::io::ErrorKind;
use std::rt::Files;

/// All bytes of the file at a path.
///
/// # Errors
///
/// `Memory`, or else `Read` where there is no file that can be read, as at a folder, or where it has more bytes than
/// [`read_all`] takes.
pub fn file<R: Files + AllocGlobal>(rt: &R, path: &str) -> Result<Vec<u8>, JobFault>
    ensures { IfErr result (λ fault. (fault ≡ JobFault.Read) ⊎ (fault ≡ JobFault.Memory)) }
{
    match File::open(rt, path) {
        Ok(mut file) => read_all(rt.alloc(), &mut file),
        Err(error) => Err(read_fault(&error)),
    }
}

/// All bytes of the file at a path, where there is a path.
///
/// # Errors
///
/// Those of [`file`].
pub fn optional_file<R: Files + AllocGlobal>(
    rt: &R,
    path: Option<&str>,
) -> Result<Option<Vec<u8>>, JobFault>
    ensures given { IfOk result (λ bytes. is_some bytes ≡ is_some path.entry) }
    ensures err { IfErr result (λ fault. (fault ≡ JobFault.Read) ⊎ (fault ≡ JobFault.Memory)) }
{
    match path {
        Some(path) => Ok(Some(file(rt, path)?)),
        None => Ok(None),
    }
}

/// Why a file could not be read.
pub fn read_fault(error: &io::Error) -> JobFault
    ensures { result ≡ said.read_fault (error_kind error.now) }
{
    match error.kind() {
        ErrorKind::OutOfMemory => JobFault::Memory,
        _ => JobFault::Read,
    }
}
