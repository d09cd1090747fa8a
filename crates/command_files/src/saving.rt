//! Files that hold what they held or the whole of what is written.

ghost use Rattle.std.specs.Prelude.{◌≡◌, ◌⊎◌, IfErr, IfOk};
ghost use Rattle.std.specs.IoError.{error_kind};
ghost use Rattle.command_files.specs.Files as said;
ghost use Rattle.new_files.specs.Streams.{HasGot};

use job_texts::JobFault;
use new_files::{NewStream, is_standard_output, write_whole};
use std::io;
use std::io::ErrorKind;
use std::random::RandomSource;
use std::rt::Files;

/// Why a file could not be written.
pub fn write_fault(error: &io::Error) -> JobFault
    ensures { result ≡ said.write_fault (error_kind error.now) }
{
    match error.kind() {
        ErrorKind::OutOfMemory => JobFault::Memory,
        _ => JobFault::Write,
    }
}

/// Refuses to write to the file that the standard output goes to, where what is printed would be lost.
///
/// # Errors
///
/// `Write` where the path is one of that file; `Memory`.
pub fn check_apart<R: Files + AllocGlobal>(rt: &R, path: &str) -> Result<(), JobFault>
    ensures { IfErr result (λ fault. (fault ≡ JobFault.Write) ⊎ (fault ≡ JobFault.Memory)) }
{
    match is_standard_output(rt, path) {
        Ok(false) => Ok(()),
        Ok(true) => Err(JobFault::Write),
        Err(error) => Err(write_fault(&error)),
    }
}

/// Writes bytes as the whole of the file at a path, and gives what they were written to: whatever happens meanwhile,
/// the file holds what it held or all of the bytes.
///
/// # Errors
///
/// `Write` where the file cannot be written, and then it holds what it held; `Memory`.
pub fn save<'r, R: Files + Print + RandomSource + AllocGlobal>(
    rt: &'r R,
    path: &str,
    bytes: &[u8],
) -> Result<NewStream<'r, R>, JobFault>
    ensures written { IfOk result (λ stream. HasGot R.File.contents stream bytes.now) }
    ensures refused { IfErr result (λ fault. (fault ≡ JobFault.Write) ⊎ (fault ≡ JobFault.Memory)) }
{
    match write_whole(rt, path, bytes) {
        Ok(stream) => Ok(stream),
        Err(error) => Err(write_fault(&error)),
    }
}
