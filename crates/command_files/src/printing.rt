//! What is printed.

ghost use Rattle.std.specs.Prelude.{◌≡◌, IfErr};

use job_texts::JobFault;
use std::io::{Write, writer};

/// Prints bytes.
///
/// # Errors
///
/// `Write` where standard output takes no more.
pub fn print<R: Print>(rt: &R, bytes: &[u8]) -> Result<(), JobFault>
    ensures { IfErr result (λ fault. fault ≡ JobFault.Write) }
{
    let mut out = writer(rt);
    if out.write_all(bytes).is_err() || out.flush().is_err() {
        return Err(JobFault::Write);
    }
    Ok(())
}
