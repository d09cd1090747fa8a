//! Texts written whole.

ghost use Rattle.std.specs.Prelude.{◌≡◌, MatchResult};
ghost use Rattle.std.specs.Io.KnownBytes.{Appends};

use crate::fault::JobFault;
use std::io::Write;

/// Writes a text whole, and flushes the writer.
///
/// # Errors
///
/// `Write` where the writer refuses the text or fails to flush it.
pub fn write_text<W: Write>(out: &mut W, text: &str) -> Result<(), JobFault>
    ensures { MatchResult result (λ _. Appends (W.contents out.old) (W.contents out.new) text.now) (λ fault. fault ≡ JobFault.Write) }
{
    if out.write_all(text.as_bytes()).is_err() || out.flush().is_err() {
        return Err(JobFault::Write);
    }
    Ok(())
}
