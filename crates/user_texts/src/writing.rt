//! Texts that are written whole.

ghost use Rattle.std.specs.Prelude.{◌≡◌, MatchResult};
ghost use Rattle.std.specs.Io.KnownBytes.{Appends};

use std::io::Write;

/// Why a text is not written.
#[derive(Clone, Copy, Debug, PartialEq, Eq)]
pub enum TextFault {
    /// No page has the code.
    NoPage,
    /// What was to be written could not be, and nothing is known of how much was.
    Write,
}

/// Writes a text whole, and flushes what it is written to.
///
/// # Errors
///
/// `Write` where the writer refuses it.
pub fn write_text<W: Write>(out: &mut W, text: &str) -> Result<(), TextFault>
    ensures { MatchResult result (λ _. Appends (W.contents out.old) (W.contents out.new) text.now) (λ fault. fault ≡ TextFault.Write) }
{
    if out.write_all(text.as_bytes()).is_err() || out.flush().is_err() {
        return Err(TextFault::Write);
    }
    Ok(())
}
