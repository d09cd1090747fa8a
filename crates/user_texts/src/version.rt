//! The version of the program.

ghost use Rattle.std.specs.Prelude.{◌≡◌, MatchResult, option_map};
ghost use Rattle.std.specs.List.{list_all};
ghost use Rattle.std.specs.Io.KnownBytes.{Appends};
ghost use Rattle.user_texts.specs.VersionText as version;

use crate::writing::{TextFault, write_text};
use std::io::Write;

/// What `streamjob version` prints: the program with its version, and the toolchain that proves and builds it, as
/// `rt version` names it.
pub const VERSION: &str = "\
streamjob 0.1.0
built with rattle-kit-13f logic dac8208d650f15bf
";

/// The most bytes that the name of a commit has.
pub const LONGEST_COMMIT: usize = 128;

/// Whether a byte is that of a printable character of ASCII.
fn is_printable(byte: u8) -> bool
    ensures { result ≡ version.is_printable byte }
{
    32 <= byte && byte <= 126
}

fn are_printable(bytes: &[u8]) -> bool
    ensures { result ≡ list_all version.is_printable bytes.now }
{
    bytes.iter().all(|byte| is_printable(*byte))
}

/// Whether a text may be the name of a commit: 1 to 128 printable characters of ASCII.
fn is_commit(text: &str) -> bool
    ensures { result ≡ version.is_commit text.now }
{
    let bytes = text.as_bytes();
    let is_short = 1 <= bytes.len() && bytes.len() <= LONGEST_COMMIT;
    is_short && are_printable(bytes)
}

/// Writes the line of a commit.
#[tactic(auto, using(crate::proofs::Grown::grown))]
fn write_commit<W: Write>(out: &mut W, commit: &str) -> Result<(), TextFault>
    ensures { MatchResult result (λ _. Appends (W.contents out.old) (W.contents out.new) (version.commit_line commit.now)) (λ fault. fault ≡ TextFault.Write) }
{
    write_text(out, "commit ")?;
    write_text(out, commit)?;
    write_text(out, "\n")
}

/// Writes the line of a commit, where a text may be the name of one, and else nothing.
#[tactic(auto, using(crate::proofs::Grown::nothing_more))]
fn write_if_commit<W: Write>(out: &mut W, text: &str) -> Result<(), TextFault>
    ensures { MatchResult result (λ _. Appends (W.contents out.old) (W.contents out.new) (version.commit_said text.now)) (λ fault. fault ≡ TextFault.Write) }
{
    if is_commit(text) {
        return write_commit(out, text);
    }
    Ok(())
}

/// Writes the version of the program and its toolchain, a line for each, and a line for the commit that it is of, where
/// one is given that may be the name of one.
///
/// # Errors
///
/// `Write` where the writer refuses the text.
pub fn write_version<W: Write>(out: &mut W, commit: Option<&str>) -> Result<(), TextFault>
    ensures { MatchResult result (λ _. Appends (W.contents out.old) (W.contents out.new) (version.version_text (option_map (λ text. text.now) commit.entry))) (λ fault. fault ≡ TextFault.Write) }
{
    write_text(out, VERSION)?;
    match commit {
        Some(commit) => write_if_commit(out, commit),
        None => Ok(()),
    }
}
