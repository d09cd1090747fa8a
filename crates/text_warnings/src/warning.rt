//! The warnings of a text, and how they are written.

ghost use Rattle.std.specs.Prelude.{◌≡◌, ◌<◌, ◌↔◌, length, IfOk, IsSome, IsTrue};
ghost use Rattle.json.specs.Json.{document};
ghost use Rattle.text_warnings.specs.Text.{IsJson};

use crate::walk::found_in;
use json::{Scratch, is_valid};
use std::alloc::{AllocError, Global};
use std::io;
use std::io::Write;
use text_places::{Finding, Findings, place_of};

/// What a text is given as.
#[derive(Clone, Copy, Debug, PartialEq, Eq)]
pub enum TextKind {
    Plan,
    Input,
    Scale,
}

/// Whether a text is JSON.
fn is_json(alloc: Global, text: &str) -> Result<bool, AllocError>
    ensures { IfOk result (λ valid. IsTrue valid ↔ IsSome (document text.now)) }
{
    let mut scratch = Scratch::new(alloc);
    is_valid(text, &mut scratch)
}

/// What in the bytes of a text is easily overlooked, in the order in which it is found, and of many the first 20: each
/// member whose name stands in its object before, and in an input each watermark that is below one before it in
/// its partition, and the end of each partition of which no watermark is above the first of two or more. A text
/// that is no JSON has none.
///
/// # Errors
///
/// Where memory runs out.
pub fn warnings_of(alloc: Global, bytes: &[u8], kind: TextKind) -> Result<Findings, AllocError>
    ensures text { IfOk result (λ found. found.end ≡ length bytes.now) }
    ensures json { IfOk result (λ found. 0 < length found.places → IsJson bytes.now) }
{
    match std::str::from_utf8(bytes) {
        Ok(text) if is_json(alloc, text)? => found_in(alloc, text, kind),
        _ => Ok(Findings::new(alloc, bytes.len())),
    }
}

/// Writes a line for a warning: the file, the line and the column, and the sentence.
fn write_warning<W: Write>(
    out: &mut W,
    file: &str,
    text: &[u8],
    warning: &Finding,
) -> io::Result<()> {
    let place = place_of(text, warning.offset);
    let (line, column) = (place.line, place.column);
    let sentence = warning.sentence.as_str();
    writeln!(out, "{file}:{line}:{column}: warning: {sentence}")
}

fn write_warnings<W: Write>(
    out: &mut W,
    file: &str,
    text: &[u8],
    found: &Findings,
) -> io::Result<()> {
    for warning in found.places() {
        write_warning(out, file, text, warning)?;
    }
    out.flush()
}

/// Writes the warnings of a text with the name of its file, as far as there is memory for them and the writer
/// takes them. Where there is none nothing is written.
pub fn warn<W: Write>(alloc: Global, text: &[u8], file: &str, kind: TextKind, out: &mut W)
    ensures quiet { ¬ IsJson text.now → W.contents out.new ≡ W.contents out.old }
{
    if let Ok(found) = warnings_of(alloc, text, kind) {
        if !found.is_empty() {
            let _ = write_warnings(out, file, text, &found);
        }
    }
}
