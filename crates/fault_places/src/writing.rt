//! How places are written.

use std::io;
use std::io::Write;
use text_places::{Finding, Findings, place_of};

/// Writes a line for a place: the file, its line and column, and the sentence.
fn write_place<W: Write>(
    out: &mut W,
    file: &str,
    text: &[u8],
    finding: &Finding,
) -> io::Result<()> {
    let place = place_of(text, finding.offset);
    let (line, column) = (place.line, place.column);
    let sentence = finding.sentence.as_str();
    writeln!(out, "{file}:{line}:{column}: {sentence}")
}

/// Writes a line for each place.
pub fn write_places<W: Write>(
    out: &mut W,
    file: &str,
    text: &[u8],
    found: &Findings,
) -> io::Result<()> {
    for finding in found.places() {
        write_place(out, file, text, finding)?;
    }
    out.flush()
}
