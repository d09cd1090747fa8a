//! Cells as values of JSON.

ghost use Rattle.std.specs.Prelude.{◌≡◌, ◌++◌, ◌∷◌, [], IsTrue, OnOk};
ghost use Rattle.json.specs.Print.{escape, escape_byte, quoted, token_text};
ghost use Rattle.row_export.specs.Objects.{cell_token, comma_at};

use json::{Writer, is_number};
use row_tables::{CellFault, CellKind};
use std::alloc::AllocError;

/// Whether a byte stands in a string of JSON as it is.
fn is_plain_byte(byte: u8) -> bool
    ensures { IsTrue result → escape_byte byte ≡ byte ∷ [] }
{
    if byte < b' ' {
        return false;
    }
    if byte == b'"' {
        return false;
    }
    byte != b'\\'
}

/// Whether a text stands in a string of JSON as it is.
pub(crate) fn is_plain(text: &[u8]) -> bool
    ensures { IsTrue result → escape text.now ≡ text.now }
{
    let mut plain = true;
    for byte in text {
        if !is_plain_byte(*byte) {
            plain = false;
        }
    }
    plain
}

/// Puts a string whose bytes have to be escaped behind a line.
fn put_escaped(line: &mut Vec<u8>, text: &str) -> Result<(), AllocError>
    ensures { OnOk result (line.new.items ≡ line.old.items ++ quoted text.now) }
{
    let mut string = Writer::new(Vec::new(*line.allocator()));
    string.string(text)?;
    line.extend_from_slice(string.into_inner().as_slice())
}

/// Puts a string behind a line.
pub(crate) fn put_string(line: &mut Vec<u8>, text: &str) -> Result<(), AllocError>
    ensures { OnOk result (line.new.items ≡ line.old.items ++ quoted text.now) }
{
    if !is_plain(text.as_bytes()) {
        return put_escaped(line, text);
    }
    line.push(b'"')?;
    line.extend_from_slice(text.as_bytes())?;
    line.push(b'"')?;
    Ok(())
}

/// Puts a cell behind what a line has of an object: a decimal as a number, and any other text as a string.
pub(crate) fn put_cell(line: &mut Vec<u8>, kind: CellKind, text: &str) -> Result<(), CellFault>
    ensures { OnOk result (line.new.items ≡ line.old.items ++ token_text (cell_token kind text.now)) }
{
    match kind {
        CellKind::Number(_) => {
            if !is_number(text) {
                return Err(CellFault::Unread);
            }
            line.extend_from_slice(text.as_bytes())?;
        }
        _ => put_string(line, text)?,
    }
    Ok(())
}

/// Puts the comma before the cell at a place behind a line, where one is needed.
pub(crate) fn push_comma(line: &mut Vec<u8>, place: usize) -> Result<(), AllocError>
    ensures { OnOk result (line.new.items ≡ line.old.items ++ comma_at place) }
{
    if place > 0 {
        line.push(b',')?;
    }
    Ok(())
}
