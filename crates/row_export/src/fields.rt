//! Cells as fields of CSV.

ghost use Rattle.std.specs.Prelude.{◌≡◌, ◌++◌, OnOk};
ghost use Rattle.csv.specs.Writing.{default_writer, escaped, field_text, needs_byte, needs_quotes, quoted};
ghost use Rattle.row_export.specs.Records.{escaped_byte};

use std::alloc::AllocError;

/// Whether a byte calls for quotes around its field.
fn is_special(byte: u8) -> bool
    ensures { result ≡ needs_byte default_writer byte }
{
    byte == b',' || byte == b'"' || byte == b'\r' || byte == b'\n'
}

/// Whether a field calls for quotes.
pub(crate) fn needs_quotes(text: &[u8]) -> bool
    ensures { result ≡ needs_quotes default_writer text.now }
{
    text.iter().any(|byte| is_special(*byte))
}

/// Puts a byte of a field behind a line, a quote twice.
fn put_byte(line: &mut Vec<u8>, byte: u8) -> Result<(), AllocError>
    ensures { OnOk result (line.new.items ≡ line.old.items ++ escaped_byte byte) }
{
    if byte == b'"' {
        line.push(b'"')?;
    }
    line.push(byte)?;
    Ok(())
}

/// Puts the bytes of a field behind a line, each quote twice.
fn put_escaped(line: &mut Vec<u8>, text: &[u8]) -> Result<(), AllocError>
    ensures { OnOk result (line.new.items ≡ line.old.items ++ escaped default_writer text.now) }
{
    for byte in text {
        put_byte(line, *byte)?;
    }
    Ok(())
}

/// Puts a field between quotes behind a line.
fn put_quoted(line: &mut Vec<u8>, text: &[u8]) -> Result<(), AllocError>
    ensures { OnOk result (line.new.items ≡ line.old.items ++ quoted default_writer text.now) }
{
    line.push(b'"')?;
    put_escaped(line, text)?;
    line.push(b'"')?;
    Ok(())
}

/// Puts a field behind a line, between quotes where it calls for them.
pub(crate) fn put_text(line: &mut Vec<u8>, text: &[u8]) -> Result<(), AllocError>
    ensures { OnOk result (line.new.items ≡ line.old.items ++ field_text default_writer text.now) }
{
    if needs_quotes(text) {
        return put_quoted(line, text);
    }
    line.extend_from_slice(text)
}
