//! Columns in lines.

ghost use Rattle.std.specs.Prelude.{◌≡◌, ◌++◌, IfOk, OnOk};
ghost use Rattle.std.specs.List.{flat_map};
ghost use Rattle.column_files.specs.Lines.{without_end, column_byte, columns_in_lines};

use std::alloc::{AllocError, Global};

/// A text without the line feed that it may end with.
fn without_end(text: &[u8]) -> &[u8]
    ensures { result.now ≡ without_end text.now }
{
    match text {
        [front @ .., b'\n'] => front,
        _ => text,
    }
}

/// Puts what stands for a byte behind a word.
fn push_byte(word: &mut Vec<u8>, byte: u8) -> Result<(), AllocError>
    ensures { OnOk result (word.new.items ≡ word.old.items ++ column_byte byte) }
{
    match byte {
        b'\r' => {}
        b'\n' => word.push(b',')?,
        _ => word.push(byte)?,
    }
    Ok(())
}

/// The word of the columns in a text: with a comma for the end of each line but the last.
///
/// # Errors
///
/// Only where memory runs out.
pub fn columns_of_lines(alloc: Global, text: &[u8]) -> Result<Vec<u8>, AllocError>
    ensures { IfOk result (λ word. word.items ≡ columns_in_lines text.now) }
{
    let text = without_end(text);
    let mut word = Vec::with_capacity(alloc, text.len())?;
    for byte in text {
        push_byte(&mut word, *byte)?;
    }
    Ok(word)
}
