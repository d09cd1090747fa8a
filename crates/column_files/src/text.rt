//! A word, or what stands in the file that it names.

ghost use Rattle.std.specs.Prelude.{◌≡◌, is_some, IfOk, IsTrue};
ghost use Rattle.column_files.specs.Lines.{names_file};

use crate::lines::columns_of_lines;
use import_words::{ImportCode, ImportFault, refused};
use std::alloc::Global;
use std::fs::File;
use std::io;
use std::io::{ErrorKind, Read};
use std::rt::Files;

/// The most bytes of a file of columns.
const MOST_BYTES: u64 = 1 << 20;

/// Whether a word names a file: it begins with `@`, and is not a list of columns of which the first does so.
pub fn names_file(word: &str) -> bool
    ensures { result ≡ names_file word.now }
{
    let bytes = word.as_bytes();
    bytes.first() == Some(&b'@') && !bytes.contains(&b',')
}

fn read_fault(alloc: Global, path: &str, error: &io::Error) -> ImportFault {
    match error.kind() {
        ErrorKind::OutOfMemory => ImportFault::Memory,
        _ => refused(ImportCode::Read, format!(in alloc; "{path}")),
    }
}

/// The bytes of a file, or one more than columns may have.
fn bytes_of<R: Files + AllocGlobal>(rt: &R, path: &str) -> Result<Vec<u8>, io::Error> {
    let mut bytes = Vec::new(rt.alloc());
    let mut file = File::open(rt, path)?.take(MOST_BYTES + 1);
    let _count = file.read_to_end(&mut bytes)?;
    Ok(bytes)
}

/// The word of the columns in the bytes of a file.
fn word_of(alloc: Global, path: &str, bytes: &[u8]) -> Result<String, ImportFault> {
    if bytes.len() as u64 > MOST_BYTES {
        let sentence = format!(in alloc; "{path:?}: the file has more than {MOST_BYTES} bytes");
        return Err(refused(ImportCode::Columns, sentence));
    }
    match String::from_utf8(columns_of_lines(alloc, bytes)?) {
        Ok(word) => Ok(word),
        Err(_) => Err(refused(
            ImportCode::Columns,
            format!(in alloc; "{path:?}: the file is no text in UTF-8"),
        )),
    }
}

/// The columns in the file that a word names, as `@FILE`, or `None` for any other word: that says its columns itself.
///
/// In the file a column may stand in a line of its own.
///
/// # Errors
///
/// `Read` where there is no such file; `Columns` where it is too long, or no UTF-8; `Memory`.
pub fn columns_text<R: Files + AllocGlobal>(
    rt: &R,
    word: &str,
) -> Result<Option<String>, ImportFault>
    ensures { IfOk result (λ text. is_some text ≡ names_file word.now) }
{
    if !names_file(word) {
        return Ok(None);
    }
    let path = word.strip_prefix("@").unwrap_or(word);
    match bytes_of(rt, path) {
        Ok(bytes) => Ok(Some(word_of(rt.alloc(), path, &bytes)?)),
        Err(error) => Err(read_fault(rt.alloc(), path, &error)),
    }
}
