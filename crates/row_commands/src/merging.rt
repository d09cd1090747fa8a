//! Files of rows as one.

ghost use Rattle.std.specs.Prelude.{length, IfOk, OnOk};
ghost use Rattle.row_commands.specs.Telling.{TellsMerge, HasTexts, HasMerged};

use crate::files::{opened, refused_rows};
use crate::refusal::RowsRefusal;
use row_merges::{Merge, MergeFault};
use std::alloc::Global;
use std::io::Write;
use std::rt::Files;

/// The words of a merge.
#[derive(Clone, Copy)]
pub struct MergeWords<'a> {
    /// The files of the rows.
    pub files: &'a [&'a str],
}

fn refused_merge(alloc: Global, files: &[&str], fault: MergeFault) -> RowsRefusal
    ensures { TellsMerge fault result }
{
    match fault {
        MergeFault::Text(place, fault, line) => {
            let path = files.get(place).copied().unwrap_or("");
            refused_rows(alloc, path, line, fault)
        }
        MergeFault::Write => RowsRefusal::Write,
        MergeFault::Memory => RowsRefusal::Memory,
    }
}

/// The texts of files, each with its first row read.
fn texts_of<R: Files + AllocGlobal>(rt: &R, files: &[&str]) -> Result<Merge<R::File>, RowsRefusal>
    ensures { IfOk result (HasTexts R.File.remaining (length files.now)) }
{
    let mut merge = Merge::new(rt.alloc());
    for place in 0..files.len() {
        let file = opened(rt, files[place])?;
        if let Err(fault) = merge.add(file) {
            return Err(refused_merge(rt.alloc(), files, fault));
        }
    }
    Ok(merge)
}

/// Writes the rows of files, each in the order of start and key, as one text in that order, in memory that does not
/// grow with them.
///
/// # Errors
///
/// `Read` where a file cannot be read; `Rows` and `Order` with file and line, also where a row stands at the start and
/// key of another file's; `Write`; `Memory`. Some lines may have been written then.
pub fn merge<R: Files + AllocGlobal, W: Write>(
    rt: &R,
    words: &MergeWords<'_>,
    out: &mut W,
) -> Result<(), RowsRefusal>
    ensures { OnOk result (HasMerged (length words.now.files.now) (W.contents out.old) (W.contents out.new)) }
{
    let texts = texts_of(rt, words.files)?;
    if let Err(fault) = texts.write(out) {
        return Err(refused_merge(rt.alloc(), words.files, fault));
    }
    if out.flush().is_err() {
        return Err(RowsRefusal::Write);
    }
    Ok(())
}
