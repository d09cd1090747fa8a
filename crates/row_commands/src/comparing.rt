//! What changed between two files of rows.

ghost use Rattle.std.specs.Prelude.{OnOk};
ghost use Rattle.row_commands.specs.Telling.{TellsChanges, HasWritten};

use crate::files::{opened, refused_rows};
use crate::refusal::RowsRefusal;
use row_changes::{ChangesFault, write_changes};
use std::alloc::Global;
use std::io::Write;
use std::rt::Files;

/// The words of a comparison.
#[derive(Clone, Copy)]
pub struct DiffWords<'a> {
    /// The file of the old rows.
    pub old: &'a str,
    /// The file of the new rows.
    pub new: &'a str,
}

fn refused_changes(alloc: Global, words: &DiffWords<'_>, fault: ChangesFault) -> RowsRefusal
    ensures { TellsChanges fault result }
{
    match fault {
        ChangesFault::Old(fault, line) => refused_rows(alloc, words.old, line, fault),
        ChangesFault::New(fault, line) => refused_rows(alloc, words.new, line, fault),
        ChangesFault::Write => RowsRefusal::Write,
        ChangesFault::Memory => RowsRefusal::Memory,
    }
}

/// Writes what changed between the rows of two files, in memory that does not grow with them.
///
/// # Errors
///
/// `Read` where a file cannot be read; `Rows` and `Order` with file and line; `Write`; `Memory`. Some lines may have
/// been written then.
pub fn diff<R: Files + AllocGlobal, W: Write>(
    rt: &R,
    words: &DiffWords<'_>,
    out: &mut W,
) -> Result<(), RowsRefusal>
    ensures { OnOk result (HasWritten (W.contents out.old) (W.contents out.new)) }
{
    let old = opened(rt, words.old)?;
    let new = opened(rt, words.new)?;
    if let Err(fault) = write_changes(rt.alloc(), old, new, out) {
        return Err(refused_changes(rt.alloc(), words, fault));
    }
    if out.flush().is_err() {
        return Err(RowsRefusal::Write);
    }
    Ok(())
}
