//! Files of rows.

ghost use Rattle.row_commands.specs.Telling.{TellsRows};

use crate::refusal::{RowsCode, RowsRefusal, refused};
use row_lines::RowsFault;
use std::alloc::Global;
use std::fs::File;
use std::io;
use std::io::ErrorKind;
use std::rt::Files;

fn open_fault(alloc: Global, path: &str, error: &io::Error) -> RowsRefusal {
    match error.kind() {
        ErrorKind::OutOfMemory => RowsRefusal::Memory,
        _ => refused(RowsCode::Read, format!(in alloc; "{path}")),
    }
}

/// The file at a path.
///
/// # Errors
///
/// `Read`; `Memory`.
pub(crate) fn opened<R: Files + AllocGlobal>(rt: &R, path: &str) -> Result<R::File, RowsRefusal> {
    match File::open(rt, path) {
        Ok(file) => Ok(file),
        Err(error) => Err(open_fault(rt.alloc(), path, &error)),
    }
}

/// The refusal of a text of rows, at a line.
pub(crate) fn refused_rows(alloc: Global, path: &str, line: u64, fault: RowsFault) -> RowsRefusal
    ensures { TellsRows fault result }
{
    match fault {
        RowsFault::Read => refused(RowsCode::Read, format!(in alloc; "{path}")),
        RowsFault::Line => refused(
            RowsCode::Rows,
            format!(in alloc;
                "{path}:{line}: a row is START END KEY NUMBER .., whole numbers with single spaces between, as many as in the first"
            ),
        ),
        RowsFault::Order => refused(
            RowsCode::Order,
            format!(in alloc;
                "{path}:{line}: the row is not behind the one before it, by its start and then its key"
            ),
        ),
        RowsFault::Memory => RowsRefusal::Memory,
    }
}
