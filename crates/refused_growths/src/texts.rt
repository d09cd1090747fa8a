//! The texts of answers.

use core_steps::{Finish, Sealed};
use job::LegOut;
use job_legs::LegsEnd;
use job_texts::{sort_rows, text_of_rows, text_of_savepoint};
use plan_model::Row;
use savepoint_codec::Savepoint;
use std::alloc::{AllocError, Global};

fn text_of_sorted(alloc: Global, rows: Vec<Row>) -> Result<String, AllocError> {
    let mut rows = rows;
    sort_rows(&mut rows)?;
    text_of_rows(alloc, rows.as_slice())
}

/// What stands before the text of a leg that was given up.
const GIVEN_UP: &str = "given up\n";

/// What legs come to, as a text.
pub(crate) trait Told {
    fn text(self, alloc: Global) -> Result<String, AllocError>;
}

fn text_of_stop(alloc: Global, rows: Vec<Row>, savepoint: Savepoint) -> Result<String, AllocError> {
    let savepoint = Box::new(alloc, savepoint)?;
    let mut text = text_of_sorted(alloc, rows)?;
    text.push_str(text_of_savepoint(alloc, savepoint.contents())?.as_str())?;
    Ok(text)
}

fn text_of_sealed(alloc: Global, sealed: Sealed) -> Result<String, AllocError> {
    let Sealed {
        rows,
        savepoint,
        ..
    } = sealed;
    text_of_stop(alloc, rows.into_vec(), savepoint)
}

fn text_of_seal(alloc: Global, sealed: Sealed) -> Result<String, AllocError> {
    let part = text_of_sealed(alloc, sealed)?;
    let mut text = String::from_str(alloc, GIVEN_UP)?;
    text.push_str(part.as_str())?;
    Ok(text)
}

fn text_of_end(
    alloc: Global,
    rows: Vec<Row>,
    sealed: Option<Sealed>,
) -> Result<String, AllocError> {
    let part = match sealed {
        Some(sealed) => text_of_sealed(alloc, sealed)?,
        None => String::new(alloc),
    };
    let mut text = text_of_sorted(alloc, rows)?;
    text.push_str(part.as_str())?;
    Ok(text)
}

/// The rows of a leg, in the order of start and key, and what the savepoint holds that it left where it stopped, or the
/// rows and the savepoint that it has sealed on its way.
impl Told for Finish {
    fn text(self, alloc: Global) -> Result<String, AllocError> {
        match self {
            Finish::Ended(rows, sealed) => text_of_end(alloc, rows.into_vec(), sealed),
            Finish::Stopped(rows, savepoint) => text_of_stop(alloc, rows.into_vec(), savepoint),
            Finish::Abandoned(sealed) => text_of_seal(alloc, sealed),
        }
    }
}

/// The rows of legs, and the bytes of the savepoint that the last of them left where it stopped.
impl Told for LegsEnd {
    fn text(self, alloc: Global) -> Result<String, AllocError> {
        let rows = text_of_rows(alloc, self.rows.as_slice())?;
        text_of_saved(alloc, rows.as_str(), &self.savepoint)
    }
}

/// Rows that a leg has written, and the bytes of the savepoint that it leaves.
pub(crate) fn text_of_leg(alloc: Global, rows: &str, out: &LegOut) -> Result<String, AllocError> {
    let mut text = String::new(alloc);
    if out.abandoned {
        text.push_str(GIVEN_UP)?;
    }
    text.push_str(text_of_saved(alloc, rows, &out.savepoint)?.as_str())?;
    Ok(text)
}

/// Rows that were written, and the bytes of a savepoint.
pub(crate) fn text_of_saved(
    alloc: Global,
    rows: &str,
    savepoint: &Option<Vec<u8>>,
) -> Result<String, AllocError> {
    let mut text = String::from_str(alloc, rows)?;
    if let Some(bytes) = savepoint {
        text.push_str(hex::encode(alloc, bytes)?.as_str())?;
    }
    Ok(text)
}

/// Rows that have fired, and what stands in the panes then.
pub(crate) fn text_of_fired(
    alloc: Global,
    rows: &[Row],
    parts: &str,
) -> Result<String, AllocError> {
    let mut text = text_of_rows(alloc, rows)?;
    text.push_str(parts)?;
    Ok(text)
}
