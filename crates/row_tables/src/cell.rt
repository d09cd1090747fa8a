//! The text of a cell.

ghost use Rattle.std.specs.Prelude.{ℕ, List, IfOk, OnOk, map, string_bytes};
ghost use Rattle.row_tables.specs.Cells.{Shows, PutsDecimal};

use crate::date::write_date;
use crate::decimal::{put_scaled, write_scaled};
use crate::fault::CellFault;
use crate::kind::CellKind;
use crate::time::{write_fine, write_time};
use std::alloc::AllocError;

/// Writes the name of a number into a cell.
fn write_name(cell: &mut String, names: &[String], number: i128) -> Result<(), CellFault>
    ensures { OnOk result (Shows CellKind.Name (map string_bytes names.now) number (string_bytes cell.new)) }
{
    let Ok(number) = usize::try_from(number) else {
        return Err(CellFault::Name);
    };
    if number == 0 {
        return Err(CellFault::Name);
    }
    let Some(name) = names.get(number - 1) else {
        return Err(CellFault::Name);
    };
    cell.clear();
    cell.push_str(name.as_str())?;
    Ok(())
}

/// Writes a time or a date into a cell.
fn write_moment(cell: &mut String, kind: CellKind, number: i64) -> Result<(), CellFault>
    ensures { (names : List (List ℕ)) → OnOk result (Shows kind names number (string_bytes cell.new)) }
{
    match kind {
        CellKind::Time => write_time(cell, number),
        CellKind::Fine(unit) => write_fine(cell, number, unit),
        CellKind::Date(part) => write_date(cell, number, part),
        CellKind::Number(_) | CellKind::Name => Err(CellFault::Unread),
    }
}

/// Writes what a number is shown as into a cell.
///
/// # Errors
///
/// `Time`; `Name`; `Memory`.
pub fn write_cell(
    cell: &mut String,
    kind: CellKind,
    names: &[String],
    number: i128,
) -> Result<(), CellFault>
    ensures { OnOk result (Shows kind (map string_bytes names.now) number (string_bytes cell.new)) }
{
    match kind {
        CellKind::Number(places) => write_scaled(cell, number, places),
        CellKind::Name => write_name(cell, names, number),
        CellKind::Time | CellKind::Fine(_) | CellKind::Date(_) => {
            let Ok(number) = i64::try_from(number) else {
                return Err(CellFault::Time);
            };
            write_moment(cell, kind, number)
        }
    }
}

/// Puts what a number is shown as behind a line where that is a decimal of 64 bits, and tells whether it is.
///
/// # Errors
///
/// Only where memory runs out.
pub fn put_decimal(line: &mut Vec<u8>, kind: &CellKind, number: i128) -> Result<bool, AllocError>
    ensures { IfOk result (λ is_put. PutsDecimal is_put kind.now number line.old.items line.new.items) }
{
    let CellKind::Number(places) = kind else {
        return Ok(false);
    };
    let Ok(narrow) = i64::try_from(number) else {
        return Ok(false);
    };
    put_scaled(line, narrow, *places)?;
    Ok(true)
}
