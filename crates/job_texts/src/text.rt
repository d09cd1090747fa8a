//! The text of rows.

ghost use Rattle.std.specs.Prelude.{◌≡◌, ◌≤◌, ◌++◌, length, OnOk, IfOk, string_bytes};
ghost use Rattle.plan_model.specs.declared.limits.TheConstants.{MOST_AGGREGATES};
ghost use Rattle.job_texts.specs.Front.{IsFront};
ghost use Rattle.job_texts.specs.Text.{line_of, text_of_rows};

use crate::narrow::{Front, ROOM, put_line};
use plan_model::Row;
use row_lines::push_line;
use std::alloc::{AllocError, Global};
use std::str::from_utf8_unchecked;

/// The line of a row whose numbers have 64 bits, by the room for such a line.
fn write_narrow(
    text: &mut String,
    line: &mut [u8; ROOM],
    front: &mut Front,
    row: &Row,
    numbers: &[i64],
) -> Result<(), AllocError>
    requires front { IsFront front.old }
    requires same { numbers.now ≡ row.now.values }
    requires few { length numbers.now ≤ MOST_AGGREGATES }
    ensures front { IsFront front.new }
    ensures written { OnOk result (string_bytes text.new ≡ string_bytes text.old ++ line_of row.now) }
{
    let start = put_line(line, front, row, numbers);
    text.push_str(unsafe { from_utf8_unchecked(&line[start..]) })
}

fn write_row(
    text: &mut String,
    line: &mut [u8; ROOM],
    front: &mut Front,
    row: &Row,
) -> Result<(), AllocError>
    requires front { IsFront front.old }
    ensures front { IsFront front.new }
    ensures written { OnOk result (string_bytes text.new ≡ string_bytes text.old ++ line_of row.now) }
{
    match row.values.narrow() {
        Some(numbers) => write_narrow(text, line, front, row, numbers),
        None => push_line(text, row),
    }
}

/// The text of rows: a line each, in order.
pub fn text_of_rows(alloc: Global, rows: &[Row]) -> Result<String, AllocError>
    ensures { IfOk result (λ text. string_bytes text ≡ text_of_rows rows.now) }
{
    let mut text = String::new(alloc);
    let mut line = [0; ROOM];
    let mut front = Front::new(0, 0);
    for row in rows {
        write_row(&mut text, &mut line, &mut front, row)?;
    }
    Ok(text)
}
