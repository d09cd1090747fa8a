//! Decimals.

ghost use Rattle.std.specs.Prelude.{◌≡◌, ◌≤◌, ◌<◌, ◌+◌, ◌^◌, ◌∷◌, ◌++◌, Ok, OnOk, true, drop, length, string_bytes};
ghost use Rattle.std.specs.Fmt.{decimal};
ghost use Rattle.std.specs.List.{list_all};
ghost use Rattle.field_values.specs.Decimals.{scaled_said};
ghost use Rattle.row_tables.specs.Cells.{IsShown};
ghost use Rattle.row_tables.specs.Decimals.{decimal_text, is_decimal_byte, size_text};

use crate::fault::CellFault;
use field_values::Places;
use itoa::write_digits;
use row_lines::push_decimal;
use std::alloc::AllocError;
use std::str;

/// The most digits behind a point that a number of 64 bits has.
const MOST_PLACES: usize = 20;

/// Room for the longest decimal of 64 bits: a hyphen, 20 digits, and as many places behind a point.
const ROOM: usize = 48;

/// Fills places with the last digits of a number, with zeros before them where it has fewer.
pub(crate) fn fill_digits(places: &mut [u8], number: u64) {
    let mut left = number;
    for place in places.iter_mut().rev() {
        *place = b'0' + (left % 10) as u8;
        left /= 10;
    }
}

/// Puts bytes of ASCII behind a text.
pub(crate) fn push_bytes(text: &mut String, bytes: &[u8]) -> Result<(), CellFault>
    ensures { OnOk result (string_bytes text.new ≡ string_bytes text.old ++ bytes.now) }
{
    let Ok(bytes) = str::from_utf8(bytes) else {
        return Err(CellFault::Unread);
    };
    text.push_str(bytes)?;
    Ok(())
}

/// Writes a point and as many digits as there are places behind it to the end of their room, and answers where they
/// start. Of no places there is no point.
fn put_places(line: &mut [u8; ROOM], number: u64, places: usize) -> usize
    ensures few { 48 ≤ result + 21 }
    ensures inside { result ≤ 48 }
{
    if places == 0 {
        return ROOM;
    }
    let start = ROOM - places.min(MOST_PLACES);
    fill_digits(&mut line[start..], number);
    line[start - 1] = b'.';
    start - 1
}

/// Writes a point and as many digits of a part as its power of ten has zeros to the end of their room, and answers
/// where the point stands. The power and the part have a 1 and these digits, so that the point goes where the 1 is.
fn fill_part(room: &mut [u8; ROOM], scale: u64, part: u64) -> usize
    requires part { part < scale }
    requires scale { scale ≤ 10 ^ 18 }
    ensures place { result + length (decimal (scale + part)) ≡ 48 }
    ensures text { drop result room.new ≡ 46 ∷ drop 1 (decimal (scale + part)) }
{
    let point = write_digits(scale + part, room, ROOM);
    room[point] = b'.';
    point
}

/// Writes a number that is scaled by ten to the power of the places to the end of its room, and answers where it
/// starts.
fn fill_size(room: &mut [u8; ROOM], size: u64, places: u32) -> usize
    requires size { size ≤ 2 ^ 63 }
    requires places { places ≤ 18 }
    ensures some { 1 ≤ result }
    ensures inside { result ≤ 48 }
    ensures text { drop result room.new ≡ size_text places size }
{
    if places == 0 {
        return write_digits(size, room, ROOM);
    }
    let scale = 10u64.pow(places);
    let point = fill_part(room, scale, size % scale);
    write_digits(size / scale, room, point)
}

/// Writes a decimal to the end of its room, and answers where it starts.
fn fill_scaled(room: &mut [u8; ROOM], number: i64, places: Places) -> usize
    ensures inside { result ≤ 48 }
    ensures text { drop result room.new ≡ decimal_text places number }
{
    let start = fill_size(room, number.unsigned_abs(), places.get());
    if number >= 0 {
        return start;
    }
    room[start - 1] = b'-';
    start - 1
}

/// Puts a decimal behind a line: a number of 64 bits that is scaled by ten to the power of the places, which reads as
/// the number.
///
/// # Errors
///
/// Only where memory runs out.
pub(crate) fn put_scaled(line: &mut Vec<u8>, number: i64, places: Places) -> Result<(), AllocError>
    ensures text { OnOk result (line.new.items ≡ line.old.items ++ decimal_text places number) }
    ensures said { scaled_said places (decimal_text places number) ≡ Ok number }
    ensures plain { list_all is_decimal_byte (decimal_text places number) ≡ true }
{
    let mut room = [b'0'; ROOM];
    let start = fill_scaled(&mut room, number, places);
    line.extend_from_slice(&room[start..])
}

/// Writes a decimal of 64 bits into a cell, which reads as the number.
fn write_narrow(cell: &mut String, number: i64, places: Places) -> Result<(), CellFault>
    ensures { OnOk result (scaled_said places (string_bytes cell.new) ≡ Ok number) }
{
    let mut room = [b'0'; ROOM];
    let start = fill_scaled(&mut room, number, places);
    cell.clear();
    push_bytes(cell, &room[start..])?;
    Ok(())
}

/// Puts a decimal of more than 64 bits behind a text: a number that is scaled by ten to the power of the places.
fn push_wide(text: &mut String, number: i128, places: u32) -> Result<(), CellFault> {
    let size = number.unsigned_abs();
    if number < 0 {
        text.push_str("-")?;
    }
    if places == 0 {
        push_decimal(text, size)?;
        return Ok(());
    }
    let scale = u128::from(10u64.checked_pow(places).unwrap_or(u64::MAX).max(1));
    push_decimal(text, size / scale)?;
    let mut line = [b'0'; ROOM];
    let start = put_places(&mut line, (size % scale) as u64, places as usize);
    push_bytes(text, &line[start..])
}

/// Writes a decimal into a cell: a number that is scaled by ten to the power of the places. One of 64 bits reads as the
/// number.
///
/// # Errors
///
/// `Memory`; `Unread` for no number.
pub(crate) fn write_scaled(cell: &mut String, number: i128, places: Places) -> Result<(), CellFault>
    ensures { OnOk result (IsShown places number (string_bytes cell.new)) }
{
    let Ok(narrow) = i64::try_from(number) else {
        cell.clear();
        return push_wide(cell, number, places.get());
    };
    write_narrow(cell, narrow, places)
}
