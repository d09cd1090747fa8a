//! Times in ISO 8601.

ghost use Rattle.std.specs.Prelude.{◌≡◌, ◌≤◌, Ok, IsTrue, OnOk, length, string_bytes};
ghost use Rattle.field_values.specs.Instants.{milliseconds_said};
ghost use Rattle.instant_texts.specs.Instants.{instant_said, unit_digits};

use crate::decimal::{fill_digits, push_bytes};
use crate::fault::CellFault;
use field_values::milliseconds;
use instant_texts::{FineUnit, instant};
use jiff_core::civil::Date;

/// The seconds of a day.
const DAY: i64 = 86_400;

/// A time before its digits are put in, with as many of a second as there can be.
const BLANK: [u8; 30] = *b"0000-00-00T00:00:00.000000000Z";

/// Where the digits behind the point of a second begin in a time.
const PARTS: usize = 20;

/// The most of them.
const MOST_DIGITS: usize = 9;

/// Whole seconds, and the parts of a second that are left, of which a second has ten to the power of the digits.
fn seconds_of(number: i64, digits: usize) -> (i64, i64) {
    match digits {
        3 => (number.div_euclid(1_000), number.rem_euclid(1_000)),
        6 => (number.div_euclid(1_000_000), number.rem_euclid(1_000_000)),
        _ => (
            number.div_euclid(1_000_000_000),
            number.rem_euclid(1_000_000_000),
        ),
    }
}

/// Fills the places of a day, as `2026-03-01`, with its digits.
pub(crate) fn fill_day(time: &mut [u8], date: Date)
    requires { 10 ≤ length time.old }
{
    fill_digits(&mut time[..4], u64::from(date.year.unsigned_abs()));
    fill_digits(&mut time[5..7], u64::from(date.month));
    fill_digits(&mut time[8..10], u64::from(date.day));
}

/// Fills the places of a second of a day behind it, as `12:00:00`, with its digits.
fn fill_clock(time: &mut [u8], second: u64)
    requires { 19 ≤ length time.old }
{
    fill_digits(&mut time[11..13], second / 3600);
    fill_digits(&mut time[14..16], second / 60 % 60);
    fill_digits(&mut time[17..19], second % 60);
}

/// Fills the digits behind the point of a second, and puts the time behind a text, up to the last of them.
fn push_filled(
    text: &mut String,
    time: &mut [u8],
    digits: usize,
    part: u64,
) -> Result<(), CellFault>
    requires { length time.old ≡ 30 }
{
    let end = PARTS + digits.min(MOST_DIGITS);
    fill_digits(&mut time[PARTS..end], part);
    push_bytes(text, &time[..end])?;
    text.push_str("Z")?;
    Ok(())
}

/// Puts the time behind a text that is so many parts of a second behind the beginning of a second of a day.
fn push_moment(
    text: &mut String,
    time: &mut [u8],
    date: Date,
    second: u64,
    digits: usize,
    part: u64,
) -> Result<(), CellFault>
    requires { length time.old ≡ 30 }
{
    fill_day(time, date);
    fill_clock(time, second);
    push_filled(text, time, digits, part)
}

/// Puts the time behind a text that is so many parts of a second after 1970, of which a second has ten to the power of
/// the digits.
fn push_time(text: &mut String, number: i64, digits: usize) -> Result<(), CellFault> {
    let (seconds, part) = seconds_of(number, digits);
    let Ok(date) = Date::from_unix_epoch_day(seconds.div_euclid(DAY)) else {
        return Err(CellFault::Time);
    };
    let second = seconds.rem_euclid(DAY).unsigned_abs();
    let mut time = BLANK;
    push_moment(text, &mut time, date, second, digits, part.unsigned_abs())
}

/// Whether a text reads as a number of milliseconds since 1970.
pub(crate) fn reads_as(text: &str, number: i64) -> bool
    ensures { IsTrue result → milliseconds_said text.now ≡ Ok number }
{
    match milliseconds(text.as_bytes()) {
        Ok(read) => read == number,
        Err(_) => false,
    }
}

/// Whether a text reads as a number of a finer unit since 1970.
fn reads_finely(text: &str, number: i64, unit: FineUnit) -> bool
    ensures { IsTrue result → instant_said (unit_digits unit) text.now ≡ Ok number }
{
    match instant(text.as_bytes(), unit) {
        Ok(read) => read == number,
        Err(_) => false,
    }
}

/// Writes a time into a cell: a number of milliseconds since 1970, as the time in ISO 8601 that reads as it.
///
/// # Errors
///
/// `Time` where it is in no year from 1 to 9999; `Memory`.
pub(crate) fn write_time(cell: &mut String, number: i64) -> Result<(), CellFault>
    ensures { OnOk result (milliseconds_said (string_bytes cell.new) ≡ Ok number) }
{
    cell.clear();
    push_time(cell, number, 3)?;
    if reads_as(cell.as_str(), number) {
        Ok(())
    } else {
        Err(CellFault::Time)
    }
}

/// Writes a time into a cell: a number of a finer unit since 1970, as the time in ISO 8601 that reads as it.
///
/// # Errors
///
/// `Time` where it is in no year from 1 to 9999; `Memory`.
pub(crate) fn write_fine(cell: &mut String, number: i64, unit: FineUnit) -> Result<(), CellFault>
    ensures { OnOk result (instant_said (unit_digits unit) (string_bytes cell.new) ≡ Ok number) }
{
    cell.clear();
    push_time(cell, number, unit.digits())?;
    if reads_finely(cell.as_str(), number, unit) {
        Ok(())
    } else {
        Err(CellFault::Time)
    }
}
