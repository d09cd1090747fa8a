//! Days, months and years in ISO 8601.

ghost use Rattle.std.specs.Prelude.{◌≡◌, ◌≤◌, OnOk, length, string_bytes};
ghost use Rattle.calendar_numbers.specs.Calendars.{month_number};
ghost use Rattle.row_tables.specs.Dates.{IsDate, date_number, date_milliseconds, first_moment};

use crate::decimal::push_bytes;
use crate::fault::CellFault;
use crate::kind::DatePart;
use crate::time::{fill_day, reads_as};
use jiff_core::civil::Date;

/// The first day of a month, if it is in the calendar.
fn first_day(year: i64, month: i64) -> Option<Date> {
    let year = i16::try_from(year).ok()?;
    let month = i8::try_from(month).ok()?;
    Date::new(year, month, 1).ok()
}

/// The day, or the first day of the month or the year, if it is in the calendar.
fn date_of(part: DatePart, number: i64) -> Option<Date> {
    match part {
        DatePart::Day => Date::from_unix_epoch_day(number).ok(),
        DatePart::Month => first_day(
            number.div_euclid(12).checked_add(1970)?,
            number.rem_euclid(12).checked_add(1)?,
        ),
        DatePart::Year => first_day(number.checked_add(1970)?, 1),
    }
}

/// The months since January 1970.
fn month_number(date: Date) -> i64
    ensures { result ≡ month_number date }
{
    (i64::from(date.year) - 1970) * 12 + i64::from(date.month) - 1
}

/// The number that a part of the calendar is on a day.
fn number_of(part: DatePart, date: Date) -> i64
    ensures { result ≡ date_number part date }
{
    match part {
        DatePart::Day => i64::from(date.to_unix_epoch_day()),
        DatePart::Month => month_number(date),
        DatePart::Year => i64::from(date.year) - 1970,
    }
}

/// The milliseconds from 1970 to the beginning of a day in UTC.
fn milliseconds_of(date: Date) -> i64
    ensures { result ≡ date_milliseconds date }
{
    i64::from(date.to_unix_epoch_day()) * 86_400_000
}

/// How many places of a day its text has, or that of its month or year alone.
fn places_of(part: DatePart) -> usize
    ensures { result ≤ 10 }
{
    match part {
        DatePart::Day => 10,
        DatePart::Month => 7,
        DatePart::Year => 4,
    }
}

/// Puts the first places of a day behind a text.
fn push_places(
    text: &mut String,
    day: &mut [u8],
    date: Date,
    places: usize,
) -> Result<(), CellFault>
    requires day { length day.old ≡ 10 }
    requires places { places ≤ 10 }
{
    fill_day(day, date);
    push_bytes(text, &day[..places])
}

/// Puts a day behind a text, or its month or year alone.
fn push_part(text: &mut String, part: DatePart, date: Date) -> Result<(), CellFault> {
    let mut day = *b"0000-00-00";
    push_places(text, &mut day, date, places_of(part))
}

/// What has to stand behind a day, a month or a year for its first moment in UTC.
fn moment_of(part: DatePart) -> &'static str
    ensures { result.now ≡ first_moment part }
{
    match part {
        DatePart::Day => "T00:00:00Z",
        DatePart::Month => "-01T00:00:00Z",
        DatePart::Year => "-01-01T00:00:00Z",
    }
}

/// Writes a day, a month or a year into a cell: a number that counts them from 1970 on, as the one in ISO 8601 whose
/// first moment in UTC reads as a time of the day of this number.
///
/// # Errors
///
/// `Time` where it is in no year from 1 to 9999; `Memory`.
pub(crate) fn write_date(cell: &mut String, number: i64, part: DatePart) -> Result<(), CellFault>
    ensures { OnOk result (IsDate part number (string_bytes cell.new)) }
{
    cell.clear();
    let Some(date) = date_of(part, number) else {
        return Err(CellFault::Time);
    };
    push_part(cell, part, date)?;
    let end = cell.len();
    cell.push_str(moment_of(part))?;
    if number_of(part, date) != number || !reads_as(cell.as_str(), milliseconds_of(date)) {
        return Err(CellFault::Time);
    }
    if !cell.is_char_boundary(end) {
        return Err(CellFault::Unread);
    }
    cell.truncate(end);
    Ok(())
}
