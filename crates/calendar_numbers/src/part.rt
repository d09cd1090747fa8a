//! What is counted of a date and a time of day.

ghost use Rattle.std.specs.Prelude.{◌≡◌, ◌-ℤ◌, ◌*ℤ◌, ◌+ℤ◌, pos};
ghost use Rattle.calendar_numbers.specs.Calendars.{part_number, month_number};

use jiff_core::civil::{Date, DateTime};

/// What is counted of a date and a time of day.
#[derive(Clone, Copy, Debug, PartialEq, Eq)]
pub enum CalendarPart {
    /// The days since 1970-01-01.
    Day,
    /// The months since January 1970.
    Month,
    /// The years since 1970.
    Year,
    /// The hour, 0 to 23.
    Hour,
    /// The day of the week, 1 for Monday to 7 for Sunday.
    Weekday,
}

/// The months since January 1970.
fn month_number(date: Date) -> i64
    ensures { result ≡ month_number date }
{
    (i64::from(date.year) - 1970) * 12 + i64::from(date.month) - 1
}

impl CalendarPart {
    /// The number that it is of a date and a time of day.
    pub(crate) fn number(self, shown: DateTime) -> i64
        ensures { result ≡ part_number self shown }
    {
        match self {
            CalendarPart::Day => i64::from(shown.date.to_unix_epoch_day()),
            CalendarPart::Month => month_number(shown.date),
            CalendarPart::Year => i64::from(shown.date.year) - 1970,
            CalendarPart::Hour => i64::from(shown.time.hour),
            CalendarPart::Weekday => i64::from(shown.date.weekday().index()) + 1,
        }
    }
}
