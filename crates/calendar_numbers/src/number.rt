//! From an instant to a number of the calendar.

ghost use Rattle.std.specs.Prelude.{◌≡◌, ◌*ℤ◌, pos, MatchOption};
ghost use Rattle.calendar_numbers.specs.Calendars.{nanos_of, IsCalendarNumber};
ghost use Rattle.jiff_core.specs.Timestamp.{IsTimestampNanos};

use crate::part::CalendarPart;
use jiff_core::Timestamp;
use jiff_tz::TimeZone;

/// The instant so many milliseconds after 1970-01-01 00:00 UTC, if there is one: all but the years before -9999 and the
/// last days of 9999, so that it has a civil date in each zone.
fn timestamp_of(milliseconds: i64) -> Option<Timestamp>
    ensures { MatchOption result (¬ IsTimestampNanos (nanos_of milliseconds)) (λ t. t.nanosecond ≡ nanos_of milliseconds) }
{
    match Timestamp::from_nanosecond(i128::from(milliseconds) * 1_000_000) {
        Ok(timestamp) => Some(timestamp),
        Err(_) => None,
    }
}

/// The number that a part of the calendar is at an instant in a zone, by the date and the time of day that clocks there
/// show. `None` for an instant in the last day of the year 9999 or later, or before the year -9999.
pub fn calendar_number(part: CalendarPart, zone: &TimeZone<'_>, milliseconds: i64) -> Option<i64>
    ensures { MatchOption result (¬ IsTimestampNanos (nanos_of milliseconds)) (IsCalendarNumber part zone.now milliseconds) }
{
    let timestamp = timestamp_of(milliseconds)?;
    Some(part.number(zone.to_datetime(timestamp)))
}
