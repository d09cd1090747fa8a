//! Whether there is a time, and how many seconds there are from 1970 to it.

ghost use Rattle.std.specs.Prelude.{◌≡◌, ◌<◌, ◌+ℤ◌, ◌-ℤ◌, ◌*ℤ◌, IsTrue, IfSome, MatchOption, true, false, pos};
ghost use Rattle.jiff_core.specs.Calendar.{IsEpochDay, IsWithin, days_from_civil};
ghost use Rattle.field_values.specs.Instants.{is_day, is_shown, is_near, second_of_day, seconds_ahead, is_moment, second_of};

use crate::clock::Clock;
use crate::zone::Zone;
use jiff_core::civil::Date;

/// The days from 1970-01-01 to a day, or `None` where the calendar has none: its first year is the year 1.
#[tactic(auto, unfolding(crate::specs::Instants::is_day))]
fn day_number(clock: Clock) -> Option<i32>
    ensures says { MatchOption result (is_day clock ≡ false) (λ day. (is_day clock ≡ true) × (day ≡ days_from_civil (pos clock.year) clock.month clock.day)) }
    ensures bound { IfSome result IsEpochDay }
{
    if clock.year < 1 || clock.year > 9999 || clock.month > 12 || clock.day > 31 {
        return None;
    }
    let date = Date::new(clock.year as i16, clock.month as i8, clock.day as i8).ok()?;
    Some(date.to_unix_epoch_day())
}

#[tactic(auto, unfolding(crate::specs::Instants::is_shown))]
fn is_shown(clock: Clock) -> bool
    ensures { result ≡ is_shown clock }
{
    clock.hour < 24 && clock.minute < 60 && clock.second < 60
}

#[tactic(auto, unfolding(crate::specs::Instants::is_near))]
fn is_near(zone: Zone) -> bool
    ensures { result ≡ is_near zone }
{
    zone.hours < 24 && zone.minutes < 60
}

/// The seconds since midnight.
#[tactic(auto, unfolding(crate::specs::Instants::is_shown, crate::specs::Instants::second_of_day))]
fn second_of_day(clock: Clock) -> u32
    requires { IsTrue (is_shown clock) }
    ensures value { result ≡ second_of_day clock }
    ensures bound { result < 86400 }
{
    let minutes = u32::from(clock.hour) * 60 + u32::from(clock.minute);
    minutes * 60 + u32::from(clock.second)
}

/// The seconds that the zone's clocks are ahead of UTC.
#[tactic(auto, unfolding(crate::specs::Instants::is_near, crate::specs::Instants::seconds_ahead))]
fn seconds_ahead(zone: Zone) -> i32
    requires { IsTrue (is_near zone) }
    ensures value { result ≡ seconds_ahead zone }
    ensures bound { IsWithin 86400 result }
{
    let minutes = zone.hours * 60 + zone.minutes;
    let seconds = i32::from(minutes) * 60;
    if zone.is_behind { -seconds } else { seconds }
}

/// The seconds from 1970-01-01 00:00 UTC to a second of a day, on clocks that are so many seconds ahead of UTC.
fn seconds_to(day: i32, second: u32, ahead: i32) -> i64
    requires day { IsEpochDay day }
    requires second { second < 86400 }
    requires ahead { IsWithin 86400 ahead }
    ensures value { result ≡ (day *ℤ pos 86400 +ℤ pos second) -ℤ ahead }
    ensures bound { IsWithin 1000000000000 result }
{
    i64::from(day) * 86_400 + i64::from(second) - i64::from(ahead)
}

/// The seconds from 1970-01-01 00:00 UTC to what the zone's clocks show, or `None` where there is no such time.
#[tactic(auto, unfolding(crate::specs::Instants::is_moment, crate::specs::Instants::second_of))]
pub(crate) fn second_of(clock: Clock, zone: Zone) -> Option<i64>
    ensures says { MatchOption result (is_moment clock zone ≡ false) (λ second. (is_moment clock zone ≡ true) × (second ≡ second_of clock zone)) }
    ensures bound { IfSome result (IsWithin 1000000000000) }
{
    let day = day_number(clock)?;
    if !is_shown(clock) || !is_near(zone) {
        return None;
    }
    Some(seconds_to(day, second_of_day(clock), seconds_ahead(zone)))
}
