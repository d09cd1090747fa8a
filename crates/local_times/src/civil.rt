//! A time as clocks show it, with no zone.

ghost use Rattle.std.specs.Prelude.{◌≡◌, MatchOption};
ghost use Rattle.jiff_core.specs.DateTime.{civil_nanos};
ghost use Rattle.jiff_core.specs.Timestamp.{IsTimestampNanos};
ghost use Rattle.local_times.specs.Units.{civil_said};

use crate::unit::TimeUnit;
use arrayvec::ArrayVec;
use field_values::FieldFault;
use jiff_core::Timestamp;
use jiff_core::civil::DateTime;
use jiff_tz::TimeZone;

/// The number that a text without a zone is in a unit, counted as if clocks showed UTC. A text of more than 63 bytes is
/// none.
///
/// # Errors
///
/// Those of a text with a zone.
pub(crate) fn civil(text: &[u8], unit: TimeUnit) -> Result<i64, FieldFault>
    ensures { result ≡ civil_said unit text.now }
{
    let mut zoned = ArrayVec::<u8, 64>::new();
    if zoned.try_extend_from_slice(text).is_err() || zoned.try_push(b'Z').is_err() {
        return Err(FieldFault::NoTime);
    }
    unit.read(zoned.as_slice())
}

/// The date and the time of day that clocks of UTC show so many nanoseconds after 1970, if that is no year before -9999
/// and not in the last day of the year 9999.
pub(crate) fn shown_at(nanoseconds: i128) -> Option<DateTime>
    ensures { MatchOption result (¬ IsTimestampNanos nanoseconds) (λ shown. civil_nanos shown ≡ nanoseconds) }
{
    match Timestamp::from_nanosecond(nanoseconds) {
        Ok(timestamp) => Some(TimeZone::UTC.to_datetime(timestamp)),
        Err(_) => None,
    }
}
