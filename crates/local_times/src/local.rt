//! From a text to an instant, by the clocks of a zone.

ghost use Rattle.std.specs.Prelude.{◌≡◌, ◌^◌, ◌*ℤ◌, ◌-ℤ◌, pos};
ghost use Rattle.local_times.specs.Units.{digits_of};
ghost use Rattle.local_times.specs.Local.{IsLocal, IsTimeOf};

use crate::civil::{civil, shown_at};
use crate::clocks::{Clocks, Fold, chosen};
use crate::unit::TimeUnit;
use field_values::FieldFault;
use instant_texts::held;
use jiff_core::Offset;
use jiff_tz::TimeZone;

/// What a number of a unit is without an offset of so many seconds.
fn without(number: i64, offset: Offset, unit: TimeUnit) -> i128
    ensures { result ≡ number -ℤ offset.seconds *ℤ pos (10 ^ digits_of unit) }
{
    i128::from(number) - i128::from(offset.seconds) * i128::from(unit.of_second())
}

/// The instant at which clocks of a zone show a time that is counted as if they showed UTC.
fn instant_of(
    number: i64,
    unit: TimeUnit,
    zone: &TimeZone<'_>,
    fold: Option<Fold>,
) -> Result<i64, FieldFault>
    ensures { IsLocal zone.now fold unit number result }
{
    let Some(shown) = shown_at(unit.in_nanoseconds(number)) else {
        return Err(FieldFault::NoSuchTime);
    };
    match chosen(fold, zone.to_ambiguous_offset(shown)) {
        Some(offset) => held(without(number, offset, unit)),
        None => Err(FieldFault::NoSuchTime),
    }
}

/// The number of a unit that a text is, from 1970-01-01 00:00 UTC on: by the zone in the text or, where it has none, by
/// clocks.
///
/// # Errors
///
/// `NoTime`, then `TooFine`, then `NoSuchTime`, which also stands for a time that the clocks show twice or never where
/// it is not said which is meant, and for one in the last day of the year 9999 that has no zone; `TooLarge`.
pub fn time_of(text: &[u8], unit: TimeUnit, clocks: &Clocks<'_>) -> Result<i64, FieldFault>
    ensures { IsTimeOf clocks.now unit text.now result }
{
    let zoned = unit.read(text);
    let (Err(FieldFault::NoTime), Clocks::Local(zone, fold)) = (zoned, clocks) else {
        return zoned;
    };
    match civil(text, unit) {
        Ok(number) => instant_of(number, unit, zone, *fold),
        Err(fault) => Err(fault),
    }
}
