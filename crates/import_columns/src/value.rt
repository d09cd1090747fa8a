//! From the text of a field to a number.

ghost use Rattle.std.specs.Prelude.{◌≡◌};
ghost use Rattle.decimal_texts.specs.Exact.{exact_said};
ghost use Rattle.import_columns.specs.Values.{compared_value, IsPart, IsPartOf, IsComparedPart, IsValueOf, IsNumberOf, has_point};

use crate::kind::ValueKind;
use asked_fields::Joint;
use calendar_numbers::{CalendarPart, calendar_number};
use decimal_texts::{exact, exact_product};
use field_values::{FieldFault, Places};
use jiff_tz::TimeZone;
use lane_kernels::Cmp;
use local_times::{Clocks, TimeUnit, time_of};

/// 1 where a number compares so with the bound, else 0.
fn compared(cmp: Cmp, bound: i64, number: Result<i64, FieldFault>) -> Result<i64, FieldFault>
    ensures { result ≡ compared_value cmp bound number }
{
    let number = number?;
    Ok(i64::from(cmp.holds(i128::from(number), i128::from(bound))))
}

/// The number of the calendar at an instant.
fn part_of(part: CalendarPart, zone: &TimeZone<'_>, milliseconds: i64) -> Result<i64, FieldFault>
    ensures { IsPart part zone.now milliseconds result }
{
    match calendar_number(part, zone, milliseconds) {
        Some(number) => Ok(number),
        None => Err(FieldFault::NoSuchTime),
    }
}

/// The number of the calendar at the instant that a text says.
fn part_at(
    part: CalendarPart,
    zone: &TimeZone<'_>,
    clocks: &Clocks<'_>,
    text: &[u8],
) -> Result<i64, FieldFault>
    ensures { IsPartOf part zone.now clocks.now text.now result }
{
    match time_of(text, TimeUnit::Milliseconds, clocks) {
        Ok(instant) => part_of(part, zone, instant),
        Err(fault) => Err(fault),
    }
}

/// 1 where the number of the calendar compares so with the bound, else 0.
fn compared_part(
    part: CalendarPart,
    zone: &TimeZone<'_>,
    clocks: &Clocks<'_>,
    cmp: Cmp,
    bound: i64,
    text: &[u8],
) -> Result<i64, FieldFault>
    ensures { IsComparedPart part zone.now clocks.now cmp bound text.now result }
{
    let number = part_at(part, zone, clocks, text);
    compared(cmp, bound, number)
}

/// The number that the text of a field is.
///
/// # Errors
///
/// Those of [`exact`] and [`time_of`]; `NoSuchTime` also for an instant that has no civil date in each zone, which are
/// those in the last day of the year 9999.
fn value_of(kind: &ValueKind<'_>, text: &[u8]) -> Result<i64, FieldFault>
    ensures { IsValueOf kind.now text.now result }
{
    match kind {
        ValueKind::Scaled(places) => exact(text, *places),
        ValueKind::Time(unit, clocks) => time_of(text, *unit, clocks),
        ValueKind::Calendar(part, zone, clocks) => part_at(*part, zone, clocks, text),
        ValueKind::Compared(cmp, bound) => compared(*cmp, *bound, exact(text, Places::WHOLE)),
        ValueKind::CalendarCompared(part, zone, clocks, cmp, bound) => {
            compared_part(*part, zone, clocks, *cmp, *bound, text)
        }
        ValueKind::Same(wanted) => Ok(i64::from(text == wanted.as_bytes())),
        ValueKind::Other(wanted) => Ok(i64::from(text != wanted.as_bytes())),
    }
}

/// The number that the text of a column is, which may be a product where an asterisk stands in the name of the column.
///
/// # Errors
///
/// Those of [`exact_product`] and of [`value_of`].
pub fn number_of(joint: Option<Joint>, kind: &ValueKind<'_>, text: &[u8]) -> Result<i64, FieldFault>
    ensures { IsNumberOf joint kind.now text.now result }
{
    match (joint, kind) {
        (Some(Joint::Times), ValueKind::Scaled(places)) => exact_product(text, *places),
        _ => value_of(kind, text),
    }
}

/// Whether the text of a field is a decimal, which has a point or what stands for one.
pub fn has_point(kind: &ValueKind<'_>) -> bool
    ensures { result ≡ has_point kind.now }
{
    matches!(kind, ValueKind::Scaled(_) | ValueKind::Compared(_, _))
}
