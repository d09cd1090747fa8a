//! Times with a zone, counted in a unit.

ghost use Rattle.std.specs.Prelude.{◌≡◌, ◌≤◌, ◌<◌, ◌-◌, ◌^◌, ◌+ℤ◌, ◌*ℤ◌, pos, IsTrue, length};
ghost use Rattle.std.specs.Char.{is_ascii_digit};
ghost use Rattle.std.specs.List.{list_all};
ghost use Rattle.instant_texts.specs.Instants.{unit_digits, is_coarse, fraction_units, held, instant_from, instant_said};

use crate::parts::parts_of;
use crate::seconds::whole_second;
use crate::unit::FineUnit;
use decimal_texts::raised_digits;
use field_values::FieldFault;

/// Whether all digits behind the first so many are 0.
#[tactic(auto, unfolding(crate::specs::Instants::is_coarse))]
fn is_coarse(digits: &[u8], count: usize) -> bool
    ensures { result ≡ is_coarse count digits.now }
{
    digits.iter().skip(count).all(|b| *b == b'0')
}

/// The fraction of a second that the first so many digits behind the point write.
#[tactic(auto, unfolding(crate::specs::Instants::fraction_units))]
fn fraction_units(digits: &[u8], count: usize) -> u64
    requires digits { IsTrue (list_all is_ascii_digit digits.now) }
    requires few { count ≤ 9 }
    ensures value { result ≡ fraction_units count digits.now }
    ensures bound { result < 2 ^ 30 }
{
    let kept = &digits[..digits.len().min(count)];
    raised_digits(kept, count - kept.len()).unwrap_or(0)
}

/// A number, if 64 bits hold it.
///
/// # Errors
///
/// `TooLarge`.
pub fn held(number: i128) -> Result<i64, FieldFault>
    ensures { result ≡ held number }
{
    if number < i128::from(i64::MIN) || number > i128::from(i64::MAX) {
        return Err(FieldFault::TooLarge);
    }
    Ok(number as i64)
}

/// So many thousandths of a second in a unit of which a millisecond has so many, and some more.
fn units_with(thousandths: i64, of_millisecond: u32, more: u64) -> i128
    ensures { result ≡ thousandths *ℤ pos of_millisecond +ℤ pos more }
{
    i128::from(thousandths) * i128::from(of_millisecond) + i128::from(more)
}

/// The units of so many thousandths of a second and a fraction.
fn counted(thousandths: i64, fraction: &[u8], unit: FineUnit) -> Result<i64, FieldFault>
    requires { IsTrue (list_all is_ascii_digit fraction.now) }
    ensures { result ≡ held (thousandths *ℤ pos (10 ^ (unit_digits unit - 3)) +ℤ pos (fraction_units (unit_digits unit) fraction.now)) }
{
    let units = fraction_units(fraction, unit.digits());
    held(units_with(thousandths, unit.of_millisecond(), units))
}

/// The units of a second and its fraction.
#[tactic(auto, unfolding(crate::specs::Instants::instant_from))]
fn instant_from(
    whole: Result<i64, FieldFault>,
    fraction: &[u8],
    unit: FineUnit,
) -> Result<i64, FieldFault>
    requires { IsTrue (list_all is_ascii_digit fraction.now) }
    ensures { result ≡ instant_from (unit_digits unit) fraction.now whole }
{
    match whole {
        Err(FieldFault::NoTime) => Err(FieldFault::NoTime),
        _ if !is_coarse(fraction, unit.digits()) => Err(FieldFault::TooFine),
        Err(fault) => Err(fault),
        Ok(thousandths) => counted(thousandths, fraction, unit),
    }
}

/// The time since 1970-01-01 00:00 UTC in a unit, as [`field_values::milliseconds`] has it in milliseconds: of the
/// digits behind the point those are 0 that are finer than the unit.
///
/// # Errors
///
/// `NoTime`, then `TooFine`, then `NoSuchTime`; `TooLarge` where 64 bits do not hold it, as nanoseconds before 1677 and
/// after 2262.
pub fn instant(text: &[u8], unit: FineUnit) -> Result<i64, FieldFault>
    ensures { result ≡ instant_said (unit_digits unit) text.now }
{
    let Some(parts) = parts_of(text) else {
        return Err(FieldFault::NoTime);
    };
    let whole = whole_second(parts.clock, parts.zone);
    instant_from(whole, parts.fraction, unit)
}
