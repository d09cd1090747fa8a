//! From a text to the whole number.

ghost use Rattle.std.specs.Prelude.{◌≡◌, ◌++◌, ◌-◌, ℕ, IsTrue, length, take, drop};
ghost use Rattle.std.specs.Char.{is_ascii_digit};
ghost use Rattle.std.specs.List.{list_all};
ghost use Rattle.std.specs.Str.Parse.{digits_value};
ghost use Rattle.field_values.specs.Decimals.{signed};
ghost use Rattle.decimal_texts.specs.Exact.{exact_quotient, held, scientific_said, scientific_in, exact_said};

use crate::digits::{are_both_zeros, raised_number};
use crate::exponent::mark_of;
use crate::scientific::scientific_of;
use field_values::{FieldFault, Places, scaled};

/// The digits before the last so many, and those last ones.
fn cut_off(digits: &[u8], cut: usize) -> (&[u8], &[u8])
    ensures front { result.0.now ≡ take (length digits.now - cut) digits.now }
    ensures back { result.1.now ≡ drop (length digits.now - cut) digits.now }
{
    digits.split_at(digits.len().saturating_sub(cut))
}

/// The number that all digits write, times ten to the power of `up` and divided by ten to that of `down`.
fn magnitude(whole: &[u8], decimals: &[u8], up: usize, down: usize) -> Result<u64, FieldFault>
    requires whole { IsTrue (list_all is_ascii_digit whole.now) }
    requires decimals { IsTrue (list_all is_ascii_digit decimals.now) }
    ensures { result ≡ held (exact_quotient (digits_value 10 (whole.now ++ decimals.now)) up down) }
{
    let cut = down.saturating_sub(up);
    let (front, front_rest) = cut_off(whole, cut.saturating_sub(decimals.len()));
    let (back, back_rest) = cut_off(decimals, cut);
    if !are_both_zeros(front_rest, back_rest) {
        return Err(FieldFault::MorePlaces);
    }
    let places = up.saturating_sub(down);
    raised_number(front, back, places).ok_or(FieldFault::TooLarge)
}

/// The number with this sign and magnitude, where 64 bits hold it.
pub(crate) fn signed(is_negative: bool, magnitude: u64) -> Option<i64>
    ensures { result ≡ signed is_negative magnitude }
{
    if is_negative {
        return 0i64.checked_sub_unsigned(magnitude);
    }
    0i64.checked_add_unsigned(magnitude)
}

/// What a decimal and an exponent say.
#[tactic(auto, unfolding(crate::specs::Exact::scientific_said, crate::specs::Exact::shifted))]
fn scientific(decimal: &[u8], exponent: &[u8], places: Places) -> Result<i64, FieldFault>
    ensures { result ≡ scientific_said places decimal.now exponent.now }
{
    let parts = scientific_of(decimal, exponent).ok_or(FieldFault::NoNumber)?;
    let up = places.get() as usize + usize::from(parts.exponent.raised);
    let down = parts.decimals.len() + usize::from(parts.exponent.lowered);
    let size = magnitude(parts.whole, parts.decimals, up, down)?;
    signed(parts.is_negative, size).ok_or(FieldFault::TooLarge)
}

/// What a decimal and an exponent in one text say.
#[tactic(auto, unfolding(crate::specs::Exponents::mantissa, crate::specs::Exponents::exponent_text))]
fn scientific_in(text: &[u8], places: Places) -> Result<i64, FieldFault>
    ensures { result ≡ scientific_in places text.now }
{
    let mark = mark_of(text);
    if mark == text.len() {
        return Err(FieldFault::NoNumber);
    }
    scientific(&text[..mark], &text[mark + 1..], places)
}

/// The decimal times ten to the power of the places, as [`scaled`] has it, and the same of a decimal with an exponent:
/// `1e-05` at 5 places is 1, `2.5E3` at none is 2500. An exponent is `e` or `E`, a sign or none, and 1 to 4 digits.
/// With one the number that is said counts, and not how many decimal places are written: `1.0E-5` is as fine as `1e-5`.
///
/// # Errors
///
/// `NoNumber`; `MorePlaces` where the number is finer than the places; `TooLarge`.
#[tactic(auto, unfolding(crate::specs::Exact::exact_said))]
pub fn exact(text: &[u8], places: Places) -> Result<i64, FieldFault>
    ensures { result ≡ exact_said places text.now }
{
    match scaled(text, places) {
        Err(FieldFault::NoNumber) => scientific_in(text, places),
        answer => answer,
    }
}
