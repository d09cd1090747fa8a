//! Decimals, scaled to whole numbers.

ghost use Rattle.std.specs.Prelude.{◌≡◌, ◌≤◌, ◌<◌, ◌^◌, IsTrue, IfSome, SomeIff, MatchOption, true, false, length};
ghost use Rattle.std.specs.Char.{is_ascii_digit};
ghost use Rattle.std.specs.Str.Parse.{starts_with_minus};
ghost use Rattle.std.specs.List.{list_all, position_or_len};
ghost use Rattle.field_values.specs.Decimals.{is_point, without_minus, whole_digits, decimal_digits, is_decimal, magnitude, signed, scaled_said};

use crate::digits::{are_digits, digits_after, fraction_of};
use crate::fault::FieldFault;
use crate::places::{MOST_PLACES, Places};

/// A decimal, as its text has it.
#[derive(Clone, Copy)]
struct Decimal<'t> {
    is_negative: bool,
    /// The digits before the point.
    whole: &'t [u8],
    /// The digits behind it, or none.
    decimals: &'t [u8],
}

/// Whether a text begins with a minus.
pub fn has_minus(text: &[u8]) -> bool
    ensures { result ≡ starts_with_minus text.now }
{
    !text.is_empty() && text[0] == b'-'
}

/// The text without the minus that it may begin with.
pub fn without_minus(text: &[u8]) -> &[u8]
    ensures { result.now ≡ without_minus text.now }
{
    if has_minus(text) { &text[1..] } else { text }
}

/// The place of the first point, or of the end where there is none.
pub fn point_of(text: &[u8]) -> usize
    ensures place { result ≡ position_or_len is_point text.now }
    ensures within { result ≤ length text.now }
{
    text.iter().position(|b| *b == b'.').unwrap_or(text.len())
}

/// The decimal that the text is, or `None` where it is none.
#[tactic(auto, unfolding(crate::specs::Decimals::whole_digits, crate::specs::Decimals::from_point, crate::specs::Decimals::decimal_digits, crate::specs::Decimals::is_decimal))]
fn decimal_of(text: &[u8]) -> Option<Decimal<'_>>
    ensures says { MatchOption result (is_decimal text.now ≡ false) (λ d. (is_decimal text.now ≡ true) × (d.is_negative ≡ starts_with_minus text.now)
        × (d.whole.now ≡ whole_digits text.now) × (d.decimals.now ≡ decimal_digits text.now)) }
    ensures digits { IfSome result (λ d. IsTrue (list_all is_ascii_digit d.whole.now) × IsTrue (list_all is_ascii_digit d.decimals.now)) }
{
    let digits = without_minus(text);
    let (whole, rest) = digits.split_at(point_of(digits));
    if !are_digits(whole) {
        return None;
    }
    let decimals = fraction_of(rest)?;
    Some(Decimal {
        is_negative: has_minus(text),
        whole,
        decimals,
    })
}

/// The number that all digits write, times ten for each place that is left, where 64 bits without a sign hold it.
#[tactic(auto, unfolding(crate::specs::Decimals::magnitude))]
fn magnitude(whole: &[u8], decimals: &[u8], places: u32) -> Option<u64>
    requires whole { IsTrue (list_all is_ascii_digit whole.now) }
    requires decimals { IsTrue (list_all is_ascii_digit decimals.now) }
    requires few { length decimals.now ≤ places }
    requires most { places ≤ MOST_PLACES }
    ensures { SomeIff result (magnitude places whole.now decimals.now < 2 ^ 64) (magnitude places whole.now decimals.now) }
{
    let before = digits_after(0, whole)?;
    let all = digits_after(before, decimals)?;
    all.checked_mul(10u64.pow(places - decimals.len() as u32))
}

/// The number with this sign and magnitude, where 64 bits hold it.
fn signed(is_negative: bool, magnitude: u64) -> Option<i64>
    ensures { result ≡ signed is_negative magnitude }
{
    if is_negative {
        return 0i64.checked_sub_unsigned(magnitude);
    }
    0i64.checked_add_unsigned(magnitude)
}

/// The decimal times ten to the power of the places: `2.389` at 3 places is 2389, and so is `002.389`. A text is a
/// hyphen or none, digits, and then nothing or a point and digits; it may have any length.
///
/// # Errors
///
/// `NoNumber`, then `MorePlaces`, then `TooLarge`.
#[tactic(auto, unfolding(crate::specs::Decimals::scaled_said))]
pub fn scaled(text: &[u8], places: Places) -> Result<i64, FieldFault>
    ensures { result ≡ scaled_said places text.now }
{
    let decimal = decimal_of(text).ok_or(FieldFault::NoNumber)?;
    let places = places.get();
    if decimal.decimals.len() > places as usize {
        return Err(FieldFault::MorePlaces);
    }
    let size = magnitude(decimal.whole, decimal.decimals, places).ok_or(FieldFault::TooLarge)?;
    signed(decimal.is_negative, size).ok_or(FieldFault::TooLarge)
}
