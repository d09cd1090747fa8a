//! The product of two decimals.

ghost use Rattle.std.specs.Prelude.{◌≡◌, ◌*◌, ◌^◌, ◌<◌, ◌≤◌, SomeIff, length};
ghost use Rattle.std.specs.List.{position_or_len};
ghost use Rattle.decimal_texts.specs.Exact.{exact_quotient, held};
ghost use Rattle.decimal_texts.specs.Products.{is_times, product_from, product_said, exact_product};

use crate::digits::raised;
use crate::factor::{Factor, factor_of};
use crate::scaling::{exact, signed};
use field_values::{FieldFault, Places};

/// The number times ten to the power of the places, where 64 bits without a sign hold it.
fn raised_wide(number: u128, places: usize) -> Option<u64>
    ensures { SomeIff result (number * 10 ^ places < 2 ^ 64) (number * 10 ^ places) }
{
    if number == 0 {
        return Some(0);
    }
    match u64::try_from(number) {
        Ok(number) => raised(number, places),
        Err(_) => None,
    }
}

/// The number times ten to the power of `up` and divided by ten to that of `down`.
fn quotient(number: u128, up: u32, down: u128) -> Result<u64, FieldFault>
    ensures { result ≡ held (exact_quotient number up down) }
{
    if number == 0 {
        return Ok(0);
    }
    let cut = down.saturating_sub(u128::from(up));
    if cut > 38 {
        return Err(FieldFault::MorePlaces);
    }
    let power = 10u128.pow(cut as u32);
    if number % power != 0 {
        return Err(FieldFault::MorePlaces);
    }
    let more = u128::from(up).saturating_sub(down);
    raised_wide(number / power, more as usize).ok_or(FieldFault::TooLarge)
}

/// What the product of two decimals is, times ten to the power of the places.
#[tactic(auto, unfolding(crate::specs::Products::product_from))]
fn product_from(first: Factor, second: Factor, places: Places) -> Result<i64, FieldFault>
    ensures { result ≡ product_from places first second }
{
    let number = u128::from(first.digits) * u128::from(second.digits);
    let up = places.get() + u32::from(first.raised) + u32::from(second.raised);
    let down = first.lowered as u128 + second.lowered as u128;
    let size = quotient(number, up, down)?;
    signed(first.is_negative != second.is_negative, size).ok_or(FieldFault::TooLarge)
}

/// The product of two decimals, with or without exponents, times ten to the power of the places. It is exact: what
/// counts is the number, and not how many decimal places are written.
///
/// # Errors
///
/// `NoNumber`; `MorePlaces` where the product is finer than the places; `TooLarge` where 64 bits do not hold it, or
/// where 64 bits without a sign do not hold the digits of one of the two.
pub fn product(first: &[u8], second: &[u8], places: Places) -> Result<i64, FieldFault>
    ensures { result ≡ product_said places first.now second.now }
{
    let first = factor_of(first)?;
    let second = factor_of(second)?;
    product_from(first, second, places)
}

/// The place of the first asterisk, or of the end where there is none.
fn times_of(text: &[u8]) -> usize
    ensures place { result ≡ position_or_len is_times text.now }
    ensures within { result ≤ length text.now }
{
    text.iter().position(|b| *b == b'*').unwrap_or(text.len())
}

/// The product of the two decimals round an asterisk, or what a decimal alone is, as [`exact`] has it.
///
/// # Errors
///
/// Those of [`product`] and of [`exact`].
pub fn exact_product(text: &[u8], places: Places) -> Result<i64, FieldFault>
    ensures { result ≡ exact_product places text.now }
{
    let times = times_of(text);
    if times == text.len() {
        return exact(text, places);
    }
    product(&text[..times], &text[times + 1..], places)
}
