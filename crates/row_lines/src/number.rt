//! Numbers in decimal, as rows have them.

ghost use Rattle.std.specs.Prelude.{◌≡◌, ◌≢◌, false, ◌<◌, ◌≤◌, ◌∷◌, ◌++◌, FitsSigned, IfSome, IsTrue, length, take, slice_index};
ghost use Rattle.std.specs.Int.{w64};
ghost use Rattle.std.specs.Fmt.{signed_decimal};
ghost use Rattle.row_lines.specs.Numbers.{GivesNumber, IsNumberFront, IsSizeFront, IsSizeOf};

use core::dec2flt::read_digits;
use digit_words::few_digits;
use itoa::Buffer;
use std::str;

/// The most digits that are read as a number of 64 bits: with a sign or without one, each such number fits.
const MOST_DIGITS: usize = 18;

/// Whether there are digits, and no zero stands before others.
#[inline(always)]
fn are_plain(digits: &[u8]) -> bool
    ensures some { IsTrue result → 0 < length digits.now }
    ensures zero { IsTrue result → slice_index digits.now 0 ≡ 48 → length digits.now ≡ 1 }
{
    !digits.is_empty() && (digits[0] != b'0' || digits.len() == 1)
}

/// The number of so many digits in front of a text, and what stands behind them, if no zero stands before others.
#[inline(always)]
fn with_rest(size: u64, text: &[u8], count: usize) -> Option<(i64, &[u8])>
    requires within { count ≤ length text.now }
    requires size { IsSizeOf (take count text.now) size }
    ensures { IfSome result (λ front. IsSizeFront text.now front.0 front.1.now) }
{
    let (digits, rest) = text.split_at(count);
    if are_plain(digits) {
        Some((size as i64, rest))
    } else {
        None
    }
}

/// The number without a sign that is printed in front of a text, and what stands behind its digits.
#[inline(always)]
fn size_front(text: &[u8]) -> Option<(i64, &[u8])>
    ensures { IfSome result (λ front. IsSizeFront text.now front.0 front.1.now) }
{
    if let Some((count, size)) = few_digits(text) {
        return with_rest(size, text, count);
    }
    let (count, size) = read_digits(text, 0, 0);
    if MOST_DIGITS < count {
        return None;
    }
    with_rest(size, text, count)
}

/// Whether the first digit is a zero.
#[inline(always)]
fn has_zero_first(digits: &[u8]) -> bool
    ensures { result ≡ false → slice_index digits.now 0 ≢ 48 }
{
    !digits.is_empty() && digits[0] == b'0'
}

/// The number below zero that is printed as a hyphen and the digits in front of a text, and what stands behind them.
#[inline(always)]
fn negative_front(digits: &[u8]) -> Option<(i64, &[u8])>
    ensures { IfSome result (λ front. IsNumberFront (45 ∷ digits.now) front.0 front.1.now) }
{
    // A zero has no hyphen. Where the number is not asked for, it need not be told from its digits.
    if has_zero_first(digits) {
        return None;
    }
    match size_front(digits) {
        Some((size, rest)) => Some((-size, rest)),
        None => None,
    }
}

/// The number of at most 18 digits that is printed in front of a text, and what stands behind its digits. Of a text of
/// another number, or of none, there is none.
#[inline(always)]
pub(crate) fn narrow_front(text: &[u8]) -> Option<(i64, &[u8])>
    ensures { IfSome result (λ front. IsNumberFront text.now front.0 front.1.now) }
{
    match text.split_first() {
        Some((first, digits)) if *first == b'-' => negative_front(digits),
        _ => size_front(text),
    }
}

/// The number of at most 18 digits behind a space in front of a text, and what stands behind it.
#[inline(always)]
pub(crate) fn spaced_front(text: &[u8]) -> Option<(i64, &[u8])>
    ensures { IfSome result (λ front. FitsSigned w64 front.0 × (text.now ≡ 32 ∷ signed_decimal front.0 ++ front.1.now)) }
{
    match text.split_first() {
        Some((first, rest)) if *first == b' ' => narrow_front(rest),
        _ => None,
    }
}

/// The number of 64 bits that is printed so. Of a text of another number, or of none, there is none.
fn narrow_of(text: &[u8]) -> Option<i64>
    ensures { IfSome result (λ z. FitsSigned w64 z × (text.now ≡ signed_decimal z)) }
{
    match narrow_front(text) {
        Some((number, rest)) if rest.is_empty() => Some(number),
        _ => None,
    }
}

/// The number of 128 bits that is printed so, if there is one.
fn wide_of(text: &str) -> Option<i128>
    ensures { GivesNumber text.now result }
{
    let Ok(number) = text.parse::<i128>() else {
        return None;
    };
    let mut buffer = Buffer::new();
    if buffer.format(number) == text {
        Some(number)
    } else {
        None
    }
}

/// The number that is printed so, if it has 128 bits: a hyphen where it is negative, and digits without a zero before
/// them.
pub fn number_of(text: &[u8]) -> Option<i128>
    ensures { GivesNumber text.now result }
{
    if let Some(number) = narrow_of(text) {
        return Some(i128::from(number));
    }
    match str::from_utf8(text) {
        Ok(text) => wide_of(text),
        Err(_) => None,
    }
}
