//! A word of eight bytes, its first byte the lowest.

ghost use Rattle.std.specs.Prelude.{◌≡◌, ◌⊎◌, ℕ, ◌<◌, ◌≤◌, ◌^◌, List, length, take, IfSome, IfNone};
ghost use Rattle.std.specs.List.{prefix_len};
ghost use Rattle.std.specs.Char.{is_ascii_digit};
ghost use Rattle.std.specs.Str.Parse.{digits_value};
ghost use Rattle.core.specs.Prelude.{nat_le};
ghost use Rattle.core.specs.Slice.Scan.{digits_from, flag_word};
ghost use Rattle.core.specs.Dec2flt.Digits.{IsEightDigits};
ghost use Rattle.core.specs.Int.Digits.{number_from_digits};
ghost use lib.Lanes.{number_l};
ghost use Rattle.digit_words.specs.Flags.{IsFirstFlagOf};

use core::dec2flt::ten_to;

/// The digit zero in each byte.
const ZEROS: u64 = 0x3030_3030_3030_3030;

/// The high bit of the first byte that is 10 or more, and no bit below it. What a sum carries gets to bytes behind that
/// one alone, so that theirs say nothing.
#[inline(always)]
fn flags_from_ten(lanes: u64) -> u64
    ensures { (flags : ℕ) × ((byte : ℕ → ℕ) → ((k : ℕ) → byte k < 256) → lanes ≡ digits_from byte 0 8 → flags ≡ flag_word (λ k. nat_le 10 (byte k)))
        × IsFirstFlagOf result flags }
{
    (lanes.wrapping_add(0x7676_7676_7676_7676) | lanes) & 0x8080_8080_8080_8080
}

/// The number that eight digits write.
#[inline(always)]
fn value_of_eight(lanes: u64) -> u64
    ensures value { (ds : List ℕ) → IsEightDigits ds → lanes ≡ number_l 256 ds → result ≡ number_from_digits 10 ds }
    ensures small { result < 2 ^ 32 }
{
    let pairs = lanes.wrapping_mul(10).wrapping_add(lanes >> 8);
    let first = (pairs & 0x0000_00ff_0000_00ff).wrapping_mul(100 + (1_000_000 << 32));
    let second = ((pairs >> 16) & 0x0000_00ff_0000_00ff).wrapping_mul(1 + (10_000 << 32));
    first.wrapping_add(second) >> 32
}

/// How many digits come first, where they are fewer than eight, and the number that they write.
#[inline(always)]
fn digits_in(bytes: &[u8; 8]) -> Option<(usize, u64)>
    ensures few { IfSome result (λ found. found.0 < 8) }
    ensures counted { IfSome result (λ found. found.0 ≡ prefix_len is_ascii_digit bytes.now) }
    ensures says { IfSome result (λ found. found.1 ≡ digits_value 10 (take found.0 bytes.now)) }
    ensures small { IfSome result (λ found. found.1 < 2 ^ 32) }
    ensures none { IfNone result (prefix_len is_ascii_digit bytes.now ≡ 8) }
{
    let lanes = u64::from_le_bytes(*bytes) ^ ZEROS;
    let others = flags_from_ten(lanes);
    if others == 0 {
        return None;
    }
    let count = others.trailing_zeros() / 8;
    // Two shifts, since a shift by 64 is not defined.
    let last = lanes << (56 - 8 * count) << 8;
    Some((count as usize, value_of_eight(last)))
}

/// How many digits a text begins with, and the number that they write, 0 where there is none. Of a text of fewer than
/// eight bytes, and of one that begins with eight digits, there is no telling.
#[inline(always)]
pub fn few_digits(text: &[u8]) -> Option<(usize, u64)>
    ensures few { IfSome result (λ found. found.0 < 8) }
    ensures more { IfSome result (λ found. found.0 < length text.now) }
    ensures counted { IfSome result (λ found. found.0 ≡ prefix_len is_ascii_digit text.now) }
    ensures says { IfSome result (λ found. found.1 ≡ digits_value 10 (take found.0 text.now)) }
    ensures small { IfSome result (λ found. found.1 < 2 ^ 32) }
    ensures none { IfNone result ((length text.now < 8) ⊎ (8 ≤ prefix_len is_ascii_digit text.now)) }
{
    match text.first_chunk::<8>() {
        Some(front) => digits_in(front),
        None => None,
    }
}

/// The number that eight bytes write, where all of them are digits.
#[inline(always)]
fn eight_digits(bytes: &[u8; 8]) -> Option<u64>
    ensures counted { IfSome result (λ value. prefix_len is_ascii_digit bytes.now ≡ 8) }
    ensures says { IfSome result (λ value. value ≡ digits_value 10 bytes.now) }
    ensures small { IfSome result (λ value. value < 2 ^ 32) }
    ensures none { IfNone result (prefix_len is_ascii_digit bytes.now < 8) }
{
    let lanes = u64::from_le_bytes(*bytes) ^ ZEROS;
    if flags_from_ten(lanes) != 0 {
        return None;
    }
    Some(value_of_eight(lanes))
}

/// The same where they are 8 to 15. Of a text of fewer than 16 bytes there is no telling.
#[inline(always)]
pub fn more_digits(text: &[u8]) -> Option<(usize, u64)>
    ensures more { IfSome result (λ found. found.0 < length text.now) }
    ensures counted { IfSome result (λ found. found.0 ≡ prefix_len is_ascii_digit text.now) }
    ensures says { IfSome result (λ found. found.1 ≡ digits_value 10 (take found.0 text.now)) }
    ensures none { IfNone result ((length text.now < 16) ⊎ (prefix_len is_ascii_digit text.now < 8) ⊎ (16 ≤ prefix_len is_ascii_digit text.now)) }
{
    let first = eight_digits(text.first_chunk::<8>()?)?;
    let (count, last) = few_digits(&text[8..])?;
    Some((8 + count, first * ten_to(count as u64) + last))
}
