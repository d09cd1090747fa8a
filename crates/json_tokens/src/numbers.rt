//! Whole numbers, as `as_i64` of `serde_json` gives them.
ghost use Rattle.std.specs.Prelude.{FitsSigned, ◌≡◌, ◌<◌, ◌≤◌, ◌^◌, true, neg_ℤ, pos, IfSome};
ghost use Rattle.std.specs.Int.{w64};
ghost use Rattle.serde_json.specs.Data.{unsigned as positive};
ghost use Rattle.serde_json.specs.Find.{as_i64};
ghost use Rattle.json_tokens.specs.Lexemes.{ends_number, BeginsItem, BeginsWhole};

use crate::bytes::{
    behind, behind_mark, behind_spaces, digits, long_item, short_digits, short_item,
};

#[inline(always)]
fn small(n: u64) -> Option<i64>
    ensures said { result ≡ as_i64 (positive n) }
    ensures fits { IfSome result (λ n. FitsSigned w64 n) }
{
    if n <= i64::MAX as u64 {
        Some(n as i64)
    } else {
        None
    }
}

/// The number of which this is the size, below zero.
#[inline(always)]
fn negated(size: u64) -> Option<i64>
    ensures said { IfSome result (λ n. (0 < size) × (size ≤ 2 ^ 63) × (n ≡ neg_ℤ (pos size))) }
    ensures fits { IfSome result (λ n. FitsSigned w64 n) }
{
    if size == 0 || 1 << 63 < size {
        None
    } else {
        Some(-((size - 1) as i64) - 1)
    }
}

/// The whole number of 64 bits that comes first in a text, with or without a sign, and what follows it.
// In line it took registers from the numbers with few digits.
#[inline(never)]
fn signed_at(text: &[u8]) -> Option<(i64, &[u8])>
    ensures said { IfSome result (λ found. BeginsWhole text.now found.0 found.1.now) }
    ensures fits { IfSome result (λ found. FitsSigned w64 found.0) }
{
    if let Some(unsigned) = behind(text, b'-') {
        let (size, rest) = digits(unsigned)?;
        let number = negated(size)?;
        return Some((number, rest));
    }
    let (size, rest) = digits(text)?;
    let number = small(size)?;
    Some((number, rest))
}

/// The same of a number below zero whose digits are found at once, if it is one.
#[inline(always)]
fn short_below_zero(text: &[u8]) -> Option<(i64, &[u8])>
    ensures said { IfSome result (λ found. BeginsWhole text.now found.0 found.1.now) }
    ensures fits { IfSome result (λ found. FitsSigned w64 found.0) }
{
    let unsigned = behind(text, b'-')?;
    let (size, rest) = short_digits(unsigned)?;
    let number = negated(size)?;
    Some((number, rest))
}

/// The whole number of 64 bits that comes first in a text or behind white space, and what follows it. Most have few
/// digits.
#[inline(always)]
pub fn whole_at(text: &[u8]) -> Option<(i64, &[u8])>
    ensures said { IfSome result (λ found. BeginsWhole text.now found.0 found.1.now) }
    ensures fits { IfSome result (λ found. FitsSigned w64 found.0) }
{
    if let Some((size, rest)) = short_digits(text) {
        let number = small(size)?;
        return Some((number, rest));
    }
    if let Some(found) = short_below_zero(text) {
        return Some(found);
    }
    signed_at(behind_spaces(text))
}

/// The whole number that comes first, where its digits are found at once and the mark is right behind them, and what
/// follows the mark. In a list that is a comma, or the bracket behind the last.
#[inline(always)]
pub fn short_item_at(text: &[u8], mark: u8) -> Option<(i64, &[u8])>
    requires mark { ends_number mark ≡ true }
    ensures said { IfSome result (λ found. BeginsItem text.now mark found.0 found.1.now) }
    ensures fits { IfSome result (λ found. FitsSigned w64 found.0) }
{
    let (size, rest) = short_item(text, mark)?;
    let number = small(size)?;
    Some((number, rest))
}

/// The same of a number below zero.
#[inline(always)]
pub fn short_item_below_zero(text: &[u8], mark: u8) -> Option<(i64, &[u8])>
    requires mark { ends_number mark ≡ true }
    ensures said { IfSome result (λ found. BeginsItem text.now mark found.0 found.1.now) }
    ensures fits { IfSome result (λ found. FitsSigned w64 found.0) }
{
    let unsigned = behind(text, b'-')?;
    let (size, rest) = short_item(unsigned, mark)?;
    let number = negated(size)?;
    Some((number, rest))
}

/// The same of a number with 8 to 15 digits.
#[inline(always)]
fn long_item_at(text: &[u8], mark: u8) -> Option<(i64, &[u8])>
    requires mark { ends_number mark ≡ true }
    ensures said { IfSome result (λ found. BeginsItem text.now mark found.0 found.1.now) }
    ensures fits { IfSome result (λ found. FitsSigned w64 found.0) }
{
    let (size, rest) = long_item(text, mark)?;
    let number = small(size)?;
    Some((number, rest))
}

/// The same of a number with a space before it.
#[inline(always)]
pub fn short_item_behind_space(text: &[u8], mark: u8) -> Option<(i64, &[u8])>
    requires mark { ends_number mark ≡ true }
    ensures said { IfSome result (λ found. BeginsItem text.now mark found.0 found.1.now) }
    ensures fits { IfSome result (λ found. FitsSigned w64 found.0) }
{
    short_item_at(behind(text, b' ')?, mark)
}

/// The same of any whole number of 64 bits, also with white space before it or before the mark.
// In line it took registers from the numbers with few digits.
#[inline(never)]
pub fn other_item_at(text: &[u8], mark: u8) -> Option<(i64, &[u8])>
    requires mark { ends_number mark ≡ true }
    ensures said { IfSome result (λ found. BeginsItem text.now mark found.0 found.1.now) }
    ensures fits { IfSome result (λ found. FitsSigned w64 found.0) }
{
    if let Some(found) = long_item_at(text, mark) {
        return Some(found);
    }
    let text = behind_spaces(text);
    if let Some(found) = short_item_at(text, mark) {
        return Some(found);
    }
    if let Some(found) = short_item_below_zero(text, mark) {
        return Some(found);
    }
    if let Some(found) = long_item_at(text, mark) {
        return Some(found);
    }
    let (number, behind) = signed_at(text)?;
    let rest = behind_mark(behind, mark)?;
    Some((number, rest))
}
