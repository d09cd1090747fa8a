//! Bytes at the front of a text.
ghost use Rattle.std.specs.Prelude.{◌≡◌, ◌≤◌, ◌∷◌, true, length, IfSome};
ghost use Rattle.std.specs.List.{prefix_len};
ghost use Rattle.json.specs.Word.{head, is_space};
ghost use Rattle.json.specs.Lex.{between, lex};
ghost use Rattle.json.specs.Run.{is_plain};
ghost use Rattle.json_tokens.specs.Lexemes.{ends_number, BeginsDigits, BeginsName, ComeFirst};

use core::dec2flt::read_digits;
use digit_words::{few_digits, more_digits};

/// The most digits whose number surely fits 64 bits.
const MOST_DIGITS: usize = 19;

#[inline(always)]
fn is_space(byte: u8) -> bool
    ensures { result ≡ is_space byte }
{
    byte <= b' ' && (byte == b' ' || byte == b'\t' || byte == b'\n' || byte == b'\r')
}

/// The first byte, or a space at the end of the text.
#[inline(always)]
fn first(text: &[u8]) -> u8
    ensures { result ≡ head text.now }
{
    if text.is_empty() { b' ' } else { text[0] }
}

/// What follows the byte, where it comes first.
#[inline(always)]
pub fn behind(text: &[u8], byte: u8) -> Option<&[u8]>
    ensures { IfSome result (λ rest. text.now ≡ byte ∷ rest.now) }
{
    if !text.is_empty() && text[0] == byte {
        Some(&text[1..])
    } else {
        None
    }
}

/// The text without the white space that it begins with.
#[inline(always)]
pub fn behind_spaces(text: &[u8]) -> &[u8]
    ensures { lex between result.now ≡ lex between text.now }
{
    let mut at = 0;
    'spaces: while at < text.len() && is_space(text[at]) {
        at += 1;
    }
    &text[at..]
}

/// What follows the byte, where it comes first or behind white space.
#[inline(always)]
pub fn behind_mark(text: &[u8], byte: u8) -> Option<&[u8]>
    ensures { IfSome result (λ rest. lex between text.now ≡ lex between (byte ∷ rest.now)) }
{
    if let Some(rest) = behind(text, byte) {
        return Some(rest);
    }
    behind(behind_spaces(text), byte)
}

#[inline(always)]
fn ends_number(byte: u8) -> bool
    ensures { result ≡ ends_number byte }
{
    byte == b',' || byte == b']' || byte == b'}' || is_space(byte)
}

/// The digits that come first, as a number, and what follows them.
#[inline(always)]
pub fn digits(text: &[u8]) -> Option<(u64, &[u8])>
    ensures { IfSome result (λ found. BeginsDigits text.now found.0 found.1.now) }
{
    let (count, value) = read_digits(text, 0, 0);
    if count == 0 || MOST_DIGITS < count || (count != 1 && first(text) == b'0') {
        return None;
    }
    let rest = &text[count..];
    if !ends_number(first(rest)) {
        return None;
    }
    Some((value, rest))
}

/// The same of digits that are found at once, if they are.
#[inline(always)]
pub fn short_digits(text: &[u8]) -> Option<(u64, &[u8])>
    ensures { IfSome result (λ found. BeginsDigits text.now found.0 found.1.now) }
{
    let (count, value) = few_digits(text)?;
    if count == 0 || !ends_number(text[count]) || (text[0] == b'0' && count != 1) {
        return None;
    }
    Some((value, &text[count..]))
}

/// The number of the digits that come first, where the mark is right behind them, and what follows the mark.
#[inline(always)]
fn item_of(text: &[u8], mark: u8, digits: Option<(usize, u64)>) -> Option<(u64, &[u8])>
    requires mark { ends_number mark ≡ true }
    requires digits { IfSome digits (ComeFirst text.now) }
    ensures { IfSome result (λ found. BeginsDigits text.now found.0 (mark ∷ found.1.now)) }
{
    let (count, value) = digits?;
    if count == 0 || text[count] != mark || (text[0] == b'0' && count != 1) {
        return None;
    }
    Some((value, &text[count + 1..]))
}

/// The same of fewer than eight digits, which are found at once.
#[inline(always)]
pub fn short_item(text: &[u8], mark: u8) -> Option<(u64, &[u8])>
    requires mark { ends_number mark ≡ true }
    ensures { IfSome result (λ found. BeginsDigits text.now found.0 (mark ∷ found.1.now)) }
{
    item_of(text, mark, few_digits(text))
}

/// The same of 8 to 15 digits, as times in milliseconds have them.
#[inline(always)]
pub fn long_item(text: &[u8], mark: u8) -> Option<(u64, &[u8])>
    requires mark { ends_number mark ≡ true }
    ensures { IfSome result (λ found. BeginsDigits text.now found.0 (mark ∷ found.1.now)) }
{
    item_of(text, mark, more_digits(text))
}

/// How many bytes come before the first that ends the text of a string, or begins an escape in it.
// In line it had no registers of its own, and took twice as long.
#[inline(never)]
fn plain_end(text: &[u8]) -> usize
    ensures value { result ≡ prefix_len is_plain text.now }
    ensures within { result ≤ length text.now }
{
    let mut end = 0;
    'plain: while end < text.len() && text[end] != b'"' && text[end] != b'\\' && text[end] >= 0x20 {
        end += 1;
    }
    end
}

/// The name that comes first, written without escapes, and what follows its colon.
#[inline(always)]
pub fn name_at(text: &[u8]) -> Option<(&[u8], &[u8])>
    ensures { IfSome result (λ found. BeginsName text.now found.0.now found.1.now) }
{
    let quoted = behind(text, b'"')?;
    let end = plain_end(quoted);
    let name = &quoted[..end];
    let closed = behind(&quoted[end..], b'"')?;
    let spaced = behind_spaces(closed);
    let rest = behind(spaced, b':')?;
    Some((name, rest))
}
