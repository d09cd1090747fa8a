//! The exponent of a decimal.

ghost use Rattle.std.specs.Prelude.{◌≡◌, ◌==◌, ◌≤◌, MatchOption, true, false, length, slice_index};
ghost use Rattle.std.specs.List.{position_or_len};
ghost use Rattle.decimal_texts.specs.Exponents.{is_mark, is_signed, without_sign, is_exponent, exponent_said};

use field_values::{are_digits, number_of};

/// The powers of ten that a number is multiplied and divided by, of which one is none.
#[derive(Clone, Copy)]
pub(crate) struct Exponent {
    /// How many it is multiplied by.
    pub(crate) raised: u16,
    /// How many it is divided by.
    pub(crate) lowered: u16,
}

/// Whether an exponent begins with this byte.
fn is_mark(byte: u8) -> bool
    ensures { result ≡ is_mark byte }
{
    byte == b'e' || byte == b'E'
}

/// The place of the first mark of an exponent, or of the end where there is none.
pub(crate) fn mark_of(text: &[u8]) -> usize
    ensures place { result ≡ position_or_len is_mark text.now }
    ensures within { result ≤ length text.now }
{
    text.iter().position(|b| is_mark(*b)).unwrap_or(text.len())
}

fn is_signed(text: &[u8]) -> bool
    ensures { result ≡ is_signed text.now }
{
    !text.is_empty() && (text[0] == b'+' || text[0] == b'-')
}

fn is_lowered(text: &[u8]) -> bool
    ensures { result ≡ (slice_index text.now 0 == 45) }
{
    !text.is_empty() && text[0] == b'-'
}

fn without_sign(text: &[u8]) -> &[u8]
    ensures { result.now ≡ without_sign text.now }
{
    if is_signed(text) { &text[1..] } else { text }
}

/// What a sign or none and 1 to 4 digits say, or `None` where the text is of another form.
#[tactic(auto, unfolding(crate::specs::Exponents::is_exponent, crate::specs::Exponents::exponent_said))]
pub(crate) fn exponent_of(text: &[u8]) -> Option<Exponent>
    ensures { MatchOption result (is_exponent text.now ≡ false) (λ exponent. (is_exponent text.now ≡ true) × (exponent ≡ exponent_said text.now)) }
{
    let digits = without_sign(text);
    if !are_digits(digits) || digits.len() > 4 {
        return None;
    }
    let size = number_of(digits);
    if is_lowered(text) {
        return Some(Exponent {
            raised: 0,
            lowered: size,
        });
    }
    Some(Exponent {
        raised: size,
        lowered: 0,
    })
}
