//! A decimal of which a product is made.

ghost use Rattle.std.specs.Prelude.{◌≡◌};
ghost use Rattle.decimal_texts.specs.Products.{decimal_part, exponent_part, factor_from, factor_said};

use crate::digits::number_of_both;
use crate::exponent::mark_of;
use crate::scientific::scientific_of;
use field_values::FieldFault;

/// A decimal with or without an exponent: the number that its digits write, and the powers of ten that this is
/// multiplied and divided by.
#[derive(Clone, Copy)]
pub(crate) struct Factor {
    pub(crate) is_negative: bool,
    pub(crate) digits: u64,
    pub(crate) raised: u16,
    pub(crate) lowered: usize,
}

/// The decimal and the exponent in a text, which is 0 where none stands there.
#[tactic(auto, unfolding(crate::specs::Exponents::mantissa, crate::specs::Exponents::exponent_text))]
fn parts_of(text: &[u8]) -> (&[u8], &[u8])
    ensures decimal { result.0.now ≡ decimal_part text.now }
    ensures exponent { result.1.now ≡ exponent_part text.now }
{
    let mark = mark_of(text);
    if mark == text.len() {
        return (text, b"0");
    }
    (&text[..mark], &text[mark + 1..])
}

/// What a decimal and an exponent say.
#[tactic(auto, unfolding(crate::specs::Products::factor_from))]
fn factor_from(decimal: &[u8], exponent: &[u8]) -> Result<Factor, FieldFault>
    ensures { result ≡ factor_from decimal.now exponent.now }
{
    let parts = scientific_of(decimal, exponent).ok_or(FieldFault::NoNumber)?;
    let digits = number_of_both(parts.whole, parts.decimals).ok_or(FieldFault::TooLarge)?;
    Ok(Factor {
        is_negative: parts.is_negative,
        digits,
        raised: parts.exponent.raised,
        lowered: parts.decimals.len() + usize::from(parts.exponent.lowered),
    })
}

/// What a text says.
///
/// # Errors
///
/// `NoNumber`; `TooLarge` where 64 bits without a sign do not hold the number that its digits write.
pub(crate) fn factor_of(text: &[u8]) -> Result<Factor, FieldFault>
    ensures { result ≡ factor_said text.now }
{
    let (decimal, exponent) = parts_of(text);
    factor_from(decimal, exponent)
}
