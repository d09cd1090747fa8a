//! A decimal and its exponent, apart.

ghost use Rattle.std.specs.Prelude.{◌≡◌, ◌&&◌, IsTrue, IfSome, MatchOption, true, false};
ghost use Rattle.std.specs.Char.{is_ascii_digit};
ghost use Rattle.std.specs.Str.Parse.{starts_with_minus};
ghost use Rattle.std.specs.List.{list_all};
ghost use Rattle.field_values.specs.Decimals.{whole_digits, decimal_digits, is_decimal};
ghost use Rattle.decimal_texts.specs.Exponents.{is_exponent, exponent_said};

use crate::exponent::{Exponent, exponent_of};
use field_values::{are_digits, fraction_of, has_minus, point_of, without_minus};

/// A decimal with an exponent, as its text has it.
#[derive(Clone, Copy)]
pub(crate) struct Scientific<'t> {
    pub(crate) is_negative: bool,
    /// The digits before the point.
    pub(crate) whole: &'t [u8],
    /// The digits behind it, or none.
    pub(crate) decimals: &'t [u8],
    pub(crate) exponent: Exponent,
}

/// The parts of a decimal and an exponent, or `None` where one of the texts is none.
#[tactic(auto, unfolding(field_values::specs::Decimals::whole_digits, field_values::specs::Decimals::from_point, field_values::specs::Decimals::decimal_digits, field_values::specs::Decimals::is_decimal))]
pub(crate) fn scientific_of<'t>(decimal: &'t [u8], exponent: &[u8]) -> Option<Scientific<'t>>
    ensures says { MatchOption result ((is_decimal decimal.now && is_exponent exponent.now) ≡ false) (λ s. ((is_decimal decimal.now && is_exponent exponent.now) ≡ true)
        × (s.is_negative ≡ starts_with_minus decimal.now) × (s.whole.now ≡ whole_digits decimal.now)
        × (s.decimals.now ≡ decimal_digits decimal.now) × (s.exponent ≡ exponent_said exponent.now)) }
    ensures digits { IfSome result (λ s. IsTrue (list_all is_ascii_digit s.whole.now) × IsTrue (list_all is_ascii_digit s.decimals.now)) }
{
    let digits = without_minus(decimal);
    let (whole, rest) = digits.split_at(point_of(digits));
    if !are_digits(whole) {
        return None;
    }
    let decimals = fraction_of(rest)?;
    let exponent = exponent_of(exponent)?;
    Some(Scientific {
        is_negative: has_minus(decimal),
        whole,
        decimals,
        exponent,
    })
}
