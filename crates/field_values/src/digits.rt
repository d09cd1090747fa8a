//! Digits, and the numbers that they write.

ghost use Rattle.std.specs.Prelude.{◌≡◌, ◌+◌, ◌-◌, ◌*◌, ◌^◌, ◌≤◌, ◌<◌, IsTrue, SomeIff, MatchOption, true, false, length, drop};
ghost use Rattle.std.specs.Char.{is_ascii_digit};
ghost use Rattle.std.specs.Int.{IsInRange};
ghost use Rattle.std.specs.List.{list_all};
ghost use Rattle.std.specs.Str.Parse.{digits_value, digits_value_after};
ghost use Rattle.field_values.specs.Digits.{are_digits, is_fraction};

fn is_all_digits(text: &[u8]) -> bool
    ensures { result ≡ list_all is_ascii_digit text.now }
{
    text.iter().all(|b| b.is_ascii_digit())
}

/// Whether the text is one digit or more, and nothing else.
#[tactic(auto, unfolding(crate::specs::Digits::are_digits))]
pub fn are_digits(text: &[u8]) -> bool
    ensures says { result ≡ are_digits text.now }
    ensures each { IsTrue result → IsTrue (list_all is_ascii_digit text.now) }
{
    !text.is_empty() && is_all_digits(text)
}

/// The digits behind a point, or none where the text is empty. `None` where it is anything else.
#[tactic(auto, unfolding(crate::specs::Digits::is_fraction))]
pub fn fraction_of(text: &[u8]) -> Option<&[u8]>
    ensures { MatchOption result (is_fraction text.now ≡ false) (λ digits. (is_fraction text.now ≡ true)
        × (digits.now ≡ drop 1 text.now) × IsTrue (list_all is_ascii_digit digits.now)) }
{
    if text.is_empty() {
        return Some(text);
    }
    let digits = &text[1..];
    if text[0] == b'.' && are_digits(digits) {
        return Some(digits);
    }
    None
}

fn with_digit(number: u64, digit: u8) -> Option<u64>
    requires { IsInRange 48 57 digit }
    ensures { SomeIff result (number * 10 + (digit - 48) < 2 ^ 64) (number * 10 + (digit - 48)) }
{
    let tens = number.checked_mul(10)?;
    tens.checked_add(u64::from(digit - b'0'))
}

/// The number that the digits write behind those of another number, where 64 bits without a sign hold it.
pub fn digits_after(before: u64, digits: &[u8]) -> Option<u64>
    requires { IsTrue (list_all is_ascii_digit digits.now) }
    ensures { SomeIff result (digits_value_after 10 before digits.now < 2 ^ 64) (digits_value_after 10 before digits.now) }
{
    let mut number = before;
    for digit in digits {
        number = with_digit(number, *digit)?;
    }
    Some(number)
}

/// The number that up to 4 digits write.
pub fn number_of(digits: &[u8]) -> u16
    requires digits { IsTrue (list_all is_ascii_digit digits.now) }
    requires few { length digits.now ≤ 4 }
    ensures value { result ≡ digits_value 10 digits.now }
    ensures small { result < 10 ^ length digits.now }
{
    digits_after(0, digits).unwrap_or(0) as u16
}
