//! The numbers that digits write.

ghost use Rattle.std.specs.Prelude.{◌≡◌, ◌==◌, ◌+◌, ◌-◌, ◌*◌, ◌^◌, ◌<◌, ◌&&◌, ◌++◌, IsTrue, SomeIff};
ghost use Rattle.std.specs.Char.{is_ascii_digit};
ghost use Rattle.std.specs.List.{list_all};
ghost use Rattle.std.specs.Str.Parse.{digits_value};

use field_values::digits_after;

/// Whether all digits are 0.
fn are_zeros(digits: &[u8]) -> bool
    ensures { result ≡ list_all (λ b. b == 48) digits.now }
{
    digits.iter().all(|b| *b == b'0')
}

/// Whether all digits of both are 0.
pub(crate) fn are_both_zeros(front: &[u8], back: &[u8]) -> bool
    ensures { result ≡ (list_all (λ b. b == 48) front.now && list_all (λ b. b == 48) back.now) }
{
    are_zeros(front) && are_zeros(back)
}

/// The number that the digits of both write, where 64 bits without a sign hold it.
pub(crate) fn number_of_both(front: &[u8], back: &[u8]) -> Option<u64>
    requires front { IsTrue (list_all is_ascii_digit front.now) }
    requires back { IsTrue (list_all is_ascii_digit back.now) }
    ensures { SomeIff result (digits_value 10 (front.now ++ back.now) < 2 ^ 64) (digits_value 10 (front.now ++ back.now)) }
{
    let before = digits_after(0, front)?;
    digits_after(before, back)
}

/// The number times ten to the power of the places, where 64 bits without a sign hold it.
pub(crate) fn raised(number: u64, places: usize) -> Option<u64>
    ensures { SomeIff result (number * 10 ^ places < 2 ^ 64) (number * 10 ^ places) }
{
    if number == 0 {
        return Some(0);
    }
    if places > 19 {
        return None;
    }
    number.checked_mul(10u64.pow(places as u32))
}

/// The number that the digits write, times ten to the power of the places, where 64 bits without a sign hold it.
pub fn raised_digits(digits: &[u8], places: usize) -> Option<u64>
    requires { IsTrue (list_all is_ascii_digit digits.now) }
    ensures { SomeIff result (digits_value 10 digits.now * 10 ^ places < 2 ^ 64) (digits_value 10 digits.now * 10 ^ places) }
{
    let number = digits_after(0, digits)?;
    raised(number, places)
}

/// The number that the digits of both write, times ten to the power of the places, where 64 bits without a sign hold
/// it.
pub(crate) fn raised_number(front: &[u8], back: &[u8], places: usize) -> Option<u64>
    requires front { IsTrue (list_all is_ascii_digit front.now) }
    requires back { IsTrue (list_all is_ascii_digit back.now) }
    ensures { SomeIff result (digits_value 10 (front.now ++ back.now) * 10 ^ places < 2 ^ 64) (digits_value 10 (front.now ++ back.now) * 10 ^ places) }
{
    let number = number_of_both(front, back)?;
    raised(number, places)
}
