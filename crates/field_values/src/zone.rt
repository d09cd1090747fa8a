//! The zone that a text has.

ghost use Rattle.std.specs.Prelude.{◌≡◌, MatchOption, true, false, length};
ghost use Rattle.std.specs.Str.Parse.{digits_value};
ghost use Rattle.field_values.specs.Clocks.{is_utc, is_sign, without_colon, is_minutes, is_offset, offset_said, is_zone, zone_said, utc};

use crate::digits::{are_digits, number_of};

/// How far a zone's clocks are from UTC.
#[derive(Clone, Copy)]
pub(crate) struct Zone {
    /// Whether they are behind UTC.
    pub(crate) is_behind: bool,
    pub(crate) hours: u16,
    pub(crate) minutes: u16,
}

#[tactic(auto, unfolding(crate::specs::Clocks::without_colon))]
fn without_colon(rest: &[u8]) -> &[u8]
    ensures { result.now ≡ without_colon rest.now }
{
    if !rest.is_empty() && rest[0] == b':' {
        return &rest[1..];
    }
    rest
}

/// The minutes that stand behind the hours, which are 0 where nothing does, or `None` where something else does.
#[tactic(auto, using(crate::proofs::Forms::no_minutes, crate::proofs::Forms::all_digits), unfolding(crate::specs::Clocks::is_minutes))]
fn minutes_of(rest: &[u8]) -> Option<u16>
    ensures { MatchOption result (is_minutes rest.now ≡ false) (λ minutes. (is_minutes rest.now ≡ true) × (minutes ≡ digits_value 10 (without_colon rest.now))) }
{
    let digits = without_colon(rest);
    if rest.is_empty() {
        return Some(0);
    }
    if digits.len() != 2 || !are_digits(digits) {
        return None;
    }
    Some(number_of(digits))
}

/// Whether an offset begins with this byte.
fn is_sign(byte: u8) -> bool
    ensures { result ≡ is_sign byte }
{
    byte == b'+' || byte == b'-'
}

/// What `+hh:mm`, `+hhmm`, `+hh` and the same with a hyphen say, or `None` where the text is of another form.
#[tactic(auto, using(crate::proofs::Forms::all_digits), unfolding(crate::specs::Clocks::is_offset, crate::specs::Clocks::offset_said))]
fn offset_of(text: &[u8]) -> Option<Zone>
    ensures { MatchOption result (is_offset text.now ≡ false) (λ zone. (is_offset text.now ≡ true) × (zone ≡ offset_said text.now)) }
{
    if text.len() < 3 || !is_sign(text[0]) || !are_digits(&text[1..3]) {
        return None;
    }
    let minutes = minutes_of(&text[3..])?;
    Some(Zone {
        is_behind: text[0] == b'-',
        hours: number_of(&text[1..3]),
        minutes,
    })
}

/// What `Z` and an offset say, or `None` where the text is of another form.
#[tactic(auto, unfolding(crate::specs::Clocks::is_utc, crate::specs::Clocks::utc, crate::specs::Clocks::is_zone, crate::specs::Clocks::zone_said))]
pub(crate) fn zone_of(text: &[u8]) -> Option<Zone>
    ensures { MatchOption result (is_zone text.now ≡ false) (λ zone. (is_zone text.now ≡ true) × (zone ≡ zone_said text.now)) }
{
    if text.len() == 1 && text[0] == b'Z' {
        return Some(Zone {
            is_behind: false,
            hours: 0,
            minutes: 0,
        });
    }
    offset_of(text)
}
