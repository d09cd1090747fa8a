//! The date and the time of day that a text has.

ghost use Rattle.std.specs.Prelude.{◌≡◌, IsTrue, MatchOption, true, false, length};
ghost use Rattle.field_values.specs.Clocks.{has_marks, has_numbers, is_clock, clock_said};

use crate::digits::{are_digits, number_of};

/// A date, and what a clock shows there, as 14 digits write them. The calendar may have no such day.
#[derive(Clone, Copy)]
pub(crate) struct Clock {
    pub(crate) year: u16,
    pub(crate) month: u16,
    pub(crate) day: u16,
    pub(crate) hour: u16,
    pub(crate) minute: u16,
    pub(crate) second: u16,
}

#[tactic(auto, unfolding(crate::specs::Clocks::has_marks))]
fn has_marks(text: &[u8]) -> bool
    requires { length text.now ≡ 19 }
    ensures { result ≡ has_marks text.now }
{
    let between = text[10] == b'T' || text[10] == b' ';
    text[4] == b'-' && text[7] == b'-' && between && text[13] == b':' && text[16] == b':'
}

#[tactic(auto, unfolding(crate::specs::Clocks::has_numbers))]
fn has_numbers(text: &[u8]) -> bool
    requires { length text.now ≡ 19 }
    ensures { result ≡ has_numbers text.now }
{
    let is_date = are_digits(&text[..4]) && are_digits(&text[5..7]) && are_digits(&text[8..10]);
    let is_time = are_digits(&text[11..13])
        && are_digits(&text[14..16])
        && are_digits(&text[17..19]);
    is_date && is_time
}

/// What `YYYY-MM-DDTHH:MM:SS` says, with a `T` or a space, or `None` where the text is of another form.
#[tactic(auto, unfolding(crate::specs::Clocks::is_clock, crate::specs::Clocks::clock_said))]
pub(crate) fn clock_of(text: &[u8]) -> Option<Clock>
    ensures { MatchOption result (is_clock text.now ≡ false) (λ clock. (is_clock text.now ≡ true) × (clock ≡ clock_said text.now)) }
{
    if text.len() != 19 || !has_marks(text) || !has_numbers(text) {
        return None;
    }
    Some(Clock {
        year: number_of(&text[..4]),
        month: number_of(&text[5..7]),
        day: number_of(&text[8..10]),
        hour: number_of(&text[11..13]),
        minute: number_of(&text[14..16]),
        second: number_of(&text[17..19]),
    })
}
