//! The time that a word spells.

ghost use Rattle.std.specs.Prelude.{◌≡◌};
ghost use Rattle.cut_texts.specs.Times.{time_said};

use field_values::milliseconds;
use job_texts::read_key;

/// The time that a word spells: a number of 64 bits, or a date and time as `2026-10-21T02:00:00Z`, which is as many
/// milliseconds since 1970-01-01 00:00 UTC.
pub fn read_time(word: &str) -> Option<i64>
    ensures { result ≡ time_said word.now }
{
    match read_key(word) {
        Some(time) => Some(time),
        None => milliseconds(word.as_bytes()).ok(),
    }
}
