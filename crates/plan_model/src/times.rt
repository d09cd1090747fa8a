//! Which numbers are times.

ghost use Rattle.std.specs.Prelude.{◌≡◌};
ghost use Rattle.std.specs.List.{list_all};
ghost use Rattle.plan_model.specs.Windows as windows;

use crate::limits::TIME_LIMIT;

/// Whether a number may be a time, or the watermark of an entry: from -2^62 to 2^62 - 1.
pub fn is_time(number: i64) -> bool
    ensures { result ≡ windows.is_time number }
{
    -TIME_LIMIT <= number && number < TIME_LIMIT
}

/// Whether all numbers are.
pub fn are_times(numbers: &[i64]) -> bool
    ensures { result ≡ list_all windows.is_time numbers.now }
{
    numbers.iter().all(|number| is_time(*number))
}
