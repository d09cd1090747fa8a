//! How finely times are counted.

ghost use Rattle.std.specs.Prelude.{◌≡◌, ◌≤◌, ◌-◌, ◌^◌};
ghost use Rattle.local_times.specs.Units.{digits_of, nanos_in, zoned_said};

use field_values::{FieldFault, milliseconds};
use instant_texts::{FineUnit, instant};

/// How finely times are counted.
#[derive(Clone, Copy, Debug, PartialEq, Eq)]
pub enum TimeUnit {
    Milliseconds,
    Fine(FineUnit),
}

impl TimeUnit {
    /// The number that a text with a zone is in the unit.
    pub(crate) fn read(self, text: &[u8]) -> Result<i64, FieldFault>
        ensures { result ≡ zoned_said self text.now }
    {
        match self {
            TimeUnit::Milliseconds => milliseconds(text),
            TimeUnit::Fine(unit) => instant(text, unit),
        }
    }

    /// How many of it a second has.
    pub(crate) fn of_second(self) -> u32
        ensures says { result ≡ 10 ^ digits_of self }
        ensures few { result ≤ 1_000_000_000 }
    {
        match self {
            TimeUnit::Milliseconds => 1_000,
            TimeUnit::Fine(FineUnit::Microseconds) => 1_000_000,
            TimeUnit::Fine(FineUnit::Nanoseconds) => 1_000_000_000,
        }
    }

    /// How many nanoseconds it has.
    fn nanoseconds(self) -> u32
        ensures says { result ≡ 10 ^ (9 - digits_of self) }
        ensures few { result ≤ 1_000_000 }
    {
        match self {
            TimeUnit::Milliseconds => 1_000_000,
            TimeUnit::Fine(FineUnit::Microseconds) => 1_000,
            TimeUnit::Fine(FineUnit::Nanoseconds) => 1,
        }
    }

    /// So many of it, as nanoseconds.
    pub(crate) fn in_nanoseconds(self, number: i64) -> i128
        ensures { result ≡ nanos_in self number }
    {
        i128::from(number) * i128::from(self.nanoseconds())
    }
}
