//! How finely times are counted, where milliseconds are too coarse.

ghost use Rattle.std.specs.Prelude.{◌≡◌, ◌≤◌, ◌-◌, ◌^◌};
ghost use Rattle.instant_texts.specs.Instants.{unit_digits};

/// How finely times are counted, where milliseconds are too coarse.
#[derive(Clone, Copy, Debug, PartialEq, Eq)]
pub enum FineUnit {
    Microseconds,
    Nanoseconds,
}

impl FineUnit {
    /// How many digits behind the point of a second it has.
    pub fn digits(self) -> usize
        ensures says { result ≡ unit_digits self }
        ensures few { result ≤ 9 }
    {
        match self {
            FineUnit::Microseconds => 6,
            FineUnit::Nanoseconds => 9,
        }
    }

    /// How many of it a millisecond has.
    pub(crate) fn of_millisecond(self) -> u32
        ensures says { result ≡ 10 ^ (unit_digits self - 3) }
        ensures few { result ≤ 1_000_000 }
    {
        match self {
            FineUnit::Microseconds => 1_000,
            FineUnit::Nanoseconds => 1_000_000,
        }
    }
}
