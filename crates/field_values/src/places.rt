//! How many decimal places are kept.

ghost use Rattle.std.specs.Prelude.{◌≡◌, ◌≤◌, SomeIff};

use std::marker::Model;

/// The most decimal places that a number of 64 bits has room for.
pub const MOST_PLACES: u32 = 18;

/// How many decimal places of a number are kept: 0 to 18.
#[derive(Clone, Copy, Debug, PartialEq, Eq)]
pub struct Places {
    count: u32,
}

impl Model for Places {
    ghost use Rattle.std.specs.Prelude.{ℕ, ◌≤◌};
    ghost use Rattle.field_values.specs.declared.places.TheConstants.{MOST_PLACES};

    ghost Value = { ℕ };

    ghost view = { λ places. places.count };

    ghost invariant = { λ places. places.count ≤ MOST_PLACES };

    ghost inverse = { λ n. record { count = n } };
}

impl Places {
    /// None, as for whole numbers.
    pub const WHOLE: Places = Places { count: 0 };

    /// So many places, or `None` where there are more than 18.
    pub fn new(count: u32) -> Option<Places>
        ensures { SomeIff result (count ≤ MOST_PLACES) count }
    {
        if count > MOST_PLACES {
            return None;
        }
        Some(Places { count })
    }

    /// The number of places.
    pub fn get(self) -> u32
        ensures says { result ≡ self }
        ensures small { self ≤ MOST_PLACES }
    {
        self.count
    }
}
