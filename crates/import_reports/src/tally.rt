//! What is known of the rows of a file.

ghost use Rattle.std.specs.Prelude.{◌≡◌, ℤ, List, [], ◌∷◌, ◌++◌, Some};
ghost use Rattle.lane_kernels.specs.Compare.{least_of, greatest_of};
ghost use Rattle.import_reports.specs.Tallies.{tally_of};

/// What is known of the rows of a file.
#[derive(Clone, Copy, Debug, PartialEq, Eq)]
pub struct Tally {
    /// The least time, if there is a row.
    pub first: Option<i64>,
    /// The greatest time, if there is a row.
    pub last: Option<i64>,
}

/// The least time with one more.
fn less(before: Option<i64>, time: i64) -> i64
    ensures { (times : List ℤ) → before ≡ least_of times → Some result ≡ least_of (times ++ time ∷ []) }
{
    match before {
        Some(least) if least < time => least,
        _ => time,
    }
}

/// The greatest time with one more.
fn greater(before: Option<i64>, time: i64) -> i64
    ensures { (times : List ℤ) → before ≡ greatest_of times → Some result ≡ greatest_of (times ++ time ∷ []) }
{
    match before {
        Some(greatest) if greatest > time => greatest,
        _ => time,
    }
}

impl Tally {
    /// Before any row.
    pub fn new() -> Tally
        ensures { result ≡ tally_of [] }
    {
        Tally {
            first: None,
            last: None,
        }
    }

    /// Takes in one more row, by its time.
    pub fn add(&mut self, time: i64)
        ensures { (times : List ℤ) → self.old ≡ tally_of times → self.new ≡ tally_of (times ++ time ∷ []) }
    {
        self.first = Some(less(self.first, time));
        self.last = Some(greater(self.last, time));
    }
}
