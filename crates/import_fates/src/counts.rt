//! How many records went where.

use crate::fate::Fate;

/// How many records went where. A count that would not fit stays at its greatest.
#[derive(Clone, Copy, Debug, PartialEq, Eq)]
pub struct FateCounts {
    /// Those that are rows of the input.
    pub written: u64,
    /// Those that are late.
    pub late: u64,
    /// Those that are there twice.
    pub twice: u64,
    /// Those that give no row.
    pub bad: u64,
}

impl FateCounts {
    ghost use Rattle.std.specs.Prelude.{◌≡◌, ◌<◌, ◌^◌, List, [], ◌∷◌, length};
    ghost use Rattle.import_fates.specs.declared.fate.Fate.{Fate};
    ghost use Rattle.import_fates.specs.Counts.{counts_of};

    /// Before any record.
    pub fn new() -> FateCounts
        ensures { result ≡ counts_of [] }
    {
        FateCounts {
            written: 0,
            late: 0,
            twice: 0,
            bad: 0,
        }
    }

    /// Counts one more record.
    pub fn add(&mut self, fate: Fate)
        ensures { (fates : List Fate) → self.old ≡ counts_of fates → self.new ≡ counts_of (fate ∷ fates) }
    {
        match fate {
            Fate::Written => self.written = self.written.saturating_add(1),
            Fate::Late => self.late = self.late.saturating_add(1),
            Fate::Twice => self.twice = self.twice.saturating_add(1),
            Fate::Bad => self.bad = self.bad.saturating_add(1),
        }
    }

    /// How many records there are.
    pub fn records(&self) -> u64
        ensures { (fates : List Fate) → self.now ≡ counts_of fates → length fates < 2 ^ 64 → result ≡ length fates }
    {
        self.written
            .saturating_add(self.late)
            .saturating_add(self.twice)
            .saturating_add(self.bad)
    }
}
