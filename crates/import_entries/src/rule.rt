//! What is asked of the entries of a partition.

ghost use Rattle.std.specs.Prelude.{◌≡◌, ◌<◌, ◌≤◌, ◌⊎◌, MatchOption, Some};
ghost use Rattle.columns.specs.declared.TheConstants.{MOST_ROWS};
ghost use Rattle.import_entries.specs.Rules.{marks_of, aligned_marks, source_marks};

use crate::ends::WindowEnds;
use columns::MOST_ROWS;

/// How far behind the latest a record may come, so that there are watermarks between entries: the greatest time so far
/// less this less 1, and where windows are given the last time of a window that this has reached.
#[derive(Clone, Copy, Debug, PartialEq, Eq)]
pub struct Bound {
    /// How far behind the latest a record may come.
    pub behind: u64,
    /// The windows, where watermarks are rounded down to their ends.
    pub ends: Option<WindowEnds>,
    /// Whether the watermarks stand between the entries: none does where a source makes its own.
    pub stand: bool,
}

/// How many rows an entry has at most, and which watermarks there are.
#[derive(Clone, Copy)]
pub struct EntryRule {
    /// The most rows of an entry: 1 to 4,096.
    pub most_rows: u32,
    /// The watermarks between entries, where there are any.
    pub bound: Option<Bound>,
    pub ghost sized: { (1 ≤ most_rows) × (most_rows ≤ MOST_ROWS) },
}

/// The watermarks with a bound.
fn marks_of(bound: Option<u64>) -> Option<Bound>
    ensures { result ≡ marks_of bound }
{
    match bound {
        Some(bound) => Some(Bound {
            behind: bound,
            ends: None,
            stand: true,
        }),
        None => None,
    }
}

/// The same watermarks, rounded down to the ends of windows.
fn aligned_marks(marks: Option<Bound>, ends: WindowEnds) -> Option<Bound>
    ensures { result ≡ aligned_marks marks ends }
{
    match marks {
        Some(marks) => Some(Bound {
            behind: marks.behind,
            ends: Some(ends),
            stand: marks.stand,
        }),
        None => None,
    }
}

/// The watermarks of a source with this bound, or those that are asked for where it has none.
fn source_marks(bound: Option<i64>, marks: Option<Bound>) -> Option<Bound>
    ensures { result ≡ source_marks bound marks }
{
    match bound {
        Some(bound) => Some(Bound {
            behind: bound.unsigned_abs(),
            ends: None,
            stand: false,
        }),
        None => marks,
    }
}

impl EntryRule {
    /// The rule with these parts, or `None` where entries of so many rows cannot be.
    pub fn new(most_rows: u32, bound: Option<u64>) -> Option<EntryRule>
        ensures { MatchOption result ((most_rows < 1) ⊎ (MOST_ROWS < most_rows)) (λ rule. (rule.most_rows ≡ most_rows) × (rule.bound ≡ marks_of bound)) }
    {
        if most_rows < 1 || most_rows as usize > MOST_ROWS {
            return None;
        }
        Some(EntryRule {
            most_rows,
            bound: marks_of(bound),
        })
    }

    /// The same rule, with each watermark rounded down to the last time of a window.
    pub fn aligned(self, ends: WindowEnds) -> EntryRule
        ensures rows { result.most_rows ≡ self.most_rows }
        ensures marks { result.bound ≡ aligned_marks self.bound ends }
    {
        EntryRule {
            most_rows: self.most_rows,
            bound: aligned_marks(self.bound, ends),
        }
    }

    /// The rule for a source with this bound: where it has one it makes its own watermarks, by that and no other.
    pub fn of_source(self, bound: Option<i64>) -> EntryRule
        ensures rows { result.most_rows ≡ self.most_rows }
        ensures marks { result.bound ≡ source_marks bound self.bound }
    {
        EntryRule {
            most_rows: self.most_rows,
            bound: source_marks(bound, self.bound),
        }
    }
}
