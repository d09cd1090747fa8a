//! What is known of the rows of a partition so far.

ghost use Rattle.std.specs.Prelude.{◌≡◌, ◌<◌, ◌≤◌, ◌^◌, ◌-ℤ◌, ◌≤ℤ◌, ◌⊎◌, pos, neg_ℤ, IsTrue, SomeIff, ◌∷◌, ◌++◌, [], ℤ, List, ℕ, Some};
ghost use Rattle.lane_kernels.specs.Compare.{greatest_of};
ghost use Rattle.plan_model.specs.Windows.{is_time};
ghost use Rattle.import_entries.specs.Entries.{progress_of, reached, timely, mark_said, standing_said, late_said, IsPlaced};

use crate::ends::WindowEnds;
use crate::place::{Place, PlaceFault};
use crate::rounding::rounded;
use crate::rule::{Bound, EntryRule};
use plan_model::is_time;
use stream_model::is_late_time;

/// What is known of the rows of a partition so far.
#[derive(Clone, Copy, Debug, PartialEq, Eq)]
pub struct Progress {
    /// How many rows the last entry has.
    rows: u32,
    /// The greatest time.
    latest: Option<i64>,
    /// The greatest time of the entries before the last.
    closed: Option<i64>,
}

/// The time so far below the latest, where 64 bits hold it.
fn behind(latest: i64, bound: u64) -> Option<i64>
    ensures { SomeIff result (neg_ℤ (pos (2 ^ 63)) ≤ℤ ((latest -ℤ pos bound) -ℤ pos 1)) ((latest -ℤ pos bound) -ℤ pos 1) }
{
    latest.checked_sub_unsigned(bound)?.checked_sub(1)
}

/// The last time of a window that a watermark has reached, where that is asked for.
fn reached(ends: Option<WindowEnds>, mark: i64) -> i128
    ensures { result ≡ reached ends mark }
{
    match ends {
        Some(ends) => rounded(ends, mark),
        None => i128::from(mark),
    }
}

/// A watermark that is a time. One below all times says nothing, and is left out.
fn timely(mark: i128) -> Option<i64>
    ensures { result ≡ timely mark }
{
    if mark < i128::from(i64::MIN) || mark > i128::from(i64::MAX) {
        return None;
    }
    let mark = mark as i64;
    if is_time(mark) { Some(mark) } else { None }
}

/// The watermark behind rows with this greatest time, by a rule.
fn mark_by(rule: Bound, latest: i64) -> Option<i64>
    ensures { result ≡ timely (reached rule.ends ((latest -ℤ pos rule.behind) -ℤ pos 1)) }
{
    match behind(latest, rule.behind) {
        Some(mark) => timely(reached(rule.ends, mark)),
        None => None,
    }
}

/// The watermark behind rows with this greatest time, where there are watermarks.
fn mark(marks: Option<Bound>, greatest: Option<i64>) -> Option<i64>
    ensures { result ≡ mark_said marks greatest }
{
    mark_by(marks?, greatest?)
}

/// The watermark that stands before the next entry, by a rule.
fn standing(marks: Option<Bound>, mark: Option<i64>) -> Option<i64>
    ensures { result ≡ standing_said marks mark }
{
    if marks?.stand { mark } else { None }
}

/// The greatest time with one more.
fn greater(before: Option<i64>, time: i64) -> i64
    ensures { (times : List ℤ) → before ≡ greatest_of times → Some result ≡ greatest_of (times ++ time ∷ []) }
{
    match before {
        Some(greatest) if greatest > time => greatest,
        _ => time,
    }
}

/// Why a row with this time goes nowhere behind such a watermark, if it does not.
fn late(mark: Option<i64>, time: i64) -> Option<PlaceFault>
    ensures { result ≡ late_said mark time }
{
    match mark {
        Some(mark) if is_late_time(mark, time) => Some(PlaceFault::Late(time, mark)),
        _ => None,
    }
}

impl Progress {
    /// Before any row.
    #[tactic(auto, unfolding(crate::specs::Entries::progress_of, crate::specs::Entries::closed_times, crate::specs::Entries::open_rows))]
    pub fn new() -> Progress
        ensures { (n : ℕ) → result ≡ progress_of n [] }
    {
        Progress {
            rows: 0,
            latest: None,
            closed: None,
        }
    }

    /// Puts the next row into the last entry.
    fn join(&mut self, rule: EntryRule, time: i64) -> Result<Place, PlaceFault>
        requires some { 0 < self.old.rows }
        requires room { self.old.rows < rule.most_rows }
        requires time { IsTrue (is_time time) }
        ensures { (times : List ℤ) → self.old ≡ progress_of rule.most_rows times → IsPlaced rule.most_rows rule.bound times time self.old self.new result }
    {
        if let Some(fault) = late(mark(rule.bound, self.closed), time) {
            return Err(fault);
        }
        *self = Progress {
            rows: self.rows + 1,
            latest: Some(greater(self.latest, time)),
            closed: self.closed,
        };
        Ok(Place::Joins)
    }

    /// Begins an entry with the next row.
    fn begin(&mut self, rule: EntryRule, time: i64) -> Result<Place, PlaceFault>
        requires full { (self.old.rows ≡ 0) ⊎ (rule.most_rows ≤ self.old.rows) }
        requires time { IsTrue (is_time time) }
        ensures { (times : List ℤ) → self.old ≡ progress_of rule.most_rows times → IsPlaced rule.most_rows rule.bound times time self.old self.new result }
    {
        let mark = mark(rule.bound, self.latest);
        if let Some(fault) = late(mark, time) {
            return Err(fault);
        }
        *self = Progress {
            rows: 1,
            latest: Some(greater(self.latest, time)),
            closed: self.latest,
        };
        Ok(Place::Begins(standing(rule.bound, mark)))
    }

    /// Where the next row goes, by its time. It is then one of the rows.
    ///
    /// # Errors
    ///
    /// `Range`, then `Late`. Nothing is changed then.
    #[tactic(auto, unfolding(crate::specs::Entries::place_fault))]
    pub fn place(&mut self, rule: EntryRule, time: i64) -> Result<Place, PlaceFault>
        ensures { (times : List ℤ) → self.old ≡ progress_of rule.most_rows times → IsPlaced rule.most_rows rule.bound times time self.old self.new result }
    {
        if !is_time(time) {
            return Err(PlaceFault::Range);
        }
        if self.rows > 0 && self.rows < rule.most_rows {
            return self.join(rule, time);
        }
        self.begin(rule, time)
    }
}
