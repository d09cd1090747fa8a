//! Watermarks at the ends of windows.

ghost use Rattle.std.specs.Prelude.{◌≡◌, ◌^◌, ◌≤ℤ◌, ◌<ℤ◌, pos, ℤ};
ghost use Rattle.std.specs.Int.{int_rem_euclid};
ghost use Rattle.plan_model.specs.Windows.{IsStartOf, IsWindowOf};
ghost use Rattle.plan_model.specs.Rows.{is_due};
ghost use Rattle.plan_model.specs.declared.spec.WindowSpec.{WindowSpec};
ghost use Rattle.stream_model.specs.Late.{is_late_time};
ghost use Rattle.import_entries.specs.Ends.{distance, last_end, AreEndsOf};

use crate::ends::WindowEnds;

/// How far a watermark is from the last time of the window that begins at the offset.
fn distance(ends: WindowEnds, mark: i64) -> i128
    ensures { result ≡ distance ends mark }
{
    i128::from(mark) - i128::from(ends.offset) - i128::from(ends.size) + 1
}

/// How far it is ahead of the last such time of a window.
fn ahead(ends: WindowEnds, mark: i64) -> i128
    ensures value { result ≡ int_rem_euclid (distance ends mark) ends.slide }
    ensures low { pos 0 ≤ℤ result }
    ensures high { result <ℤ pos (2 ^ 63) }
{
    distance(ends, mark).rem_euclid(i128::from(ends.slide))
}

/// The last time of a window, its end less 1, that a watermark has reached.
#[tactic(auto, unfolding(crate::specs::Ends::last_end))]
fn last_end(ends: WindowEnds, mark: i64) -> i128
    ensures { result ≡ last_end ends mark }
{
    i128::from(mark) - ahead(ends, mark)
}

/// A watermark that is rounded down to the last time of a window: just the same windows are due, and of windows that do
/// not overlap a time is late behind it just where its window is due.
pub fn rounded(ends: WindowEnds, mark: i64) -> i128
    ensures value { result ≡ last_end ends mark }
    ensures same { (w : WindowSpec) → AreEndsOf w ends → (s : ℤ) → IsStartOf w s → is_due w result s ≡ is_due w mark s }
    ensures late { (w : WindowSpec) → AreEndsOf w ends → w.size ≡ w.slide → (t s : ℤ) → IsWindowOf w t s → is_late_time result t ≡ is_due w mark s }
{
    last_end(ends, mark)
}
