//! Where the slice of a time starts, and where a slice ends.

ghost use Rattle.std.specs.Prelude.{◌≡◌, ◌≤ℤ◌, ◌<ℤ◌, ◌-ℤ◌, ◌*ℤ◌, neg_ℤ, pos, true, IfSome};
ghost use Rattle.std.specs.Int.{int_rem_euclid};
ghost use Rattle.plan_model.specs.PlanData.{IsWindow};
ghost use Rattle.plan_model.specs.Windows.{IsTime, is_start};
ghost use Rattle.plan_model.specs.declared.limits.TheConstants.{TIME_LIMIT, LONGEST_WINDOW};
ghost use Rattle.window_slices.specs.Slices as slices;

use plan_model::WindowSpec;

/// The last start of a window that is at most a number.
fn last_start_by(window: &WindowSpec, number: i64) -> i64
    requires window { IsWindow window.now }
    requires above { (neg_ℤ TIME_LIMIT -ℤ pos 2 *ℤ LONGEST_WINDOW) ≤ℤ number }
    requires below { number <ℤ TIME_LIMIT }
    ensures value { result ≡ slices.last_start_by window.now number }
    ensures behind { (number -ℤ LONGEST_WINDOW) ≤ℤ result }
    ensures reached { result ≤ℤ number }
{
    number - (number - window.offset).rem_euclid(window.slide)
}

/// The last end of a window that is at most a number.
fn last_end_by(window: &WindowSpec, number: i64) -> i64
    requires window { IsWindow window.now }
    requires above { (neg_ℤ TIME_LIMIT -ℤ LONGEST_WINDOW) ≤ℤ number }
    requires below { number <ℤ TIME_LIMIT }
    ensures value { result ≡ slices.last_end_by window.now number }
    ensures behind { (number -ℤ LONGEST_WINDOW) ≤ℤ result }
    ensures reached { result ≤ℤ number }
{
    last_start_by(window, number - window.size) + window.size
}

/// The last start of a window that is at most a time, where a window begins at `start`. Mostly that is the one, and
/// nothing is divided: a division of 64 bits can take longer than all else that is done to a record.
fn last_start_from(window: &WindowSpec, time: i64, start: Option<i64>) -> i64
    requires window { IsWindow window.now }
    requires time { IsTime time }
    requires start { IfSome start (λ s. is_start window.now s ≡ true) }
    ensures { result ≡ slices.last_start_by window.now time }
{
    if let Some(start) = start {
        if let Some(back) = time.checked_sub(start) {
            if 0 <= back && back < window.slide {
                return start;
            }
        }
    }
    last_start_by(window, time)
}

/// How far the last window of a time begins before it. A window begins at `start`, and then the last one of the time
/// does.
pub fn back_to_start(window: &WindowSpec, time: i64, start: &mut Option<i64>) -> u64
    requires window { IsWindow window.now }
    requires time { IsTime time }
    requires start { IfSome start.old (λ s. is_start window.now s ≡ true) }
    ensures back { int_rem_euclid (time -ℤ window.now.offset) window.now.slide ≡ pos result }
    ensures start { IfSome start.new (λ s. is_start window.now s ≡ true) }
{
    let last = last_start_from(window, time, *start);
    *start = Some(last);
    (time - last) as u64
}

/// Where the slice of a time starts: at the last start or end of a window that is at most the time.
pub fn slice_of(window: &WindowSpec, time: i64) -> i64
    requires window { IsWindow window.now }
    requires time { IsTime time }
    ensures value { result ≡ slices.slice_start window.now time }
    ensures start { slices.IsSliceStart result }
{
    last_start_by(window, time).max(last_end_by(window, time))
}

/// Where the slice that starts at a boundary ends: at the next start or end of a window.
pub fn slice_end(window: &WindowSpec, start: i64) -> i64
    requires window { IsWindow window.now }
    requires start { slices.IsSliceStart start }
    ensures { result ≡ slices.slice_end window.now start }
{
    last_start_by(window, start).min(last_end_by(window, start)) + window.slide
}
