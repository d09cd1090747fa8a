//! Laws of the definitions, each the contract of a function that does nothing.

ghost use Rattle.window_slices.specs.Laws.{SlicesStartAtBoundaries, SlicesEndAtBoundaries, WindowsHaveWholeSlices, WindowsAreTheirSlices};

use plan_model::laws::{aggregates_ignore_order, aggregates_merge};

/// The slice of a time starts at a start or an end of a window that is at most the time, and none lies between the two.
pub fn slices_start_at_boundaries()
    ensures { SlicesStartAtBoundaries }
{}

/// A slice ends at the next start or end of a window.
pub fn slices_end_at_boundaries()
    ensures { SlicesEndAtBoundaries }
{}

/// A window has a time just where it has the start of the time's slice, whether the slide divides the size or not, is
/// longer than it or shorter, and wherever windows are offset to.
pub fn windows_have_whole_slices()
    ensures { WindowsHaveWholeSlices }
{}

/// What the records of a window and a key come to is what its slices come to, merged in any order.
pub fn windows_are_their_slices()
    ensures { WindowsAreTheirSlices }
{
    let _merge = aggregates_merge();
    let _order = aggregates_ignore_order();
}
