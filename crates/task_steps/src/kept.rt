//! What a task keeps of itself for a savepoint while it goes on.

ghost use Rattle.std.specs.Prelude.{◌≡◌, IfOk, option_map};
ghost use Rattle.std.specs.FinMap.{entries};
ghost use Rattle.window_state.specs.Parts.{entries_of};
ghost use Rattle.task_steps.specs.Keeping.{kept_value, ArePartsOf};
ghost use Rattle.task_steps.specs.TaskData.{windows_in};

use packed_parts::PackedParts;
use std::alloc::{AllocError, Global};
use window_state::WindowState;

/// How far a source had read its partitions, the watermarks, what stood in the windows, and how many rows the sink had.
#[derive(Drop)]
pub(crate) struct Kept {
    pub(crate) offsets: Vec<u64>,
    pub(crate) marks: Vec<i64>,
    pub(crate) parts: PackedParts,
    pub(crate) rows: u64,
}

/// What stands in the windows of a task, if it has any, in the order of start and key.
pub(crate) fn parts_of(
    alloc: Global,
    window: &Option<WindowState>,
) -> Result<PackedParts, AllocError>
    ensures says { IfOk result (λ parts. entries_of parts ≡ entries (windows_in window.now)) }
    ensures sound { IfOk result (λ parts. ArePartsOf (option_map (λ w. w.window) window.now) parts) }
{
    let Some(window) = window else {
        return Ok(PackedParts::empty(alloc));
    };
    match window.parts(alloc) {
        Ok(parts) => Ok(parts),
        Err(_) => Err(AllocError),
    }
}

impl Kept {
    /// What there is to keep.
    ///
    /// # Errors
    ///
    /// Only where memory runs out.
    pub(crate) fn new(
        alloc: Global,
        offsets: &[u64],
        marks: &[i64],
        window: &Option<WindowState>,
        rows: usize,
    ) -> Result<Kept, AllocError>
        ensures is { IfOk result (λ kept. kept_value kept ≡ record { offsets = offsets.now; marks = marks.now; windows = windows_in window.now; rows = rows }) }
        ensures says { IfOk result (λ kept. entries_of kept.parts ≡ entries (windows_in window.now)) }
        ensures sound { IfOk result (λ kept. ArePartsOf (option_map (λ w. w.window) window.now) kept.parts) }
    {
        Ok(Kept {
            offsets: Vec::from_slice(alloc, offsets)?,
            marks: Vec::from_slice(alloc, marks)?,
            parts: parts_of(alloc, window)?,
            rows: rows as u64,
        })
    }
}
