//! What a task begins with.

ghost use Rattle.std.specs.Prelude.{◌≡◌, map, replicate, Option, None, [], IfOk};
ghost use Rattle.plain_data.specs.Times.{lowest};
ghost use Rattle.std.specs.List.{All};
ghost use Rattle.window_state.specs.State.{StateData};
ghost use Rattle.window_state.specs.Parts.{IsPartOf};
ghost use Rattle.leg_tasks.specs.Beginning as begins;

use packed_parts::PackedParts;
use plan_model::Plan;
use redistribute::{PartitionStart, TaskStart};
use std::alloc::{AllocError, Global};
use window_state::{HashKeys, WindowState};

/// What a task begins with, beside what it is told.
#[derive(Drop)]
pub struct Opening {
    /// Of a source: how many entries of each of its partitions were read.
    pub offsets: Vec<u64>,
    /// The watermark of each input, or of each of a source's partitions.
    pub marks: Vec<i64>,
    /// Of the window's task: what stands in its windows.
    pub window: Option<WindowState>,
}

fn offsets_of(alloc: Global, partitions: &[PartitionStart]) -> Result<Vec<u64>, AllocError>
    ensures { IfOk result (λ offsets. offsets.items ≡ map (λ b. b.offset) partitions.now) }
{
    let mut offsets = Vec::new(alloc);
    for partition in partitions {
        offsets.push(partition.offset)?;
    }
    Ok(offsets)
}

fn marks_of(alloc: Global, partitions: &[PartitionStart]) -> Result<Vec<i64>, AllocError>
    ensures { IfOk result (λ marks. marks.items ≡ map (λ b. b.watermark) partitions.now) }
{
    let mut marks = Vec::new(alloc);
    for partition in partitions {
        marks.push(partition.watermark)?;
    }
    Ok(marks)
}

/// What a task begins with that has partitions.
fn source_opening(alloc: Global, partitions: &[PartitionStart]) -> Result<Opening, AllocError>
    ensures offsets { IfOk result (λ opening. opening.offsets.items ≡ map (λ b. b.offset) partitions.now) }
    ensures marks { IfOk result (λ opening. opening.marks.items ≡ map (λ b. b.watermark) partitions.now) }
    ensures window { IfOk result (λ opening. opening.window ≡ None) }
{
    Ok(Opening {
        offsets: offsets_of(alloc, partitions)?,
        marks: marks_of(alloc, partitions)?,
        window: None,
    })
}

/// What a task begins with that has so many inputs: their least watermarks, and its windows.
fn other_opening(
    alloc: Global,
    inputs: usize,
    window: Option<WindowState>,
) -> Result<Opening, AllocError>
    ensures offsets { IfOk result (λ opening. opening.offsets.items ≡ []) }
    ensures marks { IfOk result (λ opening. opening.marks.items ≡ replicate inputs lowest) }
    ensures window { IfOk result (λ opening. opening.window ≡ window) }
{
    Ok(Opening {
        offsets: Vec::new(alloc),
        marks: vec![in alloc; i64::MIN; inputs]?,
        window,
    })
}

/// The state of the plan's window operator with these parts in its windows.
fn window_with(
    alloc: Global,
    keys: HashKeys,
    plan: &Plan,
    parts: &PackedParts,
) -> Result<WindowState, AllocError>
    requires { All (IsPartOf plan.now.window) parts.now }
    ensures { IfOk result (λ state. state ≡ begins.window_with plan.now parts.now) }
{
    match WindowState::from_parts(alloc, keys, plan.window(), parts) {
        Ok(state) => Ok(state),
        Err(_) => Err(AllocError),
    }
}

/// What a task of so many inputs begins with that has this part of a start.
pub(crate) fn opening_of(
    alloc: Global,
    keys: HashKeys,
    plan: &Plan,
    inputs: usize,
    start: &TaskStart,
) -> Result<Opening, AllocError>
    requires { All (IsPartOf plan.now.window) (begins.panes_in start.now) }
    ensures offsets { IfOk result (λ opening. opening.offsets.items ≡ begins.offsets_in start.now) }
    ensures marks { IfOk result (λ opening. opening.marks.items ≡ begins.marks_in inputs start.now) }
    ensures window { IfOk result (λ opening. opening.window ≡ begins.window_in plan.now start.now) }
{
    match start {
        TaskStart::Source(partitions) => source_opening(alloc, partitions.as_slice()),
        TaskStart::Chain | TaskStart::Sink => other_opening(alloc, inputs, None),
        TaskStart::Window(parts) => {
            let window = window_with(alloc, keys, plan, parts)?;
            other_opening(alloc, inputs, Some(window))
        }
    }
}
