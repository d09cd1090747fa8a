//! Calls of a window state.

ghost use Rattle.std.specs.Prelude.{◌≡◌, ◌<◌, [], IsTrue, IfOk, false};
ghost use Rattle.std.specs.FinMap as map;
ghost use Rattle.std.specs.List.{All};
ghost use Rattle.plain_data.specs.Record.{at};
ghost use Rattle.plan_model.specs.Windows.{IsTime};
ghost use Rattle.window_state.specs.Windows.{IsOperator, CanAggregate};

use crate::telling::{answered, begins, left, refused};
use crate::texts::text_of_fired;
use columns::Batch;
use job_texts::JobFault;
use plan_model::{Plan, WindowSpec};
use std::alloc::Global;
use stream_model::{Entry, Input};
use window_state::{HashKeys, StateFault, WindowState};

/// A watermark by which some of the windows fire, and not all.
const WATERMARK: i64 = 14;

/// The first entry of an input, if it has rows.
fn first_rows(input: &Input) -> Option<&Batch> {
    let source = input.sources().first()?;
    let partition = source.as_slice().first()?;
    match &partition.as_slice().first()?.entry {
        Entry::Rows(batch) => Some(batch),
        Entry::Watermark(_) => None,
    }
}

/// Whether all times of a batch are in range.
fn has_times(batch: &Batch, time: u32) -> bool
    requires { time < batch.now.width }
    ensures { IsTrue result → All (λ r. IsTime (at time r)) batch.now.rows }
{
    plan_model::are_times(batch.column(time as usize))
}

/// Whether a batch can be brought into the windows of a plan.
fn fits(plan: &Plan, batch: &Batch) -> bool
    ensures window { IsTrue result → CanAggregate batch.now.width plan.now.window }
    ensures times { IsTrue result → All (λ r. IsTime (at plan.now.window.time r)) batch.now.rows }
{
    batch.width() == plan.columns() as usize && has_times(batch, plan.window().time)
}

/// A batch without rows, of as many columns.
fn without_rows(alloc: Global, batch: &Batch) -> Result<Batch, JobFault>
    ensures { IfOk result (λ none. none ≡ record { width = batch.now.width; rows = [] }) }
{
    match Batch::from_rows(alloc, &[], batch.width()) {
        Ok(none) => Ok(none),
        Err(_) => Err(JobFault::Memory),
    }
}

/// A new state.
fn new_state(alloc: Global, keys: HashKeys, window: &WindowSpec) -> Result<WindowState, JobFault>
    requires { IsOperator window.now }
    ensures { IfOk result (λ state. state ≡ record { window = window.now; windows = map.empty; has_failed = false }) }
{
    match WindowState::new(alloc, keys, window) {
        Ok(state) => Ok(state),
        Err(_) => Err(JobFault::Memory),
    }
}

/// What stands in the panes of a state that is whole.
fn text_of_parts(alloc: Global, state: &WindowState) -> Result<String, JobFault> {
    match state.parts(alloc) {
        Ok(parts) => Ok(format!(in alloc; "{parts:?}")?),
        Err(_) => Err(JobFault::Memory),
    }
}

/// Brings a batch into a new state.
fn fill(state: &mut WindowState, window: &WindowSpec, batch: &Batch) -> Result<(), StateFault>
    requires new { state.old ≡ record { window = window.now; windows = map.empty; has_failed = false } }
    requires window { CanAggregate batch.now.width window.now }
    requires times { All (λ r. IsTime (at window.now.time r)) batch.now.rows }
    ensures { state.new.window ≡ window.now }
{
    state.add(batch)
}

/// A state with the rows of a batch.
fn filled(
    alloc: Global,
    keys: HashKeys,
    window: &WindowSpec,
    batch: &Batch,
) -> Result<WindowState, JobFault>
    requires window { CanAggregate batch.now.width window.now }
    requires times { All (λ r. IsTime (at window.now.time r)) batch.now.rows }
{
    let mut state = new_state(alloc, keys, window)?;
    match fill(&mut state, window, batch) {
        Ok(()) => Ok(state),
        Err(_) => Err(JobFault::Memory),
    }
}

/// Fires the windows of a state. Where that is refused, the panes are as before.
fn fire<R: Print + AllocGlobal>(rt: &R, state: &mut WindowState) -> Result<(), JobFault> {
    let alloc = rt.alloc();
    let before = text_of_parts(alloc, state)?;
    for _ in 0..2 {
        begins(rt, "fire")?;
        match state.fire(WATERMARK) {
            Ok(rows) => {
                let parts = text_of_parts(alloc, state)?;
                return answered(rt, text_of_fired(alloc, &rows, &parts)?.as_str());
            }
            Err(fault) => {
                refused(rt, &fault)?;
                let is_same = text_of_parts(alloc, state)? == before;
                left(rt, "the panes are as before", is_same)?;
            }
        }
    }
    Ok(())
}

/// Whether each call of a state is refused since an earlier one found no memory.
fn has_failed(alloc: Global, state: &mut WindowState, none: &Batch) -> bool
    requires window { CanAggregate none.now.width state.old.window }
    requires none { none.now.rows ≡ [] }
{
    let adds = state.add(none);
    let fires = state.fire(WATERMARK);
    let parts = state.parts(alloc);
    adds.err() == Some(StateFault::Failed)
        && fires.err() == Some(StateFault::Failed)
        && parts.err() == Some(StateFault::Failed)
}

/// Brings a batch into a new state, and tells whether that has answered. Where it is refused, so is each later call of
/// the state.
fn add_once<R: Print + AllocGlobal>(
    rt: &R,
    keys: HashKeys,
    window: &WindowSpec,
    batch: &Batch,
    none: &Batch,
) -> Result<bool, JobFault>
    requires window { CanAggregate batch.now.width window.now }
    requires times { All (λ r. IsTime (at window.now.time r)) batch.now.rows }
    requires width { none.now.width ≡ batch.now.width }
    requires none { none.now.rows ≡ [] }
{
    let alloc = rt.alloc();
    let mut state = new_state(alloc, keys, window)?;
    begins(rt, "add")?;
    match fill(&mut state, window, batch) {
        Ok(()) => {
            answered(rt, text_of_parts(alloc, &state)?.as_str())?;
            Ok(true)
        }
        Err(fault) => {
            refused(rt, &fault)?;
            let is_over = has_failed(alloc, &mut state, none);
            left(rt, "each later call is refused", is_over)?;
            Ok(false)
        }
    }
}

/// Fires the windows of the rows of an input's first entry.
pub(crate) fn fire_calls<R: Print + AllocGlobal>(
    rt: &R,
    keys: HashKeys,
    plan: &Plan,
    input: &Input,
) -> Result<(), JobFault> {
    let Some(batch) = first_rows(input) else {
        return Ok(());
    };
    if !fits(plan, batch) {
        return Ok(());
    }
    let mut state = filled(rt.alloc(), keys, plan.window(), batch)?;
    fire(rt, &mut state)
}

/// Brings the rows of an input's first entry into windows.
pub(crate) fn add_calls<R: Print + AllocGlobal>(
    rt: &R,
    keys: HashKeys,
    plan: &Plan,
    input: &Input,
) -> Result<(), JobFault> {
    let Some(batch) = first_rows(input) else {
        return Ok(());
    };
    if !fits(plan, batch) {
        return Ok(());
    }
    let window = plan.window();
    let none = without_rows(rt.alloc(), batch)?;
    if !add_once(rt, keys, window, batch, &none)? {
        add_once(rt, keys, window, batch, &none)?;
    }
    Ok(())
}
