//! Records that a task sends on: filtered, and made pending by the task's edge.

ghost use Rattle.std.specs.Prelude.{◌≡◌, ℕ, suc, ◌+◌, ◌≤◌, ◌<◌, ◌^◌, [], length, IfOk, OnOk, OnErr, filter, nat_lt, if◌then◌else◌, Some};
ghost use Rattle.std.specs.List.{All};
ghost use Rattle.std.specs.VecDeque.{deque_len, deque_capacity};
ghost use Rattle.columns.specs.Parts.{with_rows};
ghost use Rattle.plan_model.specs.Windows.{passes};
ghost use Rattle.dataflow_model.specs.Routes.{next_cursor};
ghost use Rattle.task_steps.specs.Sending.{sends, IsSplit};

use crate::pending::to_each;
use crate::setup::{Setup, Split};
use columns::Batch;
use dataflow_model::Message;
use filtering::passing;
use key_dealing::pieces_of;
use plan_model::FilterSpec;
use std::alloc::{AllocError, Global};
use std::collections::VecDeque;

/// The records that pass all filters. Without filters nothing is copied.
fn passed(alloc: Global, filters: &[FilterSpec], batch: Batch) -> Result<Batch, AllocError>
    requires { All (λ f. f.column < batch.width) filters.now }
    ensures { IfOk result (λ rest. rest ≡ with_rows batch (filter (passes filters.now) batch.rows)) }
{
    if filters.is_empty() {
        return Ok(batch);
    }
    passing(alloc, filters, &batch)
}

/// The output of the batch after this one, where whole batches go to the outputs in turn.
fn next_turn(cursor: u32, outputs: u32) -> u32
    requires { cursor < outputs }
    ensures { result ≡ (if nat_lt (suc cursor) outputs then suc cursor else 0) }
{
    if cursor + 1 < outputs { cursor + 1 } else { 0 }
}

/// Makes records pending, each for the output that owns its key.
fn send_dealt(
    alloc: Global,
    split: Split,
    key: u32,
    pending: &mut VecDeque<(u32, Message)>,
    batch: &Batch,
) -> Result<(), AllocError>
    requires idle { pending.old.items ≡ [] }
    requires room { deque_len pending.old + split.par ≤ deque_capacity pending.old }
    requires fits { split.par ≤ split.max }
    requires key { key < batch.now.width }
    ensures pending { OnOk result (pending.new.items ≡ sends (Some split) split.par key 0 batch.now) }
    ensures kept { OnErr result (pending.new.items ≡ pending.old.items) }
    ensures capacity { deque_capacity pending.new ≡ deque_capacity pending.old }
{
    let max = split.max;
    let par = split.par;
    let _subtasks = par.get();
    let pieces = pieces_of(alloc, max, par, key, batch)?;
    to_each(pending, pieces);
    Ok(())
}

/// Makes records pending, each for the output that owns its key. Those for one output are moved.
pub(crate) fn send_split(
    alloc: Global,
    split: Split,
    key: u32,
    pending: &mut VecDeque<(u32, Message)>,
    batch: Batch,
) -> Result<(), AllocError>
    requires idle { pending.old.items ≡ [] }
    requires room { deque_len pending.old + split.par ≤ deque_capacity pending.old }
    requires fits { split.par ≤ split.max }
    requires key { key < batch.width }
    requires some { batch.rows ≡ [] → ⊥ }
    ensures pending { OnOk result (pending.new.items ≡ sends (Some split) split.par key 0 batch) }
    ensures kept { OnErr result (pending.new.items ≡ pending.old.items) }
    ensures capacity { deque_capacity pending.new ≡ deque_capacity pending.old }
{
    let _groups = split.max.get();
    if split.par.get() == 1 {
        pending.push_back_reserved((0, Message::Rows(batch)));
        return Ok(());
    }
    send_dealt(alloc, split, key, pending, &batch)
}

/// Makes records pending that have passed the filters. Where no memory is to be had, nothing has changed.
pub(crate) fn send(
    alloc: Global,
    split: Option<Split>,
    outputs: u32,
    key: u32,
    cursor: &mut u32,
    pending: &mut VecDeque<(u32, Message)>,
    batch: Batch,
) -> Result<(), AllocError>
    requires idle { pending.old.items ≡ [] }
    requires room { deque_len pending.old + outputs ≤ deque_capacity pending.old }
    requires turn { cursor.old < outputs }
    requires split { IsSplit split outputs }
    requires key { key < batch.width }
    ensures pending { OnOk result (pending.new.items ≡ sends split outputs key cursor.old batch) }
    ensures turn { OnOk result (cursor.new ≡ next_cursor outputs cursor.old batch.rows) }
    ensures kept { OnErr result (pending.new.items ≡ pending.old.items) }
    ensures kept_turn { OnErr result (cursor.new ≡ cursor.old) }
    ensures capacity { deque_capacity pending.new ≡ deque_capacity pending.old }
{
    if batch.is_empty() {
        return Ok(());
    }
    match split {
        None => pending.push_back_reserved((*cursor, Message::Rows(batch))),
        Some(split) => send_split(alloc, split, key, pending, batch)?,
    }
    *cursor = next_turn(*cursor, outputs);
    Ok(())
}

/// Records filtered and made pending. Where no memory is to be had, nothing has changed.
pub(crate) fn records_through(
    alloc: Global,
    setup: &Setup,
    cursor: &mut u32,
    pending: &mut VecDeque<(u32, Message)>,
    batch: Batch,
) -> Result<(), AllocError>
    requires idle { pending.old.items ≡ [] }
    requires room { setup.now.outputs ≤ deque_capacity pending.old }
    requires turn { cursor.old < setup.now.outputs }
    requires split { IsSplit setup.now.split setup.now.outputs }
    requires key { setup.now.key < batch.width }
    requires filters { All (λ f. f.column < batch.width) setup.now.filters }
    ensures pending { OnOk result (pending.new.items ≡ sends setup.now.split setup.now.outputs setup.now.key cursor.old (with_rows batch (filter (passes setup.now.filters) batch.rows))) }
    ensures turn { OnOk result (cursor.new ≡ next_cursor setup.now.outputs cursor.old (filter (passes setup.now.filters) batch.rows)) }
    ensures kept { OnErr result (pending.new.items ≡ pending.old.items) }
    ensures kept_turn { OnErr result (cursor.new ≡ cursor.old) }
    ensures capacity { deque_capacity pending.new ≡ deque_capacity pending.old }
{
    let batch = passed(alloc, setup.filters.as_slice(), batch)?;
    send(
        alloc,
        setup.split,
        setup.outputs,
        setup.key,
        cursor,
        pending,
        batch,
    )
}
