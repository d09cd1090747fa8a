//! An entry that a source reads.

ghost use Rattle.std.specs.Prelude.{◌≡◌, ◌+◌, ◌≤◌, ◌<◌, ◌++◌, [], OnOk, OnErr, IfOk, filter};
ghost use Rattle.std.specs.List.{All};
ghost use Rattle.std.specs.VecDeque.{deque_len, deque_capacity};
ghost use Rattle.columns.specs.Parts.{with_rows};
ghost use Rattle.plan_model.specs.Windows.{passes};
ghost use Rattle.dataflow_model.specs.Routes as routes;
ghost use Rattle.stream_model.specs.InputData.{rows_in, IsEntryOf};
ghost use Rattle.task_steps.specs.Sending.{IsSplit};
ghost use Rattle.task_steps.specs.Reading.{sends_of};

use crate::pending::{Notice, to_all};
use crate::sending::send;
use crate::setup::Setup;
use columns::Batch;
use dataflow_model::Message;
use filtering::passing;
use plan_model::FilterSpec;
use std::alloc::{AllocError, Global};
use std::collections::VecDeque;
use stream_model::Entry;

/// Makes a watermark pending for every output, if there is one.
pub(crate) fn announce(pending: &mut VecDeque<(u32, Message)>, outputs: u32, low: Option<i64>)
    requires room { deque_len pending.old + outputs ≤ deque_capacity pending.old }
    ensures pending { pending.new.items ≡ pending.old.items ++ routes.announce outputs low }
    ensures capacity { deque_capacity pending.new ≡ deque_capacity pending.old }
{
    if let Some(low) = low {
        to_all(pending, outputs, Notice::Watermark(low));
    }
}

/// The records of a batch that pass all filters, in a batch of their own.
fn copied(alloc: Global, filters: &[FilterSpec], batch: &Batch) -> Result<Batch, AllocError>
    requires { All (λ f. f.column < batch.now.width) filters.now }
    ensures { IfOk result (λ kept. kept ≡ with_rows batch.now (filter (passes filters.now) batch.now.rows)) }
{
    if filters.is_empty() {
        return match batch.copy(alloc) {
            Ok(copy) => Ok(copy),
            Err(_) => Err(AllocError),
        };
    }
    passing(alloc, filters, batch)
}

/// Makes the records of an entry pending that pass the filters. Where no memory is to be had, nothing has changed.
pub(crate) fn send_entry(
    alloc: Global,
    setup: &Setup,
    cursor: &mut u32,
    pending: &mut VecDeque<(u32, Message)>,
    entry: &Entry,
) -> Result<(), AllocError>
    requires idle { pending.old.items ≡ [] }
    requires room { deque_len pending.old + setup.now.outputs ≤ deque_capacity pending.old }
    requires turn { cursor.old < setup.now.outputs }
    requires split { IsSplit setup.now.split setup.now.outputs }
    requires key { setup.now.key < setup.now.columns }
    requires filters { All (λ f. f.column < setup.now.columns) setup.now.filters }
    requires entry { IsEntryOf setup.now.columns setup.now.time entry.now }
    ensures pending { OnOk result (pending.new.items ≡ sends_of setup.now cursor.old entry.now) }
    ensures turn { OnOk result (cursor.new ≡ routes.next_cursor setup.now.outputs cursor.old (filter (passes setup.now.filters) (rows_in entry.now))) }
    ensures kept { OnErr result (pending.new.items ≡ pending.old.items) }
    ensures kept_turn { OnErr result (cursor.new ≡ cursor.old) }
    ensures capacity { deque_capacity pending.new ≡ deque_capacity pending.old }
{
    match entry {
        Entry::Watermark(_) => Ok(()),
        Entry::Rows(batch) => {
            let batch = copied(alloc, setup.filters.as_slice(), batch)?;
            send(
                alloc,
                setup.split,
                setup.outputs,
                setup.key,
                cursor,
                pending,
                batch,
            )
        }
    }
}
