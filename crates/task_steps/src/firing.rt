//! Windows that fire once the least watermark rises.

ghost use Rattle.std.specs.Prelude.{◌≡◌, ◌+◌, ◌≤◌, ◌<◌, ◌++◌, [], OnOk, OnErr};
ghost use Rattle.std.specs.VecDeque.{deque_len, deque_capacity};
ghost use Rattle.dataflow_model.specs.Routes.{fired};
ghost use Rattle.task_steps.specs.Firing.{FiresHere};

use crate::pending::{Notice, to_all};
use dataflow_model::Message;
use plain_data::Items;
use plan_model::{Having, Row};
use std::collections::VecDeque;
use window_state::{StateFault, WindowState, keep_rows};

/// Makes fired rows pending for the one output, unless there are none.
fn send_rows(pending: &mut VecDeque<(u32, Message)>, rows: Vec<Row>)
    requires room { deque_len pending.old < deque_capacity pending.old }
    ensures pending { pending.new.items ≡ pending.old.items ++ fired rows.items }
    ensures capacity { deque_capacity pending.new ≡ deque_capacity pending.old }
    ensures len { deque_len pending.new ≤ deque_len pending.old + 1 }
{
    if !rows.is_empty() {
        pending.push_back_reserved((0, Message::Fired(Items::from_vec(rows))));
    }
}

/// Fires what is due by the new least watermark, if it rose: the rows that the conditions keep and the
/// watermark are made pending. Where no memory is to be had, nothing has changed.
pub(crate) fn fire_at(
    window: &mut WindowState,
    having: &[Having],
    pending: &mut VecDeque<(u32, Message)>,
    outputs: u32,
    low: Option<i64>,
) -> Result<(), StateFault>
    requires idle { pending.old.items ≡ [] }
    requires room { outputs + 1 ≤ deque_capacity pending.old }
    requires having { having.now ≡ window.old.window.having }
    ensures fires { OnOk result (FiresHere low window.old window.new outputs pending.new.items) }
    ensures kept { OnErr result (pending.new.items ≡ pending.old.items) }
    ensures same { OnErr result (window.new ≡ window.old) }
    ensures capacity { deque_capacity pending.new ≡ deque_capacity pending.old }
{
    let Some(low) = low else {
        return Ok(());
    };
    let mut rows = window.fire(low)?;
    keep_rows(having, &mut rows);
    send_rows(pending, rows);
    to_all(pending, outputs, Notice::Watermark(low));
    Ok(())
}
