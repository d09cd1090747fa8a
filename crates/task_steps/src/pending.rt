//! Messages made pending, in room that was made before.

ghost use Rattle.std.specs.Prelude.{◌≡◌, ℕ, ◌+◌, ◌*◌, ◌≤◌, ◌<◌, ◌^◌, [], ◌∷◌, ◌++◌, length};
ghost use Rattle.std.specs.VecDeque.{deque_len, deque_capacity};
ghost use Rattle.dataflow_model.specs.Routes as routes;
ghost use Rattle.task_steps.specs.Pending.{message_of, numbered};

use columns::Batch;
use dataflow_model::Message;
use std::collections::VecDeque;

/// A message that goes to every output.
#[derive(Clone, Copy, Debug)]
pub(crate) enum Notice {
    Watermark(i64),
    Barrier(u64),
    End,
}

fn message(notice: Notice) -> Message
    ensures { result ≡ message_of notice }
{
    match notice {
        Notice::Watermark(t) => Message::Watermark(t),
        Notice::Barrier(n) => Message::Barrier(n),
        Notice::End => Message::End,
    }
}

/// Makes a message pending for every output.
pub(crate) fn to_all(pending: &mut VecDeque<(u32, Message)>, outputs: u32, notice: Notice)
    requires room { deque_len pending.old + outputs ≤ deque_capacity pending.old }
    ensures pending { pending.new.items ≡ pending.old.items ++ routes.to_all outputs (message_of notice) }
    ensures capacity { deque_capacity pending.new ≡ deque_capacity pending.old }
{
    for output in 0..outputs {
        pending.push_back_reserved((output, message(notice)));
    }
}

/// Makes pieces pending, each for its own output, but for empty ones.
pub(crate) fn to_each(pending: &mut VecDeque<(u32, Message)>, pieces: Vec<Batch>)
    requires room { deque_len pending.old + length pieces.items ≤ deque_capacity pending.old }
    requires few { length pieces.items < 2 ^ 32 }
    ensures pending { pending.new.items ≡ pending.old.items ++ numbered 0 pieces.items }
    ensures capacity { deque_capacity pending.new ≡ deque_capacity pending.old }
{
    let mut output: u32 = 0;
    for piece in pieces {
        if !piece.is_empty() {
            pending.push_back_reserved((output, Message::Rows(piece)));
        }
        output += 1;
    }
}
