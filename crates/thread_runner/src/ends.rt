//! The two ends of a ring.

ghost use Rattle.std.specs.Prelude.{◌≤◌};
ghost use Rattle.rtrb.specs.Ring.{consumer_capacity};

use dataflow_model::Message;
use rtrb::{Consumer, Producer};

/// The end of a ring that puts.
#[derive(Drop)]
pub struct Sender {
    pub(crate) inner: Producer<Message>,
}

/// The end of a ring that takes.
#[derive(Drop)]
pub struct Receiver {
    pub(crate) inner: Consumer<Message>,
    ghost small: { consumer_capacity inner ≤ 1024 },
}
