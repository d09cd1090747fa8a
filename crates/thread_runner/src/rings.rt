//! A ring of messages between two threads.

ghost use Rattle.std.specs.Prelude.{◌≡◌, ◌+◌, ◌<◌, ◌≤◌, ◌↔◌, [], ◌∷◌, ◌++◌, length, IfOk, IsOk, IsSome, IsTrue, MatchResult, MatchOption};
ghost use Rattle.thread_runner.specs.Rings.{put_of, taken_of, seen_of, room_of, ring_of, ring_at, LeavesOver};

pub use crate::ends::{Receiver, Sender};
use dataflow_model::Message;
use rtrb::{PushError, RingBuffer};
use std::alloc::{AllocError, Global};

/// A ring with this much room, on which nothing was put yet.
///
/// # Errors
///
/// Only where memory runs out.
pub fn ring(alloc: Global, capacity: usize) -> Result<(Sender, Receiver), AllocError>
    requires { (0 < capacity) × (capacity ≤ 1024) }
    ensures pair { IfOk result (λ r. ring_of r.0 ≡ ring_at r.1) }
    ensures empty { IfOk result (λ r. (put_of r.0 ≡ []) × (taken_of r.1 ≡ [])) }
    ensures room { IfOk result (λ r. room_of r.0 ≡ capacity) }
{
    let (sender, receiver) = RingBuffer::new(alloc, capacity)?;
    Ok((Sender { inner: sender }, Receiver { inner: receiver }))
}

impl Sender {
    /// Whether there is room: where so, the next `put` succeeds.
    pub fn room(&mut self) -> bool
        ensures same { (ring_of self.new ≡ ring_of self.old) × (put_of self.new ≡ put_of self.old) }
        ensures room { IsTrue result ↔ (0 < room_of self.new) }
        ensures kept { room_of self.old ≤ room_of self.new }
    {
        !self.inner.is_full()
    }

    /// Puts a message after all that were put, or hands it back.
    pub fn put(&mut self, message: Message) -> Result<(), Message>
        ensures same { ring_of self.new ≡ ring_of self.old }
        ensures put { MatchResult result (λ _. put_of self.new ≡ put_of self.old ++ message ∷ []) (λ m. (m ≡ message) × (put_of self.new ≡ put_of self.old)) }
        ensures room { room_of self.old ≤ room_of self.new + 1 }
        ensures succeeds { 0 < room_of self.old → IsOk result }
    {
        match self.inner.push(message) {
            Ok(()) => Ok(()),
            Err(PushError::Full(back)) => Err(back),
        }
    }
}

impl Receiver {
    /// Takes the oldest message that was not taken, if one is there.
    pub fn take(&mut self) -> Option<Message>
        ensures same { ring_at self.new ≡ ring_at self.old }
        ensures taken { MatchOption result (taken_of self.new ≡ taken_of self.old) (λ m. taken_of self.new ≡ taken_of self.old ++ m ∷ []) }
        ensures succeeds { 0 < length (seen_of self.old) → IsSome result }
    {
        self.inner.pop().ok()
    }
}

/// How many messages lie in a ring, of which both ends are here: what was put is what was taken, followed by as many.
pub fn settle(sender: &mut Sender, receiver: &mut Receiver) -> usize
    requires { ring_of sender.old ≡ ring_at receiver.old }
    ensures same { (ring_of sender.new ≡ ring_of sender.old) × (put_of sender.new ≡ put_of sender.old) × (ring_at receiver.new ≡ ring_at receiver.old) × (taken_of receiver.new ≡ taken_of receiver.old) }
    ensures left { LeavesOver (put_of sender.new) (taken_of receiver.new) result }
    ensures seen { length (seen_of receiver.new) ≡ result }
    ensures small { result ≤ 1024 }
{
    receiver.inner.slots_beside(&mut sender.inner)
}
