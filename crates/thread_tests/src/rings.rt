//! Rings of messages.

ghost use Rattle.std.specs.Prelude.{◌≡◌, ◌<◌, ◌≤◌};
ghost use Rattle.thread_runner.specs.Rings.{ring_at, ring_of};

use columns::Batch;
use dataflow_model::Message;
use plain_data::Items;
use std::alloc::{AllocError, Global};
use std::process::Abort;
use std::sync::Wait;
use std::test::Fail;
use std::thread;
use std::thread::Threads;
use thread_runner::{Receiver, Sender, ring, settle};

/// The mark of a message, if it is one.
fn mark_of(message: Option<Message>) -> Option<i64> {
    match message {
        Some(Message::Watermark(mark)) => Some(mark),
        _ => None,
    }
}

/// Puts a mark: what is handed back, if the ring is full.
fn put_mark(sender: &mut Sender, mark: i64) -> Option<i64>
    ensures { ring_of sender.new ≡ ring_of sender.old }
{
    match sender.put(Message::Watermark(mark)) {
        Ok(()) => None,
        Err(message) => mark_of(Some(message)),
    }
}

/// Both ends of one ring.
#[derive(Drop)]
struct Joined {
    sender: Sender,
    receiver: Receiver,
    ghost pair: { ring_of sender ≡ ring_at receiver },
}

impl Joined {
    fn new(alloc: Global, capacity: usize) -> Result<Joined, AllocError>
        requires { (0 < capacity) × (capacity ≤ 1024) }
    {
        let (sender, receiver) = ring(alloc, capacity)?;
        Ok(Joined { sender, receiver })
    }

    fn room(&mut self) -> bool {
        self.sender.room()
    }

    /// Puts a mark: what is handed back, if the ring is full.
    fn put(&mut self, mark: i64) -> Option<i64> {
        put_mark(&mut self.sender, mark)
    }

    /// The mark that is taken, if there is one.
    fn take(&mut self) -> Option<i64> {
        mark_of(self.receiver.take())
    }

    /// How many messages lie in the ring.
    fn left(&mut self) -> usize {
        settle(&mut self.sender, &mut self.receiver)
    }
}

#[test]
fn a_full_ring_hands_a_message_back(rt: HostRuntime) -> Result<(), Fail> {
    let mut ends = Joined::new(rt.alloc(), 1)?;
    assert!(rt; ends.room());
    assert_eq!(rt; ends.put(7), None);
    assert!(rt; !ends.room());
    assert_eq!(rt; ends.put(8), Some(8));
    assert_eq!(rt; ends.take(), Some(7));
    assert!(rt; ends.room());
    assert_eq!(rt; ends.put(9), None);
    assert_eq!(rt; ends.take(), Some(9));
    assert_eq!(rt; ends.take(), None);
    assert_eq!(rt; ends.left(), 0);
    Ok(())
}

#[test]
fn an_empty_ring_gives_none(rt: HostRuntime) -> Result<(), Fail> {
    let mut ends = Joined::new(rt.alloc(), 4)?;
    assert_eq!(rt; ends.take(), None);
    assert_eq!(rt; ends.left(), 0);
    assert_eq!(rt; ends.take(), None);
    Ok(())
}

fn fill<R: Abort>(rt: &R, ends: &mut Joined, capacity: u32) {
    for mark in 0..capacity {
        assert!(rt; ends.room());
        assert_eq!(rt; ends.put(mark as i64), None);
    }
    assert!(rt; !ends.room());
    assert_eq!(rt; ends.put(-1), Some(-1));
}

fn empty<R: Abort>(rt: &R, ends: &mut Joined, capacity: u32) {
    for mark in 0..capacity {
        assert_eq!(rt; ends.take(), Some(mark as i64));
    }
    assert_eq!(rt; ends.take(), None);
}

/// A ring is filled and emptied, twice.
fn check_capacity<R: AllocGlobal + Abort>(rt: &R, capacity: u32) -> Result<(), AllocError>
    requires { (0 < capacity) × (capacity ≤ 1024) }
{
    let mut ends = Joined::new(rt.alloc(), capacity as usize)?;
    for _ in 0..2 {
        fill(rt, &mut ends, capacity);
        assert_eq!(rt; ends.left(), capacity as usize);
        empty(rt, &mut ends, capacity);
        assert_eq!(rt; ends.left(), 0);
    }
    Ok(())
}

#[test]
fn a_ring_holds_as_many_as_it_is_made_for(rt: HostRuntime) -> Result<(), Fail> {
    check_capacity(&rt, 1)?;
    check_capacity(&rt, 2)?;
    check_capacity(&rt, 3)?;
    check_capacity(&rt, 1024)?;
    Ok(())
}

#[test]
fn what_is_left_is_counted(rt: HostRuntime) -> Result<(), Fail> {
    let mut ends = Joined::new(rt.alloc(), 4)?;
    for mark in 0..3 {
        assert_eq!(rt; ends.put(mark), None);
    }
    assert_eq!(rt; ends.take(), Some(0));
    assert_eq!(rt; ends.left(), 2);
    assert_eq!(rt; ends.take(), Some(1));
    assert_eq!(rt; ends.left(), 1);
    Ok(())
}

/// One message of each kind.
fn kinds(alloc: Global) -> Result<[Message; 5], Fail> {
    let row = Vec::from_slice(alloc, &[1, 2, 3])?;
    let rows = vec![in alloc; row]?;
    Ok([
        Message::Rows(Batch::from_rows(alloc, rows.as_slice(), 3)?),
        Message::Fired(Items::from_vec(Vec::new(alloc))),
        Message::Watermark(-5),
        Message::Barrier(3),
        Message::End,
    ])
}

/// The place of a message among those of each kind, if it is that one.
fn kind_of(message: &Message) -> Option<u32> {
    match message {
        Message::Rows(batch) if batch.len() == 1 && batch.width() == 3 => Some(0),
        Message::Fired(rows) if rows.len() == 0 => Some(1),
        Message::Watermark(mark) if *mark == -5 => Some(2),
        Message::Barrier(number) if *number == 3 => Some(3),
        Message::End => Some(4),
        _ => None,
    }
}

#[test]
fn messages_of_each_kind_come_through(rt: HostRuntime) -> Result<(), Fail> {
    let (mut sender, mut receiver) = ring(rt.alloc(), 5)?;
    for message in kinds(rt.alloc())? {
        assert!(rt; sender.put(message).is_ok());
    }
    for kind in 0..5 {
        let message = receiver.take();
        assert_eq!(rt; message.as_ref().and_then(|m| kind_of(m)), Some(kind));
    }
    Ok(())
}

const MARKS: i64 = 1000;

/// Puts marks from 0 on, each as soon as there is room.
fn put_all<R: Wait>(rt: &R, sender: &mut Sender) {
    let mut mark = 0;
    for _ in rt.forever() {
        if mark >= MARKS {
            break;
        }
        match put_mark(sender, mark) {
            None => mark += 1,
            Some(_) => thread::yield_now(),
        }
    }
}

/// Takes as many, each as soon as one is there: whether they came in order.
fn take_all<R: Wait>(rt: &R, receiver: &mut Receiver) -> bool {
    let mut mark = 0;
    for _ in rt.forever() {
        if mark >= MARKS {
            break;
        }
        match mark_of(receiver.take()) {
            None => thread::yield_now(),
            Some(next) if next == mark => mark += 1,
            Some(_) => return false,
        }
    }
    true
}

#[test]
fn two_threads_hand_messages_over_in_order(rt: HostRuntime) -> Result<(), Fail> {
    let (mut sender, mut receiver) = ring(rt.alloc(), 3)?;
    let (_, in_order) = thread::join(
        &rt,
        || put_all(&rt, &mut sender),
        || take_all(&rt, &mut receiver),
    );
    assert!(rt; in_order);
    assert!(rt; receiver.take().is_none());
    Ok(())
}
