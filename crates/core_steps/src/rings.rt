//! The rings between tasks.

ghost use Rattle.std.specs.Prelude.{◌≡◌, ◌<◌, ◌+◌, ◌*◌, length, IfOk};
ghost use Rattle.layout_rules.specs.Stages.{task_count};
ghost use Rattle.core_steps.specs.Queues.{queue_of, IsNewQueue};

use dataflow_model::Message;
use plan_compiler::Layout;
use std::alloc::{AllocError, Global};
use std::collections::VecDeque;
use std::marker::Model;

/// A ring that is new, with room for what it may hold, if the layout has one from one task to another.
fn new_queue(
    alloc: Global,
    layout: &Layout,
    sender: u32,
    receiver: u32,
) -> Result<VecDeque<Message>, AllocError>
    requires { sender < task_count layout.now.stages }
    ensures { IfOk result (λ queue. IsNewQueue layout.now.stages layout.now.capacity sender receiver (queue_of queue)) }
{
    let room = if layout.outputs_of(sender).contains(&receiver) {
        layout.ring()
    } else {
        0
    };
    VecDeque::with_capacity(alloc, room as usize)
}

/// The rings between the tasks of a layout, by sender and receiver. Where the layout has a ring there is room for all
/// that it may hold; elsewhere nothing is put.
#[derive(Drop)]
pub struct Rings {
    tasks: u32,
    queues: Vec<VecDeque<Message>>,
}

impl Model for Rings {
    ghost use Rattle.core_steps.specs.Rings.{RingsData, rings_view};

    ghost Value = { RingsData };

    ghost use Rattle.std.specs.Coded.{codes};
    ghost use Rattle.window_state.specs.Codes.{windows_code};

    ghost coded = { Prim.hlevel (codes, windows_code) };

    ghost view = { rings_view };
}

impl Rings {
    ghost use Rattle.std.specs.Prelude.{[], ◌∷◌, ◌++◌, MatchOption, IfOk};
    ghost use Rattle.dataflow_model.specs.declared.message.Message.{Message};
    ghost use Rattle.core_steps.specs.Queues.{with_message};
    ghost use Rattle.core_steps.specs.Rings.{queue_at, ChangesQueue, PopsMessage, AreNewRings};

    /// The rings of a layout, all empty.
    ///
    /// # Errors
    ///
    /// Only where memory runs out.
    pub fn new(alloc: Global, layout: &Layout) -> Result<Rings, AllocError>
        ensures { IfOk result (λ rings. AreNewRings layout.now.stages layout.now.capacity rings) }
    {
        let tasks = layout.task_count();
        let mut queues = Vec::new(alloc);
        for place in 0..tasks * tasks {
            queues.push(new_queue(alloc, layout, place / tasks, place % tasks)?)?;
        }
        Ok(Rings { tasks, queues })
    }

    /// Where the ring from one task to another stands.
    fn place(&self, sender: u32, receiver: u32) -> usize
        ensures { result ≡ sender * self.now.tasks + receiver }
    {
        sender as usize * self.tasks as usize + receiver as usize
    }

    /// How many messages are on the ring from one task to another.
    pub fn len(&self, sender: u32, receiver: u32) -> usize
        requires { receiver < self.now.tasks }
        ensures { result ≡ length (queue_at self.now sender receiver).messages }
    {
        match self.queues.get(self.place(sender, receiver)) {
            Some(queue) => queue.len(),
            None => 0,
        }
    }

    /// Takes the message off that was put first on the ring from one task to another.
    pub fn pop(&mut self, sender: u32, receiver: u32) -> Option<Message>
        requires { receiver < self.old.tasks }
        ensures { MatchOption result (((queue_at self.old sender receiver).messages ≡ []) × (self.new ≡ self.old)) (λ m. PopsMessage sender receiver m self.old self.new) }
    {
        let place = self.place(sender, receiver);
        let Some(queue) = self.queues.get_mut(place) else {
            return None;
        };
        queue.pop_front()
    }

    /// Puts a message on the ring from one task to another.
    pub fn put(&mut self, sender: u32, receiver: u32, message: Message)
        requires receiver { receiver < self.old.tasks }
        requires room { length (queue_at self.old sender receiver).messages < (queue_at self.old sender receiver).room }
        ensures { ChangesQueue sender receiver (with_message (queue_at self.old sender receiver) message) self.old self.new }
    {
        let place = self.place(sender, receiver);
        self.queues[place].push_back_reserved(message);
    }
}
