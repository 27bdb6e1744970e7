ghost use Rattle.std.specs.Prelude.{◌≡◌, ◌<◌, [], true, false, slice_get, IfOk, IfSome, IfNone, None};
ghost use Rattle.node_programs.specs.Queues.{QueueValue, is_head, with_message, without_first};

use crate::OutOfMemory;
use crate::message::Message;
use bag_runs::Bag;
use std::alloc::Global;
use std::collections::VecDeque;
use std::marker::Model;

/// The messages from one node to another, first in first out, and room for more.
#[derive(Debug, Drop)]
pub(crate) struct Queue {
    messages: VecDeque<Message>,
}

impl Model for Queue {
    ghost use Rattle.std.specs.{Prelude.◌-◌, VecDeque.{deque_len, deque_capacity}};
    ghost use Rattle.node_programs.specs.Queues.{QueueValue};

    ghost Value = { QueueValue };

    ghost view = { λ q. record { messages = q.messages.items; room = deque_capacity q.messages - deque_len q.messages } };
}

impl Queue {
    /// The empty queue with room for so many messages. The only error is `OutOfMemory`.
    pub(crate) fn with_room(alloc: Global, room: usize) -> Result<Queue, OutOfMemory>
        ensures { IfOk result (λ q. q ≡ record { messages = []; room = room }) }
    {
        let messages = VecDeque::with_capacity(alloc, room)?;
        Ok(Queue { messages })
    }

    /// Puts a message behind the others.
    pub(crate) fn push(&mut self, message: Message)
        requires { 0 < self.old.room }
        ensures { self.new ≡ with_message self.old message }
    {
        self.messages.push_back_reserved(message);
    }

    /// The first message is of this chunk and step.
    pub(crate) fn starts_with(&self, chunk: u16, step: u8) -> bool
        ensures { result ≡ is_head chunk step self.now.messages }
    {
        match self.messages.front() {
            Some(message) => message.chunk == chunk && message.step == step,
            None => false,
        }
    }

    /// Takes the first message, where it is of this chunk and step.
    pub(crate) fn take(&mut self, chunk: u16, step: u8) -> Option<Bag>
        ensures none { IfNone result ((is_head chunk step self.old.messages ≡ false) × (self.new ≡ self.old)) }
        ensures some { IfSome result (λ bag. (is_head chunk step self.old.messages ≡ true) × (self.new ≡ without_first self.old)
            × (slice_get self.old.messages 0 ≡ Some (record { chunk = chunk; step = step; bag = bag }))) }
    {
        if !self.starts_with(chunk, step) {
            return None;
        }
        let message = self.messages.pop_front()?;
        Some(message.bag)
    }
}
