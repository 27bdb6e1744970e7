//! The queues of a machine: one from each node to each.

ghost use Rattle.std.specs.{Prelude.{◌≡◌, ◌+◌, ◌*◌, ◌^◌, ◌<◌, ◌++◌, ℕ, false, map, slice_get, slice_index, slice_index_or, slice_set, vec_len, IfOk, OnOk, IfSome, IfNone, Some}, List.range_with_len};
ghost use Rattle.node_programs.specs.Queues.{is_head, new_queues, no_queue, queues_from, sends_to, with_message, with_send, without_first};

use crate::OutOfMemory;
use crate::message::Message;
use crate::op::Op;
use crate::programs::Programs;
use crate::queue::Queue;
use bag_runs::Bag;
use std::alloc::Global;

/// Empty queues, each with room for all that its sender's program sends through it.
pub(crate) fn new_queues(
    alloc: Global,
    programs: &Programs,
    nodes: u8,
) -> Result<Vec<Queue>, OutOfMemory>
    ensures { IfOk result (λ q. q.items ≡ new_queues nodes programs.now) }
{
    let mut queues = Vec::with_capacity(alloc, nodes as usize * nodes as usize)?;
    for program in programs.as_slice() {
        push_queues(alloc, &mut queues, program.left(), nodes)?;
    }
    Ok(queues)
}

/// The queues from one node to each.
fn push_queues(
    alloc: Global,
    queues: &mut Vec<Queue>,
    ops: &[Op],
    nodes: u8,
) -> Result<(), OutOfMemory>
    ensures { OnOk result (queues.new.items ≡ queues.old.items ++ queues_from nodes ops.now) }
{
    let counts = send_counts(alloc, ops, nodes)?;
    for count in &counts {
        let queue = Queue::with_room(alloc, *count)?;
        queues.push(queue)?;
    }
    Ok(())
}

/// How many of the operations send to each node.
fn send_counts(alloc: Global, ops: &[Op], nodes: u8) -> Result<Vec<usize>, OutOfMemory>
    ensures { IfOk result (λ counts. counts.items ≡ map (λ node. sends_to node ops.now) (range_with_len 0 nodes)) }
{
    let mut counts = vec![in alloc; 0usize; nodes as usize]?;
    for place in 0..ops.len() {
        count_send(&mut counts, &ops[place]);
    }
    Ok(counts)
}

/// Counts an operation for the node that it sends to, if it sends and there is such a node.
fn count_send(counts: &mut Vec<usize>, op: &Op)
    requires { (node : ℕ) → slice_index counts.old.items node + 1 < 2 ^ 64 }
    ensures { counts.new.items ≡ with_send counts.old.items op.now }
{
    match op {
        Op::Send { to, .. } => count_at(counts, *to as usize),
        Op::Take { .. } => {}
    }
}

/// Adds one to the count at a place, if there is such a place.
fn count_at(counts: &mut Vec<usize>, place: usize)
    requires { (node : ℕ) → slice_index counts.old.items node + 1 < 2 ^ 64 }
    ensures { counts.new.items ≡ slice_set counts.old.items place (slice_index counts.old.items place + 1) }
{
    if place < counts.len() {
        counts[place] += 1;
    }
}

/// Puts a message into the queue at a place.
pub(crate) fn push_at(queues: &mut Vec<Queue>, place: usize, message: Message)
    requires place { place < vec_len queues.old }
    requires room { 0 < (slice_index_or queues.old.items place no_queue).room }
    ensures { queues.new.items ≡ slice_set queues.old.items place (with_message (slice_index_or queues.old.items place no_queue) message) }
{
    let queue = &mut queues[place];
    queue.push(message);
}

/// The first message of the queue at a place is of this chunk and step.
pub(crate) fn starts_at(queues: &Vec<Queue>, place: usize, chunk: u16, step: u8) -> bool
    requires { place < vec_len queues.now }
    ensures { result ≡ is_head chunk step (slice_index_or queues.now.items place no_queue).messages }
{
    queues[place].starts_with(chunk, step)
}

/// Takes the first message of the queue at a place, where it is of this chunk and step.
pub(crate) fn take_at(queues: &mut Vec<Queue>, place: usize, chunk: u16, step: u8) -> Option<Bag>
    requires { place < vec_len queues.old }
    ensures none { IfNone result ((is_head chunk step (slice_index_or queues.old.items place no_queue).messages ≡ false) × (queues.new.items ≡ queues.old.items)) }
    ensures some { IfSome result (λ bag. (slice_get (slice_index_or queues.old.items place no_queue).messages 0 ≡ Some (record { chunk = chunk; step = step; bag = bag }))
        × (queues.new.items ≡ slice_set queues.old.items place (without_first (slice_index_or queues.old.items place no_queue)))) }
{
    let queue = &mut queues[place];
    queue.take(chunk, step)
}
