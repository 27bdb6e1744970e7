ghost use Rattle.std.specs.Prelude.{◌≡◌, ◌*◌, ◌+◌, ◌^◌, ◌<◌, ◌≤◌, Some, length, slice_get, if◌then◌else◌, unwrap_or, IfOk, MatchOption};
ghost use Rattle.node_programs.specs.declared.op.Op.TheVariants as op;
ghost use Rattle.node_programs.specs.declared.machine.Fired.TheVariants as fired;
ghost use Rattle.node_programs.specs.{Machines.{State, event, is_enabled, is_finished, ops_left, started}, Runs.operations, Below.AreBelow};

use crate::OutOfMemory;
use crate::message::Message;
use crate::op::Op;
use crate::programs::Programs;
use crate::queue::Queue;
use crate::queues::{new_queues, push_at, starts_at, take_at};
use bag_runs::{Mode, Store};
use std::alloc::Global;
use std::marker::Model;

/// Whether an event was done.
#[derive(Clone, Copy, Debug, PartialEq, Eq)]
pub enum Fired {
    Fired,
    NotEnabled,
}

/// The machine that carries out the programs of the nodes, one operation of one node at a time:
/// what each node has still to do, the store, and a queue from each node to each. Each queue has
/// room for all that is still to be sent through it.
#[derive(Debug, Drop)]
pub struct Machine {
    programs: Programs,
    store: Store,
    queues: Vec<Queue>,
}

impl Model for Machine {
    ghost use Rattle.std.specs.Prelude.{map};
    ghost use Rattle.node_programs.specs.{Machines.State, Queues.{IsMachine, messages_in}};

    ghost Value = { State };

    ghost view = { λ m. record { left = m.programs; store = m.store; queues = map (messages_in m.store.nodes) m.queues.items } };

    ghost invariant = { λ m. IsMachine m.store.chunks m.store.nodes m.programs m.queues.items };
}

impl Machine {
    /// The machine of the programs before any event, with the bags that the nodes have at the
    /// start. The only error is `OutOfMemory`; no other call takes any.
    pub fn new(alloc: Global, programs: Programs, start: Store) -> Result<Machine, OutOfMemory>
        requires nodes { length programs ≡ start.nodes }
        requires in_range { AreBelow start.chunks start.nodes programs }
        ensures { IfOk result (λ m. m ≡ started programs start) }
    {
        let queues = new_queues(alloc, &programs, start.nodes())?;
        Ok(Machine {
            programs,
            store: start,
            queues,
        })
    }

    /// The number of nodes.
    pub fn nodes(&self) -> u8
        ensures nodes { result ≡ self.now.store.nodes }
        ensures programs { length self.now.left ≡ self.now.store.nodes }
    {
        self.store.nodes()
    }

    /// The bags that the nodes have.
    pub fn store(&self) -> &Store
        ensures { result.now ≡ self.now.store }
    {
        &self.store
    }

    /// How many operations the nodes have still to do. `None` comes exactly where the number is
    /// 2^64 or greater.
    pub fn operations(&self) -> Option<usize>
        ensures { MatchOption result (2 ^ 64 ≤ operations self.now) (λ count. count ≡ operations self.now) }
    {
        self.programs.operations()
    }

    /// Every program is at its end.
    pub fn finished(&self) -> bool
        ensures { result ≡ is_finished self.now }
    {
        self.programs.finished()
    }

    /// The node has a next operation, and it can be done: each send can, and a take whose message
    /// heads its queue.
    pub fn enabled(&self, node: u8) -> bool
        requires { node < self.now.store.nodes }
        ensures { result ≡ is_enabled self.now node }
    {
        match self.programs.next(node) {
            None => false,
            Some(Op::Send { .. }) => true,
            Some(
                Op::Take {
                    chunk,
                    from,
                    step,
                    ..
                },
            ) => starts_at(&self.queues, self.place(from, node), chunk, step),
        }
    }

    /// The node does its next operation. `NotEnabled` comes exactly where it has none that can be
    /// done; then nothing changes.
    pub fn fire(&mut self, node: u8) -> Fired
        requires { node < self.old.store.nodes }
        ensures fired { result ≡ (if is_enabled self.old node then fired.Fired else fired.NotEnabled) }
        ensures state { self.new ≡ unwrap_or (event self.old node) self.old }
    {
        match self.programs.next(node) {
            None => Fired::NotEnabled,
            Some(Op::Send { chunk, to, step }) => {
                self.send(node, chunk, to, step);
                Fired::Fired
            }
            Some(
                Op::Take {
                    chunk,
                    from,
                    step,
                    mode,
                },
            ) => self.take(node, chunk, from, step, mode),
        }
    }

    /// The place of the queue from a node to another.
    fn place(&self, from: u8, to: u8) -> usize
        ensures { result ≡ from * self.now.store.nodes + to }
    {
        from as usize * self.store.nodes() as usize + to as usize
    }

    /// The node's next operation, a send, is done.
    #[tactic(auto, using(crate::proofs::Firing::seen_room))]
    fn send(&mut self, node: u8, chunk: u16, to: u8, step: u8)
        requires node { node < self.old.store.nodes }
        requires next { slice_get (ops_left self.old node) 0 ≡ Some (op.Send chunk to step) }
        ensures { event self.old node ≡ Some self.new }
    {
        let bag = self.store.bag(chunk, node);
        let place = self.place(node, to);
        push_at(&mut self.queues, place, Message { chunk, step, bag });
        self.programs.advance(node);
    }

    /// The node's next operation, a take, is done where its message heads the queue.
    #[tactic(auto, using(crate::proofs::Firing::seen_place, crate::proofs::Firing::seen_chunk))]
    fn take(&mut self, node: u8, chunk: u16, from: u8, step: u8, mode: Mode) -> Fired
        requires node { node < self.old.store.nodes }
        requires next { slice_get (ops_left self.old node) 0 ≡ Some (op.Take chunk from step mode) }
        ensures fired { result ≡ (if is_enabled self.old node then fired.Fired else fired.NotEnabled) }
        ensures state { self.new ≡ unwrap_or (event self.old node) self.old }
    {
        let place = self.place(from, node);
        match take_at(&mut self.queues, place, chunk, step) {
            None => Fired::NotEnabled,
            Some(bag) => {
                self.store.receive(chunk, node, mode, bag);
                self.programs.advance(node);
                Fired::Fired
            }
        }
    }
}
