//! A sink in memory.

ghost use Rattle.std.specs.Prelude.{◌≡◌, ◌-◌, ◌<◌, ◌≤◌, ◌⊎◌, ◌↔◌, true, [], ◌++◌, length, min, take, Contains, IfOk, IsErr, OnErr};

use crate::OutOfMemory;
use crate::failed::Failed;
use crate::sink::Sink;
use std::alloc::Global;
use std::marker::Model;

pub(crate) const ROOM: usize = 2_097_152;

/// A sink that keeps its bytes in memory, takes at most a piece at each call, and whose calls fail
/// where their numbers say so. It has room for 2,097,152 bytes.
#[derive(Debug, Drop)]
pub struct MemorySink {
    bytes: Vec<u8>,
    piece: usize,
    fails: Vec<u64>,
    calls: u64,
    faults: u64,
}

impl Model for MemorySink {
    ghost use Rattle.std.specs.Prelude.{◌≤◌, vec_capacity, vec_len};
    ghost use Rattle.outer_ports.specs.Memory.{MemorySinkValue, sink_room};

    ghost Value = { MemorySinkValue };

    ghost view = { λ s.
        record { written = s.bytes.items; piece = s.piece; fails = s.fails.items; calls = s.calls; faults = s.faults } };

    ghost invariant = { λ s.
        (1 ≤ s.piece) × (vec_len s.bytes ≤ sink_room) × (sink_room ≤ vec_capacity s.bytes) };
}

impl MemorySink {
    /// A sink to which nothing was written, with room for 2,097,152 bytes. A call takes at most
    /// `piece` bytes, which is at least 1, and fails where its number is among `fails`; the calls
    /// are numbered from 0.
    pub fn new(alloc: Global, piece: usize, fails: Vec<u64>) -> Result<MemorySink, OutOfMemory>
        requires { 1 ≤ piece }
        ensures { IfOk result (λ sink. sink ≡
            record { written = []; piece = piece; fails = fails.items; calls = 0; faults = 0 }) }
    {
        let bytes = Vec::with_capacity(alloc, ROOM)?;
        Ok(MemorySink {
            bytes,
            piece,
            fails,
            calls: 0,
            faults: 0,
        })
    }

    /// The bytes that were written.
    pub fn bytes(&self) -> &[u8]
        ensures { result.now ≡ self.now.written }
    {
        &self.bytes
    }
}

impl Sink for MemorySink {
    ghost use Rattle.outer_ports.specs.{Memory.{next_count, sink_room}, Port.{failed, HasCause}};

    ghost tells = { λ _. true };

    ghost written = { λ sink. sink.written };

    ghost faults = { λ sink. sink.faults };

    /// Takes as many bytes as it can, and no memory. Fails exactly where the number of this call
    /// says so, or where no room is left for a nonempty piece.
    fn write(&mut self, piece: &[u8]) -> Result<usize, Failed>
        ensures fails { IsErr result ↔ (Contains self.old.fails self.old.calls
            ⊎ ((0 < length piece.now) × (length self.old.written ≡ sink_room))) }
        ensures count { IfOk result (λ n. n ≡
            min self.old.piece (min (length piece.now) (sink_room - length self.old.written))) }
        ensures some { 0 < length piece.now → IfOk result (λ n. 0 < n) }
        ensures cause { HasCause failed self.old.faults self.new.faults result }
        ensures ok { IfOk result (λ n. self.new ≡
            record self.old {
              written = self.old.written ++ take n piece.now;
              calls = next_count self.old.calls;
            }) }
        ensures err { OnErr result (self.new ≡
            record self.old { calls = next_count self.old.calls; faults = next_count self.old.faults }) }
    {
        let fails = self.fails.contains(&self.calls);
        let room = ROOM - self.bytes.len();
        self.calls = self.calls.saturating_add(1);
        if fails || (room == 0 && !piece.is_empty()) {
            self.faults = self.faults.saturating_add(1);
            return Err(Failed);
        }
        let count = self.piece.min(piece.len()).min(room);
        self.bytes.extend_from_slice(&piece[..count]).unwrap();
        Ok(count)
    }
}
