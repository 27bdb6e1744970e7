//! A sink that never fails.

ghost use Rattle.std.specs.Prelude.{◌≡◌, ◌≤◌, ◌+◌, [], ◌++◌, length, min, take, nat_le, IfOk, Ok};

use crate::OutOfMemory;
use crate::failed::Failed;
use crate::memory_sink::ROOM;
use crate::sink::Sink;
use std::alloc::Global;
use std::marker::Model;

/// A sink that counts its bytes, keeps the first 2,097,152 of them, and never fails. It tells its
/// bytes while there are no more than these.
#[derive(Debug, Drop)]
pub struct SureSink {
    kept: Vec<u8>,
    count: u64,
}

impl Model for SureSink {
    ghost use Rattle.std.specs.Prelude.{◌≡◌, ◌≤◌, min, vec_capacity, vec_len};
    ghost use Rattle.outer_ports.specs.Memory.{SureSinkValue, sink_room};

    ghost Value = { SureSinkValue };

    ghost view = { λ s. record { kept = s.kept.items; count = s.count } };

    ghost invariant = { λ s.
        (vec_len s.kept ≡ min s.count sink_room) × (sink_room ≤ vec_capacity s.kept) };
}

impl SureSink {
    /// A sink to which nothing was written.
    pub fn new(alloc: Global) -> Result<SureSink, OutOfMemory>
        ensures { IfOk result (λ sink. sink ≡ record { kept = []; count = 0 }) }
    {
        let kept = Vec::with_capacity(alloc, ROOM)?;
        Ok(SureSink { kept, count: 0 })
    }

    /// The first 2,097,152 bytes that were written, or all where there are fewer.
    pub fn bytes(&self) -> &[u8]
        ensures { result.now ≡ self.now.kept }
    {
        &self.kept
    }
}

impl Sink for SureSink {
    ghost use Rattle.outer_ports.specs.Memory.{sink_room};

    ghost tells = { λ sink. nat_le sink.count sink_room };

    ghost written = { λ sink. sink.kept };

    ghost faults = { λ _. 0 };

    /// Takes the whole piece, and no memory. Never fails.
    fn write(&mut self, piece: &[u8]) -> Result<usize, Failed>
        ensures all { result ≡ Ok (length piece.now) }
        ensures appended { self.new.count ≤ sink_room → self.new.kept ≡ self.old.kept ++ piece.now }
        ensures kept { self.new.kept ≡ take sink_room (self.old.kept ++ piece.now) }
        ensures count { self.new.count ≡
            min (self.old.count + length piece.now) 18446744073709551615 }
    {
        let count = piece.len().min(ROOM - self.kept.len());
        self.kept.extend_from_slice(&piece[..count]).unwrap();
        self.count = self.count.saturating_add(piece.len() as u64);
        Ok(piece.len())
    }
}
