//! A source in memory.

ghost use Rattle.std.specs.Prelude.{◌≡◌, ◌≤◌, ◌↔◌, true, length, min, drop, Contains, IfOk, IsErr, OnErr};

use crate::failed::Failed;
use crate::source::Source;
use std::marker::Model;

/// A source that gives bytes out of memory, at most a piece at each call, and whose calls fail
/// where their numbers say so.
#[derive(Debug, Drop)]
pub struct MemorySource {
    bytes: Vec<u8>,
    taken: usize,
    piece: usize,
    fails: Vec<u64>,
    calls: u64,
    faults: u64,
}

impl Model for MemorySource {
    ghost use Rattle.std.specs.Prelude.{◌≤◌, drop, vec_len};
    ghost use Rattle.outer_ports.specs.Memory.{MemorySourceValue};

    ghost Value = { MemorySourceValue };

    ghost view = { λ s.
        record { left = drop s.taken s.bytes.items; piece = s.piece; fails = s.fails.items; calls = s.calls; faults = s.faults } };

    ghost invariant = { λ s. (1 ≤ s.piece) × (s.taken ≤ vec_len s.bytes) };
}

impl MemorySource {
    /// A source that has all of `bytes` left. A call gives at most `piece` bytes, which is at least
    /// 1, and fails where its number is among `fails`; the calls are numbered from 0.
    pub fn new(bytes: Vec<u8>, piece: usize, fails: Vec<u64>) -> MemorySource
        requires { 1 ≤ piece }
        ensures { result ≡
            record { left = bytes.items; piece = piece; fails = fails.items; calls = 0; faults = 0 } }
    {
        MemorySource {
            bytes,
            taken: 0,
            piece,
            fails,
            calls: 0,
            faults: 0,
        }
    }
}

impl Source for MemorySource {
    ghost use Rattle.outer_ports.specs.{Memory.next_count, Port.{failed, HasCause, Takes}};

    ghost tells = { λ _. true };

    ghost left = { λ source. source.left };

    ghost faults = { λ source. source.faults };

    /// Gives as many bytes as it can. Fails exactly where the number of this call says so.
    fn read(&mut self, buf: &mut [u8]) -> Result<usize, Failed>
        ensures fails { IsErr result ↔ Contains self.old.fails self.old.calls }
        ensures count { IfOk result (λ n. n ≡
            min self.old.piece (min (length buf.new) (length self.old.left))) }
        ensures taken { Takes self.old.left self.new.left buf.new result }
        ensures cause { HasCause failed self.old.faults self.new.faults result }
        ensures ok { IfOk result (λ n. self.new ≡
            record self.old { left = drop n self.old.left; calls = next_count self.old.calls }) }
        ensures err { OnErr result (self.new ≡
            record self.old { calls = next_count self.old.calls; faults = next_count self.old.faults }) }
    {
        let fails = self.fails.contains(&self.calls);
        self.calls = self.calls.saturating_add(1);
        if fails {
            self.faults = self.faults.saturating_add(1);
            return Err(Failed);
        }
        let left = &self.bytes[self.taken..];
        let count = self.piece.min(buf.len()).min(left.len());
        buf[..count].copy_from_slice(&left[..count]);
        self.taken += count;
        Ok(count)
    }
}
