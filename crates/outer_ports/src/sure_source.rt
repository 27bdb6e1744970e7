//! A source that never fails.

ghost use Rattle.std.specs.Prelude.{◌≡◌, true, length, min, take, drop, IfOk, Ok};

use crate::failed::Failed;
use crate::source::Source;
use std::marker::Model;

/// A source that gives bytes out of memory and never fails. Contracts see it as the bytes that are
/// left.
#[derive(Debug, Drop)]
pub struct SureSource {
    bytes: Vec<u8>,
    taken: usize,
}

impl Model for SureSource {
    ghost use Rattle.std.specs.Prelude.{◌≤◌, ℕ, List, drop, vec_len};

    ghost Value = { List ℕ };

    ghost view = { λ s. drop s.taken s.bytes.items };

    ghost invariant = { λ s. s.taken ≤ vec_len s.bytes };
}

impl SureSource {
    /// A source that has all of `bytes` left.
    pub fn new(bytes: Vec<u8>) -> SureSource
        ensures { result ≡ bytes.items }
    {
        SureSource { bytes, taken: 0 }
    }
}

impl Source for SureSource {
    ghost tells = { λ _. true };

    ghost left = { λ source. source };

    ghost faults = { λ _. 0 };

    /// Gives as many bytes as it can, and never fails.
    fn read(&mut self, buf: &mut [u8]) -> Result<usize, Failed>
        ensures count { result ≡ Ok (min (length buf.new) (length self.old)) }
        ensures bytes { IfOk result (λ n. take n buf.new ≡ take n self.old) }
        ensures rest { IfOk result (λ n. self.new ≡ drop n self.old) }
    {
        let left = &self.bytes[self.taken..];
        let count = buf.len().min(left.len());
        buf[..count].copy_from_slice(&left[..count]);
        self.taken += count;
        Ok(count)
    }
}
