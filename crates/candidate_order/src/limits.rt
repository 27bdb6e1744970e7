ghost use Rattle.std.specs.Prelude.{◌≡◌};
ghost use Rattle.candidate_order.specs.Ranges.{IsLimits, unpruned};

use crate::pruning::Pruning;
use std::marker::Model;

/// The greatest limit on the number of rounds beyond the number of steps.
pub const MAX_K: u8 = 8;

/// The greatest limit on the number of steps.
pub const MAX_STEPS: u8 = 8;

/// The greatest limit on the chunk count.
pub const MAX_CHUNKS: u8 = 16;

/// The greatest limit on the number of conflicts for each candidate.
pub const MAX_CONFLICTS: u32 = 100_000;

/// How far a search goes, and what it may leave out on the way.
#[derive(Clone, Copy, Debug, PartialEq, Eq)]
pub struct Limits {
    k: u8,
    max_s: u8,
    max_c: u8,
    conflicts: u32,
    pruning: Pruning,
}

impl Model for Limits {
    ghost use Rattle.candidate_order.specs.Ranges.{LimitsValue, IsLimits};

    ghost Value = { LimitsValue };

    ghost view = { λ l. record { k = l.k; max_s = l.max_s; max_c = l.max_c; conflicts = l.conflicts; pruning = l.pruning } };

    ghost invariant = { λ l. IsLimits (record { k = l.k; max_s = l.max_s; max_c = l.max_c; conflicts = l.conflicts; pruning = l.pruning }) };

    ghost inverse = { λ l. record { k = l.k; max_s = l.max_s; max_c = l.max_c; conflicts = l.conflicts; pruning = l.pruning } };
}

impl Limits {
    /// The limits of these numbers: `k` is at most 8, `max_s` from 1 to 8, `max_c` from 1 to 16,
    /// and `conflicts` from 1 to 100,000. Nothing is left out.
    pub fn new(k: u8, max_s: u8, max_c: u8, conflicts: u32) -> Limits
        requires { IsLimits (record { k = k; max_s = max_s; max_c = max_c; conflicts = conflicts; pruning = unpruned }) }
        ensures { result ≡ record { k = k; max_s = max_s; max_c = max_c; conflicts = conflicts; pruning = unpruned } }
    {
        Limits {
            k,
            max_s,
            max_c,
            conflicts,
            pruning: Pruning::none(),
        }
    }

    /// The same limits, where this may be left out.
    pub fn with_pruning(self, pruning: Pruning) -> Limits
        ensures { result ≡ record self { pruning = pruning } }
    {
        Limits { pruning, ..self }
    }

    /// The greatest number of rounds beyond the number of steps, at most 8.
    pub fn k(&self) -> u8
        ensures k { result ≡ self.now.k }
        ensures limits { IsLimits self.now }
    {
        self.k
    }

    /// The greatest number of steps, from 1 to 8.
    pub fn max_s(&self) -> u8
        ensures max_s { result ≡ self.now.max_s }
        ensures limits { IsLimits self.now }
    {
        self.max_s
    }

    /// The greatest chunk count, from 1 to 16.
    pub fn max_c(&self) -> u8
        ensures max_c { result ≡ self.now.max_c }
        ensures limits { IsLimits self.now }
    {
        self.max_c
    }

    /// The greatest number of conflicts for each candidate, from 1 to 100,000.
    pub fn conflicts(&self) -> u32
        ensures conflicts { result ≡ self.now.conflicts }
        ensures limits { IsLimits self.now }
    {
        self.conflicts
    }
    /// What may be left out.
    pub fn pruning(&self) -> Pruning
        ensures { result ≡ self.now.pruning }
    {
        self.pruning
    }
}
