ghost use Rattle.std.specs.Prelude.{◌≡◌, ℕ, ◌+◌, ◌≤◌, ◌<◌, min, slice_index};
ghost use Rattle.schedule.specs.Bags.{added, held_at_2, is_empty};
ghost use Rattle.bag_runs.specs.{Stores.received, Kept.{IsHeld, counted, counts_of, no_counts}};

use crate::mode::Mode;
use std::marker::Model;

/// How often each of 16 nodes has contributed, where 2 stands for two or more.
#[derive(Clone, Copy, Debug)]
pub struct Bag {
    counts: [u8; 16],
}

impl Model for Bag {
    ghost use Rattle.std.specs.Prelude.{ℕ, List};
    ghost use Rattle.bag_runs.specs.Kept.{IsHeld};

    ghost Value = { List ℕ };

    ghost view = { λ b. b.counts };

    ghost invariant = { λ b. IsHeld b.counts };

    ghost inverse = { λ counts. record { counts = counts } };
}

impl Bag {
    /// No node has contributed.
    pub(crate) fn empty() -> Bag
        ensures { result ≡ no_counts }
    {
        Bag { counts: [0; 16] }
    }

    /// One contribution of a node.
    pub(crate) fn one_of(node: u8) -> Bag
        requires { node < 16 }
        ensures { result ≡ counts_of node }
    {
        let mut counts = [0; 16];
        counts[node as usize] = 1;
        Bag { counts }
    }

    /// The counts, each at most 2.
    pub fn counts(&self) -> &[u8; 16]
        ensures counts { result.now ≡ self.now }
        ensures held { IsHeld self.now }
    {
        &self.counts
    }

    /// How often a node has contributed: 0, 1, or 2 for two or more. A node beyond the 16th never
    /// has.
    pub fn count(&self, node: u8) -> u8
        ensures count { result ≡ slice_index self.now node }
        ensures held { result ≤ 2 }
    {
        if node < 16 {
            self.counts[node as usize]
        } else {
            0
        }
    }

    /// None of the first nodes has contributed.
    #[tactic(auto, using(crate::proofs::Counting::empty_front))]
    pub(crate) fn is_empty(&self, nodes: u8) -> bool
        ensures { result ≡ is_empty (counted nodes self.now) }
    {
        let places = usize::from(nodes).min(16);
        is_empty(&self.counts[..places])
    }

    /// The contributions of both.
    #[tactic(auto, using(crate::proofs::Counting::counted_sum, crate::proofs::Counting::sum_filled))]
    fn added(&self, other: &Bag) -> Bag
        ensures sum { (nodes : ℕ) → counted nodes result ≡ held_at_2 (added (counted nodes self.now) (counted nodes other.now)) }
        ensures held { IsHeld result }
    {
        let mut counts = [0; 16];
        for node in 0..16 {
            counts[node] = (self.counts[node] + other.counts[node]).min(2);
        }
        Bag { counts }
    }

    /// What this bag becomes where another arrives: their sum, or the other unless it is empty.
    pub(crate) fn received(&self, mode: Mode, arrived: &Bag, nodes: u8) -> Bag
        ensures bag { counted nodes result ≡ received mode (counted nodes self.now) (counted nodes arrived.now) }
        ensures held { IsHeld result }
    {
        // Both are held at 2.
        let _own = &self.counts;
        let _other = &arrived.counts;
        match mode {
            Mode::Add => self.added(arrived),
            Mode::Copy if arrived.is_empty(nodes) => *self,
            Mode::Copy => *arrived,
        }
    }
}

/// All counts are 0.
fn is_empty(counts: &[u8]) -> bool
    ensures { result ≡ is_empty counts.now }
{
    counts.iter().all(|count| *count == 0)
}
