//! Sends, and their order.

ghost use Rattle.std.specs.{Prelude.◌≡◌, Ordering.{is_gt, is_lt}};
ghost use Rattle.schedule.specs.Sends.{hop_before};

use std::cmp::Ordering;

/// One send: a chunk goes from a node to another at a step. Chunks and nodes are numbered from 0,
/// steps from 1.
#[derive(Clone, Copy, Debug, PartialEq, Eq)]
pub struct Hop {
    pub chunk: u16,
    pub from: u8,
    pub to: u8,
    pub step: u8,
}

/// Compares by step, chunk, from and to: the order of the sends of a schedule.
pub fn hop_cmp(a: &Hop, b: &Hop) -> Ordering
    ensures less { is_lt result ≡ hop_before a.now b.now }
    ensures greater { is_gt result ≡ hop_before b.now a.now }
{
    a.step
        .cmp(&b.step)
        .then(a.chunk.cmp(&b.chunk))
        .then(a.from.cmp(&b.from))
        .then(a.to.cmp(&b.to))
}
