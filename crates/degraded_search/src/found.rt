//! What a search after a fault found.

ghost use Rattle.std.specs.Prelude.{◌≡◌, filter, not, IfOk};
ghost use Rattle.link_faults.specs.Carrying.{is_carried};
ghost use Rattle.degraded_search.specs.inner.After.{ArePartedBy};

use crate::OutOfMemory;
use candidate_order::{Candidate, Frontier};
use degraded_links::is_carried;
use std::alloc::Global;

/// The frontier over the links that a fault left, and its refuted candidates, parted by whether an
/// old one carries them.
#[derive(Drop)]
pub(crate) struct Found {
    /// The points, and all refuted and unknown candidates.
    pub(crate) frontier: Frontier,
    /// The refuted candidates that an old one carries, in their order.
    pub(crate) carried: Vec<Candidate>,
    /// The other refuted candidates, in their order.
    pub(crate) refuted: Vec<Candidate>,
}

impl Found {
    /// The frontier, with its refuted candidates parted by the old ones. The only error is
    /// `OutOfMemory`.
    pub(crate) fn new(
        alloc: Global,
        old: &[Candidate],
        frontier: Frontier,
    ) -> Result<Found, OutOfMemory>
        ensures frontier { IfOk result (λ found. found.frontier ≡ frontier) }
        ensures parted { IfOk result (ArePartedBy old.now) }
    {
        let (carried, refuted) = parted(alloc, old, frontier.refuted())?;
        Ok(Found {
            frontier,
            carried,
            refuted,
        })
    }
}

/// The candidates that an old one carries, and those that none carries, each in their order. The
/// only error is `OutOfMemory`.
fn parted(
    alloc: Global,
    old: &[Candidate],
    refuted: &[Candidate],
) -> Result<(Vec<Candidate>, Vec<Candidate>), OutOfMemory>
    ensures carried { IfOk result (λ parts. parts.0.items ≡ filter (is_carried old.now) refuted.now) }
    ensures others { IfOk result (λ parts. parts.1.items ≡ filter (λ x. not (is_carried old.now x)) refuted.now) }
{
    let mut carried = Vec::new(alloc);
    let mut others = Vec::new(alloc);
    for x in refuted {
        if is_carried(old, *x) {
            carried.push(*x)?;
        } else {
            others.push(*x)?;
        }
    }
    Ok((carried, others))
}
