ghost use Rattle.std.specs.{Prelude.{◌≡◌, ◌*◌, ◌↔◌, IsTrue}, Ordering.nat_cmp};
ghost use Rattle.candidate_order.specs.Costs.{NoWorse, Better, Before, search_cmp};

use crate::candidate::Candidate;
use std::cmp::Ordering;

/// Compares the rounds for each chunk: `a.r / a.c` with `b.r / b.c`, as `a.r * b.c` with
/// `b.r * a.c`.
pub fn cost_cmp(a: Candidate, b: Candidate) -> Ordering
    ensures { result ≡ nat_cmp (a.r * b.c) (b.r * a.c) }
{
    let left = u16::from(a.r) * u16::from(b.c);
    let right = u16::from(b.r) * u16::from(a.c);
    left.cmp(&right)
}

/// Whether `a` has no more steps than `b`, and no more rounds for each chunk.
pub fn no_worse(a: Candidate, b: Candidate) -> bool
    ensures { IsTrue result ↔ NoWorse a b }
{
    a.s <= b.s && cost_cmp(a, b).is_le()
}

/// Whether `a` is no worse than `b`, and has fewer steps or fewer rounds for each chunk.
pub fn better(a: Candidate, b: Candidate) -> bool
    ensures { IsTrue result ↔ Better a b }
{
    no_worse(a, b) && (a.s < b.s || cost_cmp(a, b).is_lt())
}

/// Whether `a` is tried before `b`: it has fewer steps; or as many, and fewer rounds for each chunk;
/// or as many of these, and the smaller chunk count.
pub fn comes_before(a: Candidate, b: Candidate) -> bool
    ensures { IsTrue result ↔ Before a b }
{
    a.s < b.s || (a.s == b.s && cost_cmp(a, b).then(a.c.cmp(&b.c)).is_lt())
}

// The last comparison matters only without chunks, where costs say nothing: a sort needs an order
// of all candidates.
/// Compares by cost, then by chunk count, then by rounds.
pub(crate) fn search_cmp(a: Candidate, b: Candidate) -> Ordering
    ensures { result ≡ search_cmp a b }
{
    cost_cmp(a, b).then(a.c.cmp(&b.c)).then(a.r.cmp(&b.r))
}
