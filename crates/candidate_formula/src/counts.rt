//! The chunk counts of a search.

ghost use Rattle.std.specs.{Prelude.{◌≡◌, ◌≤◌, ◌↔◌, ℕ, [], IsTrue, IfOk}, List.Sorted.IsStrictlyIncreasing};
ghost use Rattle.collective_spec.specs.Kinds.{allows};
ghost use Rattle.candidate_order.specs.Listed.{AreAllowed};
ghost use Rattle.candidate_formula.specs.Counts.{allowed_up_to};

use crate::OutOfMemory;
use candidate_order::Limits;
use collective_spec::{Kind, allows};
use std::alloc::Global;

/// The counts up to a greatest one that such a collective may have.
fn allowed_up_to(alloc: Global, greatest: u8, kind: Kind, nodes: u8) -> Result<Vec<u8>, OutOfMemory>
    requires { greatest ≤ 16 }
    ensures { IfOk result (λ counts. counts.items ≡ allowed_up_to greatest kind nodes) }
{
    (1..greatest + 1)
        .filter(|c| allows(kind, nodes, *c))
        .collect(alloc)
}

/// The chunk counts within the limits that such a collective may have on so many nodes, ascending.
/// There is none exactly where no count is allowed, as for an all-to-all on more nodes than the
/// greatest count. The only error is `OutOfMemory`.
pub fn allowed_counts(
    alloc: Global,
    nodes: u8,
    kind: Kind,
    limits: &Limits,
) -> Result<Vec<u8>, OutOfMemory>
    ensures counts { IfOk result (λ counts. counts.items ≡ allowed_up_to limits.now.max_c kind nodes) }
    ensures ascending { IfOk result (λ counts. IsStrictlyIncreasing counts.items) }
    ensures allowed { IfOk result (λ counts. AreAllowed limits.now kind nodes counts.items) }
    ensures empty { IfOk result (λ counts. (counts.items ≡ []) ↔ ((c : ℕ) → c ≤ limits.now.max_c → ¬ IsTrue (allows kind nodes c))) }
{
    allowed_up_to(alloc, limits.max_c(), kind, nodes)
}
