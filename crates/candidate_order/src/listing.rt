ghost use Rattle.std.specs.{Prelude.{◌≡◌, ◌+◌, ◌<◌, ◌≤◌, ◌↔◌, map, All, AllPairs, Contains, IfOk}, List.{range_with_len, Sorted.IsStrictlyIncreasing}};
ghost use Rattle.itertools.specs.Product.{rows};
ghost use Rattle.candidate_order.specs.{Costs.Before, Listed.{IsListed, IsCount, candidate_at}};

use crate::OutOfMemory;
use crate::candidate::Candidate;
use crate::limits::Limits;
use crate::order::search_cmp;
use itertools::Itertools;
use std::alloc::Global;

/// Each number of rounds, from `step` to `step + k`, with each chunk count.
fn pairs(alloc: Global, step: u8, k: u8, allowed: &[u8]) -> Result<Vec<Candidate>, OutOfMemory>
    requires { step + k < 255 }
    ensures { IfOk result (λ v. v.items ≡ map (candidate_at step) (rows (range_with_len step (k + 1)) allowed.now)) }
{
    (step..step + k + 1)
        .cartesian_product(allowed.iter().copied())
        .map(|(r, c)| Candidate { s: step, r, c })
        .collect(alloc)
}

/// The candidates of `step` steps, from 1 to `max_s`: each number of rounds from `step` to `step +
/// k` with each chunk count of `allowed`, which ascend and are from 1 to `max_c`. They stand in the
/// order of the search, each once.
pub fn list(
    alloc: Global,
    limits: &Limits,
    step: u8,
    allowed: &[u8],
) -> Result<Vec<Candidate>, OutOfMemory>
    requires some_step { 1 ≤ step }
    requires step { step ≤ limits.now.max_s }
    requires ascending { IsStrictlyIncreasing allowed.now }
    requires counts { All (IsCount limits.now.max_c) allowed.now }
    ensures members { IfOk result (λ v. (x : Candidate) → Contains v.items x ↔ IsListed limits.now.k step allowed.now x) }

    // No candidate comes before itself, so each stands once.
    ensures order { IfOk result (λ v. AllPairs Before v.items) }
{
    let mut candidates = pairs(alloc, step, limits.k(), allowed)?;
    candidates.sort_unstable_by(|a, b| search_cmp(*a, *b));
    Ok(candidates)
}
