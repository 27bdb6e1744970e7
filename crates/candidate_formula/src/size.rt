//! How large a search is.

ghost use Rattle.std.specs.Prelude.{◌≡◌, ◌≤◌, ◌*◌, IfOk, length, sum_by};
ghost use Rattle.round_encoding.specs.Candidates.{group_size};
ghost use Rattle.candidate_formula.specs.Sizes.{size_of};

use crate::OutOfMemory;
use candidate_order::Limits;
use collective_spec::Spec;
use schedule::{Group, Topology};

/// The variables of a group's counters, one counter a step.
fn group_size(group: &Group, chunks: u16, steps: u8, extra: u8) -> u64
    requires links { length group.now.links ≤ 256 }
    requires steps { steps ≤ 8 }
    requires extra { extra ≤ 8 }
    ensures { result ≡ group_size chunks steps extra group.now }
{
    let counted = group.links().len() as u64 * u64::from(chunks) * u64::from(steps);
    counted * (u64::from(group.width()) * (1 + u64::from(extra)) + 1)
}

/// The variables of the counters of all groups.
#[tactic(auto, using(crate::proofs::Links::group_links, crate::proofs::Sizes::groups_more, crate::proofs::Sizes::groups_taken))]
fn groups_size(topology: &Topology, chunks: u16, steps: u8, extra: u8) -> u64
    requires steps { steps ≤ 8 }
    requires extra { extra ≤ 8 }
    ensures size { result ≡ sum_by (group_size chunks steps extra) topology.now.groups }
    ensures few { result ≤ 4982162063360 }
{
    let mut size = 0;
    for group in topology.groups() {
        size += group_size(group, chunks, steps, extra);
    }
    size
}

/// The variables of the sends, one for each chunk, usable link and step.
#[tactic(auto, using(crate::proofs::Sizes::few_sent))]
fn sends_size(chunks: u16, links: usize, steps: u8) -> u64
    requires links { links ≤ 256 }
    requires steps { steps ≤ 8 }
    ensures size { result ≡ chunks * links * steps }
    ensures few { result ≤ 134217728 }
{
    u64::from(chunks) * links as u64 * u64::from(steps)
}

/// How large a search within these limits is: a variable for each chunk, usable link and step, and
/// those of the counters of the groups, in the formula of the candidate with the most steps, rounds
/// and chunks. The only error is `OutOfMemory`.
#[tactic(auto, using(crate::proofs::Links::few_usable))]
pub fn size_number(topology: &Topology, spec: &Spec, limits: &Limits) -> Result<u64, OutOfMemory>
    ensures { IfOk result (λ size. size ≡ size_of (record { topology = topology.now; spec = spec.now; limits = limits.now })) }
{
    let chunks = spec.chunks(topology.nodes(), limits.max_c());
    let sends = sends_size(chunks, topology.links()?.len(), limits.max_s());
    Ok(sends + groups_size(topology, chunks, limits.max_s(), limits.k()))
}
