//! What has to come into a set of nodes, and what can.

ghost use Rattle.std.specs.Prelude.{◌≡◌, ◌*◌, ◌<◌, count_by, filter, length, nat_lt, IfOk};
ghost use Rattle.node_cuts.specs.{inner.Listed.members, Cuts.{all_groups, width_by}, Opened.is_alone, Holders.is_lacking, Tables.IsSmall};

use crate::OutOfMemory;
use crate::holders::{Holders, need};
use crate::members::Members;
use crate::sets::Sets;
use crate::widths::{cover_by, width_of};
use schedule::Topology;
use std::alloc::Global;

/// How many chunks have to come into a set of nodes, and how many can in one round.
#[derive(Clone, Copy)]
pub struct Measure {
    pub need: u32,
    pub width: u32,
}

impl Measure {
    /// Whether so many times what has to come in is more than can in so many rounds.
    pub(crate) fn refutes(self, times: u8, rounds: u8) -> bool
        ensures { result ≡ nat_lt (self.width * rounds) (self.need * times) }
    {
        u64::from(self.need) * u64::from(times) > u64::from(self.width) * u64::from(rounds)
    }
}

/// What has to come into the set by the holders of each chunk, and what can in one round.
pub(crate) fn measure_of(
    alloc: Global,
    sets: Sets,
    set: Members,
    topology: &Topology,
    alone: &[u16],
    holders: &[Holders],
) -> Result<Measure, OutOfMemory>
    requires alone { alone.now ≡ filter (is_alone topology.now) (all_groups topology.now) }
    requires few { length holders.now < 65536 }
    ensures measure { IfOk result (λ measure. measure ≡ record { need = count_by (is_lacking (members set)) holders.now; width = width_by sets (members set) topology.now }) }
    ensures small { IfOk result IsSmall }
{
    let groups = cover_by(alloc, sets, set, topology, alone)?;
    Ok(Measure {
        need: need(set, holders),
        width: width_of(topology, &groups),
    })
}
