//! How many chunks groups carry together, and the narrowest cover.

ghost use Rattle.std.specs.Prelude.{◌≡◌, ◌<◌, ◌≤◌, filter, length, All, IfOk};
ghost use Rattle.node_cuts.specs.{inner.Listed.members, Cuts.{all_groups, cover_by, narrower, width_of}, Opened.is_alone};

use crate::OutOfMemory;
use crate::covering::{cover, cover_back, group_at};
use crate::greedy::cover_greedily;
use crate::members::Members;
use crate::open_links::OpenLinks;
use crate::sets::Sets;
use schedule::Topology;
use std::alloc::Global;

/// How many chunks the groups carry together in one round.
pub(crate) fn width_of(topology: &Topology, groups: &[u16]) -> u32
    requires within { All (λ group. group < length topology.now.groups) groups.now }
    requires few { length groups.now ≤ 256 }
    ensures sum { result ≡ width_of topology.now groups.now }
    ensures narrow { result ≤ 4096 }
{
    let mut width = 0;
    for &group in groups {
        width += u32::from(group_at(topology, group).width());
    }
    width
}

/// The second where it carries less, else the first.
fn narrower(topology: &Topology, first: Vec<u16>, second: Vec<u16>) -> Vec<u16>
    requires first { All (λ group. group < length topology.now.groups) first.items }
    requires few_first { length first.items ≤ 256 }
    requires second { All (λ group. group < length topology.now.groups) second.items }
    requires few_second { length second.items ≤ 256 }
    ensures { result.items ≡ narrower topology.now first.items second.items }
{
    if width_of(topology, &second) < width_of(topology, &first) {
        second
    } else {
        first
    }
}

/// The numbers of the groups that cover the links into the set, ascending: where every set is
/// looked at, the narrowest of three covers, and else the one in the topology's order.
pub(crate) fn cover_by(
    alloc: Global,
    sets: Sets,
    set: Members,
    topology: &Topology,
    alone: &[u16],
) -> Result<Vec<u16>, OutOfMemory>
    requires { alone.now ≡ filter (is_alone topology.now) (all_groups topology.now) }
    ensures cover { IfOk result (λ groups. groups.items ≡ cover_by sets (members set) topology.now) }
    ensures within { IfOk result (λ groups. All (λ group. group < length topology.now.groups) groups.items) }
    ensures few { IfOk result (λ groups. length groups.items ≤ 256) }
{
    let into = OpenLinks::into(set);
    let first = cover(alloc, into, topology)?;
    match sets {
        Sets::Nothing | Sets::Listed => Ok(first),
        Sets::All => {
            let second = cover_back(alloc, into, topology)?;
            let third = cover_greedily(alloc, into, topology, alone)?;
            Ok(narrower(topology, narrower(topology, first, second), third))
        }
    }
}
