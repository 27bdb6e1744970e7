//! Groups that share no link with another.

ghost use Rattle.std.specs.{Prelude.{◌≡◌, ◌==◌, ◌<◌, ◌&&◌, filter, length, not, IfOk}, List.list_any};
ghost use Rattle.schedule.specs.{Links.has_link, Tables.Marks, Judging.group_at};
ghost use Rattle.node_cuts.specs.{Cuts.all_groups, Opened.is_alone};

use crate::OutOfMemory;
use crate::covering::group_at;
use crate::open_links::OpenLinks;
use schedule::Topology;
use std::alloc::Global;

/// Whether another group has one of these links, which are those of the group.
#[tactic(auto, using(crate::proofs::Opening::any_marked))]
fn shares(topology: &Topology, links: &OpenLinks, group: u16, other: u16) -> bool
    requires links { Marks links.now.cells (has_link (group_at topology.now group)) }
    requires other { other < length topology.now.groups }
    ensures { result ≡ (not (other == group) && list_any (has_link (group_at topology.now group)) (group_at topology.now other).links) }
{
    let others = group_at(topology, other).links();
    other != group && links.any(others)
}

/// Whether the group shares no link with another.
fn is_alone(topology: &Topology, group: u16) -> bool
    requires { group < length topology.now.groups }
    ensures { result ≡ is_alone topology.now group }
{
    let links = OpenLinks::of(group_at(topology, group).links());
    for other in 0..topology.groups().len() as u16 {
        if shares(topology, &links, group, other) {
            return false;
        }
    }
    true
}

/// The numbers of the groups that share no link with another, ascending.
pub(crate) fn alone_groups(alloc: Global, topology: &Topology) -> Result<Vec<u16>, OutOfMemory>
    ensures { IfOk result (λ groups. groups.items ≡ filter (is_alone topology.now) (all_groups topology.now)) }
{
    (0..topology.groups().len() as u16)
        .filter(|&number| is_alone(topology, number))
        .collect(alloc)
}
