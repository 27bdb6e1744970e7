//! What can come into a set of nodes: the groups that cover the links into it, in the topology's
//! order and in its reverse.

ghost use Rattle.std.specs.Prelude.{◌≡◌, ◌<◌, ◌++◌, ◌∷◌, ◌&&◌, [], if◌then◌else◌, not, length, All, IfOk, OnOk};
ghost use Rattle.schedule.specs.{Links.{IsBelow, IsTopology, has_link}, Tables.{Marks, marked_at}, Judging.group_at};
ghost use Rattle.node_cuts.specs.{Sides.NodeSet, Cuts.{all_groups, cover, cover_back, enters, taken_along}, Opened.is_open};

use crate::OutOfMemory;
use crate::open_links::OpenLinks;
use schedule::{Group, Topology};
use std::alloc::Global;

/// The group of this number.
#[tactic(auto, using(schedule::proofs::Overfull::group_read))]
pub(crate) fn group_at(topology: &Topology, group: u16) -> &Group
    requires { group < length topology.now.groups }
    ensures group { result.now ≡ group_at topology.now group }
    ensures links { All (IsBelow 16) result.now.links }
    ensures limits { IsTopology topology.now }
{
    &topology.groups()[group as usize]
}

/// Takes the group, where it has a link that is open.
fn take_group(
    topology: &Topology,
    uncovered: &mut OpenLinks,
    groups: &mut Vec<u16>,
    number: u16,
) -> Result<(), OutOfMemory>
    requires { number < length topology.now.groups }
    ensures taken { OnOk result (groups.new.items ≡ groups.old.items ++ (if is_open uncovered.old.cells (group_at topology.now number) then number ∷ [] else [])) }
    ensures limits { IsTopology topology.now }
    ensures left { OnOk result (Marks uncovered.new.cells (λ link. marked_at uncovered.old.cells link && not (is_open uncovered.old.cells (group_at topology.now number) && has_link (group_at topology.now number) link))) }
{
    let links = group_at(topology, number).links();
    if uncovered.any(links) {
        groups.push(number)?;
        uncovered.remove(links);
    }
    Ok(())
}

/// The numbers of all groups.
pub(crate) fn all_groups(alloc: Global, topology: &Topology) -> Result<Vec<u16>, OutOfMemory>
    ensures groups { IfOk result (λ groups. groups.items ≡ all_groups topology.now) }
    ensures limits { IsTopology topology.now }
{
    let mut groups = Vec::with_capacity(alloc, topology.groups().len())?;
    for number in 0..topology.groups().len() as u16 {
        groups.push(number)?;
    }
    Ok(groups)
}

/// Of these groups in turn, each that has a link into a set that stands in none taken before.
fn taken_along(
    alloc: Global,
    into: OpenLinks,
    topology: &Topology,
    numbers: &[u16],
) -> Result<Vec<u16>, OutOfMemory>
    requires { All (λ group. group < length topology.now.groups) numbers.now }
    ensures { IfOk result (λ groups. (u : NodeSet) → Marks into.cells (enters u) → groups.items ≡ taken_along u topology.now [] numbers.now) }
{
    let mut uncovered = into;
    let mut groups = Vec::new(alloc);
    for number in numbers {
        take_group(topology, &mut uncovered, &mut groups, *number)?;
    }
    Ok(groups)
}

/// The numbers of the groups that cover the links into a set, in the topology's order.
pub(crate) fn cover(
    alloc: Global,
    into: OpenLinks,
    topology: &Topology,
) -> Result<Vec<u16>, OutOfMemory>
    ensures cover { IfOk result (λ groups. (u : NodeSet) → Marks into.cells (enters u) → groups.items ≡ cover u topology.now) }
    ensures limits { IsTopology topology.now }
{
    let all = all_groups(alloc, topology)?;
    taken_along(alloc, into, topology, &all)
}

/// The same in the reverse of that order.
pub(crate) fn cover_back(
    alloc: Global,
    into: OpenLinks,
    topology: &Topology,
) -> Result<Vec<u16>, OutOfMemory>
    ensures { IfOk result (λ groups. (u : NodeSet) → Marks into.cells (enters u) → groups.items ≡ cover_back u topology.now) }
{
    let mut back = all_groups(alloc, topology)?;
    back.reverse();
    let mut groups = taken_along(alloc, into, topology, &back)?;
    groups.reverse();
    Ok(groups)
}
