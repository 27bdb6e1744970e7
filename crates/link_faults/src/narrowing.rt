//! What a fault leaves of a topology.

ghost use Rattle.std.specs.Prelude.{◌≡◌, ◌<◌, length, slice_set, IfOk};
ghost use Rattle.schedule.specs.Judging.{group_at};
ghost use Rattle.link_faults.specs.Narrowed.{groups_after, left_of, narrowed, with_width, without_links};

use crate::OutOfMemory;
use schedule::{Group, Topology, has_link};
use std::alloc::Global;
use topology_text::NamedTopology;

/// The links of a group that do not stand in another.
fn links_without(alloc: Global, group: &Group, lost: &Group) -> Result<Vec<(u8, u8)>, OutOfMemory>
    ensures { IfOk result (λ links. links.items ≡ (without_links lost.now group.now).links) }
{
    let mut links = Vec::new(alloc);
    for link in group.links() {
        if !has_link(lost.links(), *link) {
            links.push(*link)?;
        }
    }
    Ok(links)
}

/// The groups without the links of one; those that are left without links are dropped.
fn groups_without(alloc: Global, groups: &[Group], lost: &Group) -> Result<Vec<Group>, OutOfMemory>
    ensures { IfOk result (λ left. left.items ≡ left_of lost.now groups.now) }
{
    let mut left = Vec::new(alloc);
    for group in groups {
        let links = links_without(alloc, group, lost)?;
        if !links.is_empty() {
            left.push(Group::new(links, group.width()))?;
        }
    }
    Ok(left)
}

/// The groups, one of them with another width.
fn groups_with_width(
    alloc: Global,
    topology: &Topology,
    group: u16,
    width: u8,
) -> Result<Vec<Group>, OutOfMemory>
    requires group { group < length topology.now.groups }
    requires some { 0 < width }
    requires width { width < (group_at topology.now group).width }
    ensures { IfOk result (λ all. all.items ≡ slice_set topology.now.groups group (with_width width (group_at topology.now group))) }
{
    let place = usize::from(group);
    let narrower = Vec::from_slice(alloc, topology.groups()[place].links())?;
    let mut all = Vec::new(alloc);
    for other in topology.groups() {
        let links = Vec::from_slice(alloc, other.links())?;
        all.push(Group::new(links, other.width()))?;
    }
    all[place] = Group::new(narrower, width);
    Ok(all)
}

/// The groups after a fault that leaves one of them so wide.
#[tactic(auto, using(crate::proofs::Sound::groups_gone, crate::proofs::Sound::groups_narrower))]
fn groups_after(
    alloc: Global,
    topology: &Topology,
    group: u16,
    width: u8,
) -> Result<Vec<Group>, OutOfMemory>
    requires group { group < length topology.now.groups }
    requires width { width < (group_at topology.now group).width }
    ensures { IfOk result (λ groups. groups.items ≡ groups_after topology.now group width) }
{
    if width == 0 {
        let groups = topology.groups();
        groups_without(alloc, groups, &groups[usize::from(group)])
    } else {
        groups_with_width(alloc, topology, group, width)
    }
}

/// The topology after a fault that leaves a group so wide: where `width` is 0, its links are gone
/// from every group, and a group that is left without links is dropped. The names and the pattern
/// stay. The only error is `OutOfMemory`.
pub fn narrow(
    alloc: Global,
    value: &NamedTopology,
    group: u16,
    width: u8,
) -> Result<NamedTopology, OutOfMemory>
    requires group { group < length value.now.topology.groups }
    requires width { width < (group_at value.now.topology group).width }
    ensures { IfOk result (λ t. t ≡ record { names = value.now.names; topology = narrowed value.now.topology group width; custom = value.now.custom }) }
{
    let old = value.topology();
    let groups = groups_after(alloc, old, group, width)?;
    let names = Vec::from_slice(alloc, value.names())?;
    let custom = match value.custom() {
        Some(pattern) => Some(pattern.clone()?),
        None => None,
    };
    Ok(NamedTopology::new(names, Topology::new(old.nodes(), groups), custom))
}
