//! The groups of families, made of their links.

ghost use Rattle.std.specs.{Prelude.{◌≡◌, ◌==◌, ◌<◌, ◌++◌, ℕ, Bool, if◌then◌else◌, All, map, filter, IfOk, OnOk}, List.{list_any, range_with_len}};
ghost use Rattle.schedule.specs.{Links.{IsLink, IsGroup}, Placed.same_pair};
ghost use Rattle.topology_families.specs.Family.{cable, double_ring, is_inside, mesh_group, port, single};

use crate::family_kind::is_inside;
use schedule::Group;
use std::alloc::{AllocError, Global};

/// Whether a mesh has the link in its ring of double links, in the one direction.
fn is_in_double_ring(from: u8, to: u8) -> bool
    ensures { result ≡ list_any (same_pair (from, to)) double_ring }
{
    matches!(
        (from, to),
        (0, 4) | (4, 7) | (7, 6) | (6, 5) | (5, 1) | (1, 2) | (2, 3) | (3, 0)
    )
}

/// The width of a link, in a mesh or else.
fn own_width(mesh: bool, from: u8, to: u8) -> u8
    ensures { result ≡ ((if mesh then mesh_group else single) (from, to)).width }
{
    if mesh && (is_in_double_ring(from, to) || is_in_double_ring(to, from)) {
        2
    } else {
        1
    }
}

/// The link in a group of its own.
#[tactic(auto, using(crate::proofs::FamilyGroups::own_is_group))]
fn own_group(alloc: Global, mesh: bool, from: u8, to: u8) -> Result<Group, AllocError>
    requires { IsLink (from, to) }
    ensures { IfOk result (λ g. g ≡ (if mesh then mesh_group (from, to) else single (from, to))) }
{
    let links = Vec::from_slice(alloc, &[(from, to)])?;
    Ok(Group::new(links, own_width(mesh, from, to)))
}

/// A group of its own for each link, of width 1 but in a mesh.
pub(crate) fn own_groups(
    alloc: Global,
    mesh: bool,
    links: &[(u8, u8)],
) -> Result<Vec<Group>, AllocError>
    requires { All IsLink links.now }
    ensures { IfOk result (λ v. v.items ≡ map (if mesh then mesh_group else single) links.now) }
{
    let mut groups = Vec::new(alloc);
    for (from, to) in links {
        groups.push(own_group(alloc, mesh, *from, *to)?)?;
    }
    Ok(groups)
}

/// The links that leave the node, if the port is for these, and else those that enter it.
fn at_port(
    alloc: Global,
    links: &[(u8, u8)],
    node: u8,
    out: bool,
) -> Result<Vec<(u8, u8)>, AllocError>
    ensures { IfOk result (λ v. v.items ≡ filter (λ link. (if out then link.0 else link.1) == node) links.now) }
{
    links
        .iter()
        .copied()
        .filter(|link| (if out { link.0 } else { link.1 }) == node)
        .collect(alloc)
}

#[tactic(auto, using(crate::proofs::FamilyGroups::nodes_more))]
fn push_ports(
    groups: &mut Vec<Group>,
    links: &[(u8, u8)],
    size: u8,
    out: bool,
) -> Result<(), AllocError>
    requires { (node : ℕ) → node < size → IsGroup (port (λ link. if out then link.0 else link.1) links.now node) }
    ensures { OnOk result (groups.new.items ≡ groups.old.items ++ map (port (λ link. if out then link.0 else link.1) links.now) (range_with_len 0 size)) }
{
    for node in 0..size {
        let port = at_port(*groups.allocator(), links, node, out)?;
        groups.push(Group::new(port, 1))?;
    }
    Ok(())
}

/// A group for each port: those out, and then those in.
pub(crate) fn port_groups(
    alloc: Global,
    links: &[(u8, u8)],
    size: u8,
) -> Result<Vec<Group>, AllocError>
    requires { (out : Bool) (node : ℕ) → node < size → IsGroup (port (λ link. if out then link.0 else link.1) links.now node) }
    ensures { IfOk result (λ v. v.items ≡ map (port (λ link. link.0) links.now) (range_with_len 0 size) ++ map (port (λ link. link.1) links.now) (range_with_len 0 size)) }
{
    let mut groups = Vec::new(alloc);
    push_ports(&mut groups, links, size, true)?;
    push_ports(&mut groups, links, size, false)?;
    Ok(groups)
}

/// The links that stay in a box.
fn inside(alloc: Global, links: &[(u8, u8)]) -> Result<Vec<(u8, u8)>, AllocError>
    ensures { IfOk result (λ v. v.items ≡ filter is_inside links.now) }
{
    links
        .iter()
        .copied()
        .filter(|link| is_inside(link.0, link.1))
        .collect(alloc)
}

/// The links from the one box to the other.
fn between(alloc: Global, links: &[(u8, u8)], from: u8, to: u8) -> Result<Vec<(u8, u8)>, AllocError>
    ensures { IfOk result (λ v. v.items ≡ (cable links.now (from, to)).links) }
{
    links
        .iter()
        .copied()
        .filter(|link| link.0 / 4 == from && link.1 / 4 == to)
        .collect(alloc)
}

fn push_cables(
    groups: &mut Vec<Group>,
    links: &[(u8, u8)],
    cables: &[(u8, u8)],
) -> Result<(), AllocError>
    requires { All (λ boxes. IsGroup (cable links.now boxes)) cables.now }
    ensures { OnOk result (groups.new.items ≡ groups.old.items ++ map (cable links.now) cables.now) }
{
    for (from, to) in cables {
        let cable = between(*groups.allocator(), links, *from, *to)?;
        groups.push(Group::new(cable, 1))?;
    }
    Ok(())
}

/// A group of its own for each link in a box, and then a group for each cable, from box to box.
pub(crate) fn box_groups(
    alloc: Global,
    links: &[(u8, u8)],
    cables: &[(u8, u8)],
) -> Result<Vec<Group>, AllocError>
    requires links { All IsLink links.now }
    requires cables { All (λ boxes. IsGroup (cable links.now boxes)) cables.now }
    ensures { IfOk result (λ v. v.items ≡ map single (filter is_inside links.now) ++ map (cable links.now) cables.now) }
{
    let mut groups = own_groups(alloc, false, &inside(alloc, links)?)?;
    push_cables(&mut groups, links, cables)?;
    Ok(groups)
}
