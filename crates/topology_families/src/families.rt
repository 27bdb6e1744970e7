//! Families of topologies that are often met.

ghost use Rattle.std.specs.{Prelude.{◌≡◌, ◌<◌, ◌≤◌, map, IsTrue, IfOk}, List.range_with_len};
ghost use Rattle.topology_families.specs.Family.{is_allowed, family_links, family_groups, family_of, numbered_name};

use crate::family_kind::{FamilyKind, has_family_link};
use crate::grouping::{box_groups, own_groups, port_groups};
use schedule::{Group, Topology};
use std::alloc::{AllocError, Global};
use text_lines::{push_number, push_word};
use topology_text::{Name, NamedTopology};

/// The name of a node by its number.
fn numbered_name(alloc: Global, node: u8) -> Result<Name, AllocError>
    requires { node < 16 }
    ensures { IfOk result (λ n. n ≡ numbered_name node) }
{
    let mut bytes = Vec::new(alloc);
    push_word(&mut bytes, b"n")?;
    push_number(&mut bytes, u64::from(node))?;
    Ok(Name::of_bytes(&bytes).unwrap())
}

#[tactic(auto, using(crate::proofs::FamilyLaws::names_more))]
fn numbered_names(alloc: Global, size: u8) -> Result<Vec<Name>, AllocError>
    requires { size ≤ 16 }
    ensures { IfOk result (λ v. v.items ≡ map numbered_name (range_with_len 0 size)) }
{
    let mut names = Vec::new(alloc);
    for node in 0..size {
        names.push(numbered_name(alloc, node)?)?;
    }
    Ok(names)
}

/// The links of the family, ascending.
fn family_links(alloc: Global, kind: FamilyKind, size: u8) -> Result<Vec<(u8, u8)>, AllocError>
    requires some { 0 < size }
    requires few { size ≤ 16 }
    ensures { IfOk result (λ v. v.items ≡ family_links kind size) }
{
    let mut links = Vec::new(alloc);
    let nodes = u16::from(size);
    for place in 0..nodes * nodes {
        let from = (place / nodes) as u8;
        let to = (place % nodes) as u8;
        if has_family_link(kind, size, from, to) {
            links.push((from, to))?;
        }
    }
    Ok(links)
}

fn family_groups(alloc: Global, kind: FamilyKind, size: u8) -> Result<Vec<Group>, AllocError>
    requires { IsTrue (is_allowed kind size) }
    ensures { IfOk result (λ v. v.items ≡ family_groups kind size) }
{
    let links = family_links(alloc, kind, size)?;
    match kind {
        FamilyKind::Shared => {
            let mut groups = Vec::new(alloc);
            groups.push(Group::new(links, 1))?;
            Ok(groups)
        }
        FamilyKind::Switch => port_groups(alloc, &links, size),
        FamilyKind::Boxes => {
            let cables = family_links(alloc, FamilyKind::Complete, size / 4)?;
            box_groups(alloc, &links, &cables)
        }
        FamilyKind::Mesh => own_groups(alloc, true, &links),
        FamilyKind::Line
        | FamilyKind::Ring
        | FamilyKind::Complete
        | FamilyKind::Cube
        | FamilyKind::Torus => own_groups(alloc, false, &links),
    }
}

/// The family's topology: nodes `n0`, `n1` and so on, and for each directed link a group of its own
/// of width 1, ascending by the nodes that it leaves and enters. In `Shared` all links are in one
/// group; in `Mesh` a link of the ring 0 4 7 6 5 1 2 3 has width 2; in `Switch` each node has two
/// groups in place of those, of the links that leave it (all these first) and of those that enter
/// it; in `Boxes` the links from a box to another are one group, behind all others. An `Err` comes
/// only where memory runs out.
pub fn family(alloc: Global, kind: FamilyKind, size: u8) -> Result<NamedTopology, AllocError>
    requires { IsTrue (is_allowed kind size) }
    ensures { IfOk result (λ t. t ≡ family_of kind size) }
{
    let names = numbered_names(alloc, size)?;
    let groups = family_groups(alloc, kind, size)?;
    Ok(NamedTopology::new(names, Topology::new(size, groups), None))
}
