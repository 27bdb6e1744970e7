//! Sets of nodes, and those that are looked at.

ghost use Rattle.std.specs.{Prelude.{◌≡◌, ◌<◌, ◌≤◌, ◌-◌, ◌^◌, map, IfOk}, List.range_with_len};
ghost use Rattle.node_cuts.specs.{Sides.{mask_of, node_sets}, inner.Listed.{listed_sides, members}};

use crate::OutOfMemory;
use crate::mask::has_any_node;
use crate::sets::Sets;
use crate::side::{Side, listed_sides};
use std::alloc::Global;

/// A set of nodes.
#[derive(Clone, Copy)]
pub(crate) enum Members {
    /// A side of a cut.
    Sided(Side),
    /// The nodes for which a bit stands: bit n stands for node n.
    Bits(u16),
}

impl Members {
    /// Whether the node is a member.
    pub(crate) fn has(self, node: u8) -> bool
        ensures { result ≡ members self node }
    {
        match self {
            Members::Sided(side) => side.has(node),
            Members::Bits(bits) => has_any_node(bits, node),
        }
    }

    /// The members among so many nodes, as bits.
    pub(crate) fn mask(self, nodes: u8) -> u16
        requires { nodes ≤ 16 }
        ensures { result ≡ mask_of nodes (members self) }
    {
        let mut mask = 0;
        let mut bit: u32 = 1;
        for node in 0..nodes {
            if self.has(node) {
                mask += bit;
            }
            bit *= 2;
        }
        mask as u16
    }
}

/// The listed sets of so many nodes.
fn sided(alloc: Global, nodes: u8) -> Result<Vec<Members>, OutOfMemory>
    requires { nodes ≤ 16 }
    ensures { IfOk result (λ sets. sets.items ≡ map Members.Sided (listed_sides nodes)) }
{
    let sides = listed_sides(alloc, nodes)?;
    sides
        .iter()
        .map(|side| Members::Sided(*side))
        .collect(alloc)
}

/// Each set of so many nodes but the empty one, ascending by its bits.
fn numbered(alloc: Global, nodes: u8) -> Result<Vec<Members>, OutOfMemory>
    requires { nodes ≤ 16 }
    ensures { IfOk result (λ sets. sets.items ≡ map Members.Bits (range_with_len 1 (2 ^ nodes - 1))) }
{
    (1..1u32 << nodes)
        .map(|bits| Members::Bits(bits as u16))
        .collect(alloc)
}

/// The sets of so many nodes that are looked at, in order.
pub(crate) fn node_sets(alloc: Global, sets: Sets, nodes: u8) -> Result<Vec<Members>, OutOfMemory>
    requires { nodes ≤ 16 }
    ensures { IfOk result (λ all. map members all.items ≡ node_sets sets nodes) }
{
    match sets {
        Sets::Nothing => Ok(Vec::new(alloc)),
        Sets::Listed => sided(alloc, nodes),
        Sets::All => numbered(alloc, nodes),
    }
}
