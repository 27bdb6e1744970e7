//! The sets of nodes that are looked at: the listed sets.

ghost use Rattle.std.specs.{Prelude.{◌≡◌, ◌<◌, ◌≤◌, ◌+◌, ◌-◌, ◌++◌, map, IfOk, OnOk}, List.range_with_len};
ghost use Rattle.node_cuts.specs.inner.Listed.{complement, listed_sides, set_of, small_sides, two_sides};

use crate::OutOfMemory;
use std::alloc::Global;

/// A side of a cut: one node, two nodes, or all nodes but these.
#[derive(Clone, Copy)]
pub(crate) enum Side {
    One(u8),
    Two(u8, u8),
    AllButOne(u8),
    AllButTwo(u8, u8),
}

impl Side {
    /// Whether the node is a member.
    pub(crate) fn has(self, node: u8) -> bool
        ensures { result ≡ set_of self node }
    {
        match self {
            Side::One(a) => node == a,
            Side::Two(a, b) => node == a || node == b,
            Side::AllButOne(a) => node != a,
            Side::AllButTwo(a, b) => !(node == a || node == b),
        }
    }

    /// All nodes that are no members.
    fn complement(self) -> Side
        ensures { result ≡ complement self }
    {
        match self {
            Side::One(a) => Side::AllButOne(a),
            Side::Two(a, b) => Side::AllButTwo(a, b),
            Side::AllButOne(a) => Side::One(a),
            Side::AllButTwo(a, b) => Side::Two(a, b),
        }
    }
}

/// Adds each two nodes of which the first is this.
fn push_with(sides: &mut Vec<Side>, first: u8, nodes: u8) -> Result<(), OutOfMemory>
    requires first { first < nodes }
    requires few { nodes ≤ 16 }
    ensures { OnOk result (sides.new.items ≡ sides.old.items ++ map (λ second. Side.Two first second) (range_with_len (first + 1) (nodes - (first + 1)))) }
{
    for second in first + 1..nodes {
        sides.push(Side::Two(first, second))?;
    }
    Ok(())
}

/// Each two nodes of so many, after other sets.
#[tactic(auto, using(crate::proofs::Listing::rows_more))]
fn push_twos(sides: &mut Vec<Side>, nodes: u8) -> Result<(), OutOfMemory>
    requires { nodes ≤ 16 }
    ensures { OnOk result (sides.new.items ≡ sides.old.items ++ two_sides nodes) }
{
    for first in 0..nodes {
        push_with(sides, first, nodes)?;
    }
    Ok(())
}

/// Each one node and each two nodes of so many.
#[tactic(auto, using(crate::proofs::Listing::ones_more))]
fn small_sides(alloc: Global, nodes: u8) -> Result<Vec<Side>, OutOfMemory>
    requires { nodes ≤ 16 }
    ensures { IfOk result (λ sides. sides.items ≡ small_sides nodes) }
{
    let mut sides = Vec::new(alloc);
    for node in 0..nodes {
        sides.push(Side::One(node))?;
    }
    push_twos(&mut sides, nodes)?;
    Ok(sides)
}

/// The sets of so many nodes that are looked at, in order.
pub(crate) fn listed_sides(alloc: Global, nodes: u8) -> Result<Vec<Side>, OutOfMemory>
    requires { nodes ≤ 16 }
    ensures { IfOk result (λ sides. sides.items ≡ listed_sides nodes) }
{
    let small = small_sides(alloc, nodes)?;
    let mut sides = small.clone()?;
    for side in &small {
        sides.push(side.complement())?;
    }
    Ok(sides)
}
