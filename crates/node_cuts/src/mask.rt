//! Sets of nodes as bits.

ghost use Rattle.std.specs.Prelude.{◌≡◌, ◌<◌};
ghost use Rattle.node_cuts.specs.Sides.{has_bit};

/// Whether the node is in a set that is given as bits: bit n stands for node n.
pub fn has_node(nodes: u16, node: u8) -> bool
    requires { node < 16 }
    ensures { result ≡ has_bit nodes node }
{
    (nodes >> node) & 1 == 1
}

/// The same of every node: none from 16 on is in the set.
pub(crate) fn has_any_node(nodes: u16, node: u8) -> bool
    ensures { result ≡ has_bit nodes node }
{
    node < 16 && has_node(nodes, node)
}
