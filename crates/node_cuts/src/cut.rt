//! A set of nodes with what has to come into it, and what can.

ghost use Rattle.std.specs.Prelude.{◌≡◌};
ghost use Rattle.node_cuts.specs.Cuts.{CutValue};

use std::marker::Model;

/// A set of nodes, the groups that cover the links into it, how many chunks have to come into it,
/// and how many these groups carry in one round.
#[derive(Clone, Drop)]
pub struct Cut {
    nodes: u16,
    groups: Vec<u16>,
    need: u32,
    width: u32,
}

impl Model for Cut {
    ghost use Rattle.node_cuts.specs.Cuts.{CutValue};

    ghost Value = { CutValue };

    ghost view = { λ c. record { nodes = c.nodes; groups = c.groups.items; need = c.need; width = c.width } };
}

impl Cut {
    /// The cut of these parts.
    pub(crate) fn new(nodes: u16, groups: Vec<u16>, need: u32, width: u32) -> Cut
        ensures { result ≡ record { nodes = nodes; groups = groups.items; need = need; width = width } }
    {
        Cut {
            nodes,
            groups,
            need,
            width,
        }
    }

    /// The nodes: bit n stands for node n, and no bit is set that stands for none.
    pub fn nodes(&self) -> u16
        ensures { result ≡ self.now.nodes }
    {
        self.nodes
    }

    /// The numbers of the groups, ascending.
    pub fn groups(&self) -> &[u16]
        ensures { result.now ≡ self.now.groups }
    {
        &self.groups
    }

    /// How many chunks have to come in.
    pub fn need(&self) -> u32
        ensures { result ≡ self.now.need }
    {
        self.need
    }

    /// How many chunks can come in in one round.
    pub fn width(&self) -> u32
        ensures { result ≡ self.now.width }
    {
        self.width
    }
}
