ghost use Rattle.std.specs.Prelude.{◌≡◌, IfOk};
ghost use Rattle.schedule.specs.Links.{TopologyValue, IsTopology, usable_links, reversed_of};

use crate::OutOfMemory;
use crate::group::Group;
use crate::links::LinkTable;
use std::marker::Model;

/// Nodes, numbered from 0, and groups of directed links between them. A link may stand in several
/// groups, and is charged in each. A link is usable where it stands in some group.
#[derive(Clone, Debug, Drop)]
pub struct Topology {
    nodes: u8,
    groups: Vec<Group>,
}

impl Model for Topology {
    ghost use Rattle.schedule.specs.Links.{TopologyValue, IsTopology};

    ghost Value = { TopologyValue };

    ghost view = { λ t. record { nodes = t.nodes; groups = t.groups.items } };

    ghost invariant = { λ t. IsTopology (record { nodes = t.nodes; groups = t.groups.items }) };
}

impl Topology {
    /// The topology of 1 to 16 nodes and at most 256 groups, whose links join nodes below `nodes`.
    pub fn new(nodes: u8, groups: Vec<Group>) -> Topology
        requires { IsTopology (record { nodes = nodes; groups = groups.items }) }
        ensures { result ≡ record { nodes = nodes; groups = groups.items } }
    {
        Topology { nodes, groups }
    }

    /// The number of nodes, from 1 to 16.
    pub fn nodes(&self) -> u8
        ensures nodes { result ≡ self.now.nodes }
        ensures limits { IsTopology self.now }
    {
        self.nodes
    }

    /// The groups, at most 256, in the order in which they were given.
    pub fn groups(&self) -> &[Group]
        ensures groups { result.now ≡ self.now.groups }
        ensures limits { IsTopology self.now }
    {
        &self.groups
    }

    /// The usable links, each once, ascending by the node that they leave and then the one that
    /// they enter. The only error is `OutOfMemory`.
    #[tactic(auto, using(crate::proofs::Usable::marked_usable))]
    pub fn links(&self) -> Result<Vec<(u8, u8)>, OutOfMemory>
        ensures { IfOk result (λ links. links.items ≡ usable_links self.now) }
    {
        LinkTable::usable(self).between(*self.groups.allocator(), self.nodes)
    }

    /// The topology with each link turned round in its place. The only error is `OutOfMemory`.
    #[tactic(auto, using(crate::proofs::Turned::pushes_mapped, crate::proofs::Turned::turned_topology))]
    pub fn reversed(&self) -> Result<Topology, OutOfMemory>
        ensures { IfOk result (λ t. t ≡ reversed_of self.now) }
    {
        let mut groups = Vec::new(*self.groups.allocator());
        for group in &self.groups {
            groups.push(group.reversed()?)?;
        }
        Ok(Topology {
            nodes: self.nodes,
            groups,
        })
    }
}
