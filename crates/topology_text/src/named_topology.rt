//! Topologies whose nodes have names, with the pattern of a collective where one is given.

ghost use Rattle.std.specs.Prelude.{◌≡◌, Some, None, IfOk, IfSome, IfNone};
ghost use Rattle.topology_text.specs.Value.{IsNamed, named_with};

use crate::name::Name;
use collective_spec::Pattern;
use indexmap::IndexSet;
use schedule::{Group, Topology};
use std::alloc::{AllocError, Global};
use std::marker::Model;

/// A topology with as many names as nodes, all different. The node numbered k from 0 has the name
/// at place k. A text of version 2 gives a pattern too, for as many nodes.
#[derive(Clone, Debug, Drop)]
pub struct NamedTopology {
    names: Vec<Name>,
    topology: Topology,
    custom: Option<Pattern>,
}

impl Model for NamedTopology {
    ghost use Rattle.topology_text.specs.Value.{NamedTopologyValue, IsNamed};

    ghost Value = { NamedTopologyValue };

    ghost view = { λ t. record { names = t.names.items; topology = t.topology; custom = t.custom } };

    ghost invariant = { λ t. IsNamed (record { names = t.names.items; topology = t.topology; custom = t.custom }) };
}

impl NamedTopology {
    /// The topology with these names of its nodes: as many as it has nodes, all different; and with
    /// this pattern, if one is given.
    pub fn new(names: Vec<Name>, topology: Topology, custom: Option<Pattern>) -> NamedTopology
        requires { IsNamed (record { names = names.items; topology = topology; custom = custom }) }
        ensures { result ≡ record { names = names.items; topology = topology; custom = custom } }
    {
        NamedTopology {
            names,
            topology,
            custom,
        }
    }

    /// The names, in the order of the nodes.
    pub fn names(&self) -> &[Name]
        ensures names { result.now ≡ self.now.names }
        ensures limits { IsNamed self.now }
    {
        &self.names
    }

    /// The topology of the nodes' numbers.
    pub fn topology(&self) -> &Topology
        ensures topology { result.now ≡ self.now.topology }
        ensures limits { IsNamed self.now }
    {
        &self.topology
    }

    /// The pattern of the collective; `None` exactly where none is given.
    pub fn custom(&self) -> Option<&Pattern>
        ensures some { IfSome result (λ pattern. self.now.custom ≡ Some pattern.now) }
        ensures none { IfNone result (self.now.custom ≡ None) }
        ensures limits { IsNamed self.now }
    {
        self.custom.as_ref()
    }

    /// The topology with these names of its nodes, in their order, these groups, and this pattern,
    /// if one is given. An `Err` comes only where memory runs out.
    pub fn from_parts(
        alloc: Global,
        names: &IndexSet<Name>,
        groups: Vec<Group>,
        custom: Option<Pattern>,
    ) -> Result<NamedTopology, AllocError>
        requires { IsNamed (named_with names.now.keys groups.items custom) }
        ensures { IfOk result (λ t. t ≡ named_with names.now.keys groups.items custom) }
    {
        let nodes = names.len() as u8;
        let names = Vec::from_slice(alloc, names.as_slice())?;
        Ok(NamedTopology::new(names, Topology::new(nodes, groups), custom))
    }
}
