ghost use Rattle.std.specs.{Prelude.{◌≡◌, IfOk, map}, List.list_any};
ghost use Rattle.schedule.specs.{Links.{GroupValue, IsGroup, reversed_group, turned}, Placed.same_pair};

use crate::OutOfMemory;
use std::alloc::Global;
use std::marker::Model;

/// Directed links that share a width. A link is a pair of the nodes that it leaves and enters.
#[derive(Clone, Debug, Drop)]
pub struct Group {
    links: Vec<(u8, u8)>,
    width: u8,
}

impl Model for Group {
    ghost use Rattle.schedule.specs.Links.{GroupValue, IsGroup};

    ghost Value = { GroupValue };

    ghost view = { λ g. record { links = g.links.items; width = g.width } };

    ghost invariant = { λ g. IsGroup (record { links = g.links.items; width = g.width }) };
}

impl Group {
    /// The group of these links, each once and between two different nodes, with a width from 1 to
    /// 16.
    pub fn new(links: Vec<(u8, u8)>, width: u8) -> Group
        requires { IsGroup (record { links = links.items; width = width }) }
        ensures { result ≡ record { links = links.items; width = width } }
    {
        Group { links, width }
    }

    /// The links, in the order in which they were given.
    pub fn links(&self) -> &[(u8, u8)]
        ensures links { result.now ≡ self.now.links }
        ensures limits { IsGroup self.now }
    {
        &self.links
    }

    /// How many chunks may cross the links together in one round, from 1 to 16.
    pub fn width(&self) -> u8
        ensures width { result ≡ self.now.width }
        ensures limits { IsGroup self.now }
    {
        self.width
    }

    /// The group with each link turned round in its place. The only error is `OutOfMemory`.
    pub(crate) fn reversed(&self) -> Result<Group, OutOfMemory>
        ensures { IfOk result (λ g. g ≡ reversed_group self.now) }
    {
        let links = turned(*self.links.allocator(), &self.links)?;
        Ok(Group {
            links,
            width: self.width,
        })
    }
}

/// The links, each turned round in its place.
fn turned(alloc: Global, links: &[(u8, u8)]) -> Result<Vec<(u8, u8)>, OutOfMemory>
    ensures { IfOk result (λ v. v.items ≡ map turned links.now) }
{
    links.iter().map(|link| (link.1, link.0)).collect(alloc)
}

/// Whether the link is one of them.
pub fn has_link(links: &[(u8, u8)], link: (u8, u8)) -> bool
    ensures { result ≡ list_any (same_pair link) links.now }
{
    links
        .iter()
        .any(|other| link.0 == other.0 && link.1 == other.1)
}
