ghost use Rattle.std.specs.{Prelude.{◌≡◌, ◌<◌, ◌≤◌, ◌^◌, ◌++◌, [], ◌∷◌, if◌then◌else◌, All, count_by, filter, length, map, IfOk, OnOk}, List.range_with_len};
ghost use Rattle.schedule.specs.{Links.{IsBelow, IsTopology, has_link, is_usable}, Placed.all_pairs, Sends.link_of, Tables.{Marks, AddsLinks, IsTabled, marked_at}};

use crate::OutOfMemory;
use crate::group::Group;
use crate::hop::Hop;
use crate::topology::Topology;
use std::alloc::Global;

/// The most nodes that a topology has.
const NODES: usize = 16;

/// A set of links between nodes below 16, with a cell for each.
#[derive(Drop)]
pub(crate) struct LinkTable {
    cells: [bool; 256],
}

impl LinkTable {
    /// The links of a group.
    pub(crate) fn of(group: &Group) -> LinkTable
        requires { All (IsBelow 16) group.now.links }
        ensures { Marks result.cells (has_link group.now) }
    {
        let mut table = LinkTable {
            cells: [false; 256],
        };
        table.add(group.links());
        table
    }

    /// The links that stand in some group.
    pub(crate) fn usable(topology: &Topology) -> LinkTable
        ensures marks { Marks result.cells (is_usable topology.now) }
        ensures limits { IsTopology topology.now }
    {
        let mut table = LinkTable {
            cells: [false; 256],
        };
        for group in topology.groups() {
            table.add(group.links());
        }
        table
    }

    fn add(&mut self, links: &[(u8, u8)])
        requires { All (IsBelow 16) links.now }
        ensures { AddsLinks self.old.cells self.new.cells links.now }
    {
        for &(from, to) in links {
            self.cells[from as usize * NODES + to as usize] = true;
        }
    }

    /// Whether the send's link is among them.
    pub(crate) fn has(&self, hop: &Hop) -> bool
        requires from { hop.now.from < 16 }
        requires to { hop.now.to < 16 }
        ensures { result ≡ marked_at self.now.cells (link_of hop.now) }
    {
        self.cells[hop.from as usize * NODES + hop.to as usize]
    }

    /// Its links between nodes below `nodes`, each once, ascending by the node that they leave and
    /// then the one that they enter.
    #[tactic(auto, using(crate::proofs::Usable::rows_more))]
    pub(crate) fn between(&self, alloc: Global, nodes: u8) -> Result<Vec<(u8, u8)>, OutOfMemory>
        requires { nodes ≤ 16 }
        ensures { IfOk result (λ links. links.items ≡ filter (marked_at self.now.cells) (all_pairs nodes nodes)) }
    {
        let mut links = Vec::new(alloc);
        for from in 0..nodes {
            self.push_from(&mut links, from, nodes)?;
        }
        Ok(links)
    }

    #[tactic(auto, using(crate::proofs::Usable::row_more))]
    fn push_from(&self, links: &mut Vec<(u8, u8)>, from: u8, nodes: u8) -> Result<(), OutOfMemory>
        requires from { from < 16 }
        requires nodes { nodes ≤ 16 }
        ensures { OnOk result (links.new.items ≡ links.old.items ++ filter (marked_at self.now.cells) (map (λ to. (from, to)) (range_with_len 0 nodes))) }
    {
        for to in 0..nodes {
            self.push_link(links, from, to)?;
        }
        Ok(())
    }

    /// The link, where it is among them, after others.
    fn push_link(&self, links: &mut Vec<(u8, u8)>, from: u8, to: u8) -> Result<(), OutOfMemory>
        requires from { from < 16 }
        requires to { to < 16 }
        ensures { OnOk result (links.new.items ≡ links.old.items ++ (if marked_at self.now.cells (from, to) then (from, to) ∷ [] else [])) }
    {
        if self.cells[from as usize * NODES + to as usize] {
            links.push((from, to))?;
        }
        Ok(())
    }

    /// How many of the sends have their link among them.
    pub(crate) fn count(&self, sends: &[Hop]) -> u32
        requires links { All (λ h. IsTabled (link_of h)) sends.now }
        requires few { length sends.now < 2 ^ 32 }
        ensures { result ≡ count_by (λ h. marked_at self.now.cells (link_of h)) sends.now }
    {
        sends.iter().filter(|hop| self.has(hop)).count() as u32
    }
}
