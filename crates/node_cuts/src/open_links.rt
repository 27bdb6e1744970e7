//! Sets of links, for a look-up that costs the same however many there are.

ghost use Rattle.std.specs.{Prelude.{◌≡◌, ◌<◌, count_by, All}, List.list_any};
ghost use Rattle.schedule.specs.{Links.IsBelow, Placed.same_pair, Tables.{Marks, marked_at}};
ghost use Rattle.node_cuts.specs.{inner.Listed.members, Cuts.enters, Opened.RemovesLinks};

use crate::members::Members;

/// The most nodes that a topology has.
const NODES: usize = 16;

/// Links, as those into a set of nodes that are not covered yet, with a cell for each link between
/// nodes below 16.
#[derive(Clone, Copy)]
pub(crate) struct OpenLinks {
    cells: [bool; 256],
}

impl OpenLinks {
    /// All links into the set.
    pub(crate) fn into(set: Members) -> OpenLinks
        ensures { Marks result.cells (enters (members set)) }
    {
        let mut cells = [false; 256];
        for cell in 0..256 {
            let from = (cell / NODES) as u8;
            let to = (cell % NODES) as u8;
            cells[cell] = !set.has(from) && set.has(to);
        }
        OpenLinks { cells }
    }

    /// These links.
    pub(crate) fn of(links: &[(u8, u8)]) -> OpenLinks
        requires { All (IsBelow 16) links.now }
        ensures { Marks result.cells (λ link. list_any (same_pair link) links.now) }
    {
        let mut cells = [false; 256];
        for &(from, to) in links {
            cells[from as usize * NODES + to as usize] = true;
        }
        OpenLinks { cells }
    }

    /// Whether the link is among them.
    fn has(&self, from: u8, to: u8) -> bool
        requires from { from < 16 }
        requires to { to < 16 }
        ensures { result ≡ marked_at self.now.cells (from, to) }
    {
        self.cells[from as usize * NODES + to as usize]
    }

    /// Takes these away.
    pub(crate) fn remove(&mut self, links: &[(u8, u8)])
        requires { All (IsBelow 16) links.now }
        ensures { RemovesLinks self.old.cells self.new.cells links.now }
    {
        for &(from, to) in links {
            self.cells[from as usize * NODES + to as usize] = false;
        }
    }

    /// Whether some of these are among them.
    pub(crate) fn any(&self, links: &[(u8, u8)]) -> bool
        requires { All (IsBelow 16) links.now }
        ensures { result ≡ list_any (marked_at self.now.cells) links.now }
    {
        links.iter().any(|link| self.has(link.0, link.1))
    }

    /// How many of these are among them.
    pub(crate) fn count(&self, links: &[(u8, u8)]) -> u64
        requires { All (IsBelow 16) links.now }
        ensures { result ≡ count_by (marked_at self.now.cells) links.now }
    {
        links.iter().filter(|link| self.has(link.0, link.1)).count() as u64
    }
}
