ghost use Rattle.std.specs.Prelude.{◌≡◌, ◌*◌, ◌<◌, IfOk, length};
ghost use Rattle.schedule.specs.{Cells.marked, Placed.{PlacementValue, IsPlacement, empty_placement, holds, with_pair}};

use crate::OutOfMemory;
use std::alloc::Global;
use std::marker::Model;

/// A set of pairs of a chunk and a node that has it. Chunks and nodes are numbered from 0.
#[derive(Debug, Drop)]
pub struct Placement {
    chunks: u16,
    nodes: u8,
    cells: Vec<bool>,
}

impl Model for Placement {
    ghost use Rattle.std.specs.Prelude.{◌≡◌, ◌*◌, length};
    ghost use Rattle.schedule.specs.{Placed.PlacementValue, Cells.marked};

    ghost Value = { PlacementValue };

    ghost view = { λ p. marked p.chunks p.nodes p.cells.items };

    ghost invariant = { λ p. length p.cells.items ≡ p.chunks * p.nodes };
}

impl Placement {
    /// The placement of no pair, for so many chunks and nodes. The only error is `OutOfMemory`.
    #[tactic(auto, using(crate::proofs::Marked::marked_empty))]
    pub fn empty(alloc: Global, chunks: u16, nodes: u8) -> Result<Placement, OutOfMemory>
        ensures { IfOk result (λ p. p ≡ empty_placement chunks nodes) }
    {
        let cells = vec![in alloc; false; chunks as usize * nodes as usize]?;
        Ok(Placement {
            chunks,
            nodes,
            cells,
        })
    }

    /// The placement of the pairs whose cell is true, where the cells come by chunk and then by node.
    pub fn of_cells(chunks: u16, nodes: u8, cells: Vec<bool>) -> Placement
        requires { length cells.items ≡ chunks * nodes }
        ensures { result ≡ marked chunks nodes cells.items }
    {
        Placement {
            chunks,
            nodes,
            cells,
        }
    }

    /// Adds a pair, which may be there already.
    pub fn insert(&mut self, chunk: u16, node: u8)
        requires chunk { chunk < self.old.chunks }
        requires node { node < self.old.nodes }
        ensures inserted { self.new ≡ with_pair self.old (chunk, node) }
        ensures limits { IsPlacement self.new }
    {
        let place = chunk as usize * self.nodes as usize + node as usize;
        self.cells[place] = true;
    }

    /// Whether the node has the chunk.
    pub fn holds(&self, chunk: u16, node: u8) -> bool
        requires chunk { chunk < self.now.chunks }
        requires node { node < self.now.nodes }
        ensures held { result ≡ holds self.now (chunk, node) }
        ensures limits { IsPlacement self.now }
    {
        self.cells[chunk as usize * self.nodes as usize + node as usize]
    }

    /// The number of chunks.
    #[tactic(auto, using(crate::proofs::Marked::placement_marked))]
    pub fn chunks(&self) -> u16
        ensures chunks { result ≡ self.now.chunks }
        ensures limits { IsPlacement self.now }
    {
        self.chunks
    }

    /// The number of nodes.
    #[tactic(auto, using(crate::proofs::Marked::placement_marked))]
    pub fn nodes(&self) -> u8
        ensures nodes { result ≡ self.now.nodes }
        ensures limits { IsPlacement self.now }
    {
        self.nodes
    }
}

impl Clone for Placement {
    ghost use Rattle.schedule.specs.Placed.{IsPlacement};

    // A copy holds the same pairs.
    ghost is_clone = { λ old new. (new ≡ old) × IsPlacement old };

    fn clone(&self) -> Result<Placement, OutOfMemory> {
        let cells = self.cells.clone()?;
        Ok(Placement {
            chunks: self.chunks,
            nodes: self.nodes,
            cells,
        })
    }
}
