ghost use Rattle.std.specs.{Prelude.{◌≡◌, ◌≤◌, ◌/◌, ◌%◌, IfOk, map}, List.range_with_len};
ghost use Rattle.collective_spec.specs.Layouts.{stands, laid_out};

use crate::OutOfMemory;
use schedule::Placement;
use std::alloc::Global;

/// Which chunks stand at which nodes.
#[derive(Clone, Copy, Debug, PartialEq, Eq)]
pub enum Layout {
    /// Every chunk at every node.
    All,
    /// Every chunk at this node.
    Root(u8),
    /// The chunks dealt out to the nodes in turn: chunk c at node c mod P.
    Scattered,
    /// Runs of P chunks dealt out in turn: chunk c at node floor(c / P) mod P.
    Transpose,
}

impl Layout {
    /// Whether a chunk stands at a node, where the places of the chunks at so many nodes are
    /// numbered by chunk and then by node.
    fn has(self, nodes: usize, place: usize) -> bool
        requires { 1 ≤ nodes }
        ensures { result ≡ stands self nodes (place / nodes, place % nodes) }
    {
        let (chunk, node) = (place / nodes, place % nodes);
        match self {
            Layout::All => true,
            Layout::Root(root) => node == usize::from(root),
            Layout::Scattered => node == chunk % nodes,
            Layout::Transpose => node == chunk / nodes % nodes,
        }
    }

    /// The placement of all pairs of the layout.
    #[tactic(auto, using(crate::proofs::Laying::placed_by_cells))]
    pub fn placement(self, alloc: Global, chunks: u16, nodes: u8) -> Result<Placement, OutOfMemory>
        requires { 1 ≤ nodes }
        ensures { IfOk result (λ p. p ≡ laid_out self chunks nodes) }
    {
        let cells = cells(
            alloc,
            self,
            chunks as usize * nodes as usize,
            nodes as usize,
        )?;
        Ok(Placement::of_cells(chunks, nodes, cells))
    }
}

/// Of the first places, whether a chunk stands there.
fn cells(
    alloc: Global,
    layout: Layout,
    count: usize,
    nodes: usize,
) -> Result<Vec<bool>, OutOfMemory>
    requires { 1 ≤ nodes }
    ensures { IfOk result (λ cells. cells.items ≡ map (λ place. stands layout nodes (place / nodes, place % nodes)) (range_with_len 0 count)) }
{
    (0..count)
        .map(|place| layout.has(nodes, place))
        .collect(alloc)
}
