ghost use Rattle.std.specs.{Prelude.{◌≡◌, ◌≤◌, ◌*◌, ◌/◌, ◌%◌, IfOk, map}, List.range_with_len};
ghost use Rattle.collective_spec.specs.Patterns.{IsPattern, in_copies, copied};

use crate::OutOfMemory;
use schedule::Placement;
use std::alloc::Global;
use std::marker::Model;

/// A collective that users give: 1 to 16 chunks, and which nodes hold them before and have to hold
/// them after. At the chunk count `c` it is copied `c` times.
#[derive(Clone, Debug, Drop)]
pub struct Pattern {
    base: u8,
    before: Placement,
    after: Placement,
}

impl Model for Pattern {
    ghost use Rattle.collective_spec.specs.Patterns.{PatternValue, IsPattern};

    ghost Value = { PatternValue };

    ghost view = { λ p. record { base = p.base; before = p.before; after = p.after } };

    ghost invariant = { λ p. IsPattern p.before.nodes (record { base = p.base; before = p.before; after = p.after }) };
}

impl Pattern {
    /// The pattern of `base` chunks, from 1 to 16, and of two placements of so many chunks at the
    /// same nodes. It takes no memory.
    pub fn new(base: u8, before: Placement, after: Placement) -> Pattern
        requires { IsPattern before.nodes (record { base = base; before = before; after = after }) }
        ensures { result ≡ record { base = base; before = before; after = after } }
    {
        Pattern {
            base,
            before,
            after,
        }
    }

    /// The number of chunks at the chunk count 1, from 1 to 16.
    pub fn base(&self) -> u8
        ensures base { result ≡ self.now.base }
        ensures limits { IsPattern self.now.before.nodes self.now }
    {
        self.base
    }

    /// Which nodes hold the chunks before.
    pub fn before(&self) -> &Placement
        ensures before { result.now ≡ self.now.before }
        ensures limits { IsPattern self.now.before.nodes self.now }
    {
        &self.before
    }

    /// Which nodes have to hold the chunks after.
    pub fn after(&self) -> &Placement
        ensures after { result.now ≡ self.now.after }
        ensures limits { IsPattern self.now.before.nodes self.now }
    {
        &self.after
    }
}

/// Whether a chunk of the copies stands at a node, where each copy has `base` chunks, and the places
/// are numbered by chunk and then by node.
fn in_copies(placement: &Placement, base: u8, place: usize) -> bool
    requires base { 1 ≤ base }
    requires chunks { placement.now.chunks ≡ base }
    requires nodes { 1 ≤ placement.now.nodes }
    ensures { result ≡ in_copies base placement.now (place / placement.now.nodes, place % placement.now.nodes) }
{
    let nodes = usize::from(placement.nodes());
    let chunk = place / nodes % usize::from(base);
    placement.holds(chunk as u16, (place % nodes) as u8)
}

/// Of each place of so many chunks, whether a chunk of the copies stands there.
fn cells(
    alloc: Global,
    placement: &Placement,
    base: u8,
    chunks: u16,
) -> Result<Vec<bool>, OutOfMemory>
    requires base { 1 ≤ base }
    requires copied { placement.now.chunks ≡ base }
    requires nodes { 1 ≤ placement.now.nodes }
    ensures { IfOk result (λ cells. cells.items ≡ map (λ place. in_copies base placement.now (place / placement.now.nodes, place % placement.now.nodes)) (range_with_len 0 (chunks * placement.now.nodes))) }
{
    (0..chunks as usize * placement.nodes() as usize)
        .map(|place| in_copies(placement, base, place))
        .collect(alloc)
}

/// The placement `c` times: the chunk numbered `g` of the copy numbered `k` has the number `k *
/// base + g`.
#[tactic(auto, using(crate::proofs::Laying::placed_nowhere))]
pub(crate) fn copied(
    alloc: Global,
    placement: &Placement,
    base: u8,
    c: u8,
) -> Result<Placement, OutOfMemory>
    requires base { 1 ≤ base }
    requires chunks { placement.now.chunks ≡ base }
    ensures { IfOk result (λ p. p ≡ copied base c placement.now.nodes placement.now) }
{
    let chunks = base as u16 * c as u16;
    let nodes = placement.nodes();
    if nodes == 0 {
        return Placement::empty(alloc, chunks, nodes);
    }
    let cells = cells(alloc, placement, base, chunks)?;
    Ok(Placement::of_cells(chunks, nodes, cells))
}
