ghost use Rattle.std.specs.Prelude.{◌≡◌, ◌≢◌, ◌<◌, ◌≤◌, IsTrue, false, IfOk};
ghost use Rattle.collective_spec.specs.{Kinds.{allows, is_custom}, Collectives.{reduces, chunks_of, layout_before, layout_after, ends_of, instance_of, demand_of}};

use crate::OutOfMemory;
use crate::collective::Collective;
use crate::kind::Kind;
use crate::layout::Layout;
use schedule::Placement;
use std::alloc::Global;

/// What a schedule has to achieve: so many chunks, where they are before, and where they have
/// to be after.
#[derive(Debug, Drop)]
pub struct Instance {
    pub chunks: u16,
    pub pre: Placement,
    pub post: Placement,
}

/// The number of all chunks where the chunk count is `c`: `c` for a broadcast and a reduce, else
/// `c` for each node. Of a collective that users give the kind alone does not tell it:
/// `Spec::chunks` does.
pub fn chunks_of(kind: Kind, nodes: u8, c: u8) -> u16
    ensures { result ≡ chunks_of kind nodes c }
{
    match kind {
        Kind::Broadcast | Kind::Reduce => u16::from(c),
        Kind::Gather
        | Kind::Allgather
        | Kind::Scatter
        | Kind::Alltoall
        | Kind::Reducescatter
        | Kind::Allreduce => u16::from(nodes) * u16::from(c),
        Kind::Custom => 0,
    }
}

/// Whether such a collective adds up what the nodes contribute.
pub fn reduces(kind: Kind) -> bool
    ensures { result ≡ reduces kind }
{
    matches!(kind, Kind::Reduce | Kind::Reducescatter | Kind::Allreduce)
}

/// Where the chunks are before; of a reduction, which node contributes to which.
fn before(collective: Collective) -> Layout
    ensures { result ≡ layout_before collective.kind collective.root }
{
    match collective.kind {
        Kind::Broadcast | Kind::Scatter => Layout::Root(collective.root),
        Kind::Gather | Kind::Allgather | Kind::Alltoall => Layout::Scattered,
        Kind::Reduce | Kind::Reducescatter | Kind::Allreduce | Kind::Custom => Layout::All,
    }
}

/// Where the chunks, or their sums, have to be after.
fn after(collective: Collective) -> Layout
    ensures { result ≡ layout_after collective.kind collective.root }
{
    match collective.kind {
        Kind::Broadcast | Kind::Allgather | Kind::Allreduce | Kind::Custom => Layout::All,
        Kind::Gather | Kind::Reduce => Layout::Root(collective.root),
        Kind::Scatter | Kind::Reducescatter => Layout::Scattered,
        Kind::Alltoall => Layout::Transpose,
    }
}

/// Where an instance begins, and where it ends.
fn ends_of(collective: Collective) -> (Layout, Layout)
    ensures { result ≡ ends_of collective }
{
    let (first, last) = (before(collective), after(collective));
    // A reduction is the inverse of a copying collective.
    if reduces(collective.kind) {
        (last, first)
    } else {
        (first, last)
    }
}

/// The instance of a standard collective on so many nodes with the chunk count `c`, at most 16. Of
/// a reduction it is that of the copying collective of which it is the inverse: broadcast for
/// reduce, and allgather for reducescatter.
pub fn instance_of(
    alloc: Global,
    collective: Collective,
    nodes: u8,
    c: u8,
) -> Result<Instance, OutOfMemory>
    requires allowed { IsTrue (allows collective.kind nodes c) }
    requires single { collective.kind ≢ Kind.Allreduce }
    requires standard { is_custom collective.kind ≡ false }
    requires root { collective.root < nodes }
    requires count { c ≤ 16 }
    ensures { IfOk result (λ instance. instance ≡ instance_of collective nodes c) }
{
    let chunks = chunks_of(collective.kind, nodes, c);
    let (first, last) = ends_of(collective);
    let pre = first.placement(alloc, chunks, nodes)?;
    let post = last.placement(alloc, chunks, nodes)?;
    Ok(Instance { chunks, pre, post })
}

/// The pairs of a chunk and a node that the collective has to reach: where the chunks have to be
/// after, or where the sums have to be. The collective is a standard one, and `c` is at most 16.
pub fn demand_of(
    alloc: Global,
    collective: Collective,
    nodes: u8,
    c: u8,
) -> Result<Placement, OutOfMemory>
    requires standard { is_custom collective.kind ≡ false }
    requires root { collective.root < nodes }
    requires count { c ≤ 16 }
    ensures { IfOk result (λ demand. demand ≡ demand_of collective nodes c) }
{
    let chunks = chunks_of(collective.kind, nodes, c);
    after(collective).placement(alloc, chunks, nodes)
}
