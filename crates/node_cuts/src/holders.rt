//! What has to come into a set of nodes.

ghost use Rattle.std.specs.{Prelude.{◌≡◌, ◌<◌, length, count_by, IfOk}, List.list_any};
ghost use Rattle.node_cuts.specs.{Sides.NodeSet, inner.Listed.members, Cuts.need_of, Holders.{is_lacking, nodes_with}};

use crate::OutOfMemory;
use crate::members::Members;
use collective_spec::Instance;
use schedule::Placement;
use std::alloc::Global;
use std::marker::Model;

/// The nodes that have a chunk before, and those that are to have it after.
#[derive(Drop)]
pub(crate) struct Holders {
    before: Vec<u8>,
    after: Vec<u8>,
}

impl Model for Holders {
    ghost use Rattle.node_cuts.specs.Holders.{HoldersValue};

    ghost Value = { HoldersValue };

    ghost view = { λ h. record { before = h.before.items; after = h.after.items } };
}

/// The nodes that have the chunk, ascending.
fn nodes_with(alloc: Global, placement: &Placement, chunk: u16) -> Result<Vec<u8>, OutOfMemory>
    requires { chunk < placement.now.chunks }
    ensures { IfOk result (λ nodes. nodes.items ≡ nodes_with placement.now chunk) }
{
    (0..placement.nodes())
        .filter(|&node| placement.holds(chunk, node))
        .collect(alloc)
}

/// The holders of each chunk, which tell what has to come into every set of nodes.
pub(crate) fn all_holders(alloc: Global, instance: &Instance) -> Result<Vec<Holders>, OutOfMemory>
    requires { instance.now.post.chunks ≡ instance.now.pre.chunks }
    ensures need { IfOk result (λ all. (u : NodeSet) → count_by (is_lacking u) all.items ≡ need_of u instance.now.pre instance.now.post) }
    ensures few { IfOk result (λ all. length all.items < 65536) }
{
    // This says that what stands before is in range.
    let _chunks = instance.pre.chunks();
    let mut all = Vec::new(alloc);
    for chunk in 0..instance.post.chunks() {
        let before = nodes_with(alloc, &instance.pre, chunk)?;
        let after = nodes_with(alloc, &instance.post, chunk)?;
        all.push(Holders { before, after })?;
    }
    Ok(all)
}

/// Whether the set has one of these nodes.
fn has_any(set: Members, nodes: &[u8]) -> bool
    ensures { result ≡ list_any (members set) nodes.now }
{
    nodes.iter().any(|node| set.has(*node))
}

/// How many chunks have to come into the set: some node of it is to have the chunk, and none has
/// it before.
pub(crate) fn need(set: Members, holders: &[Holders]) -> u32
    requires { length holders.now < 65536 }
    ensures need { result ≡ count_by (is_lacking (members set)) holders.now }
    ensures few { result < 65536 }
{
    holders
        .iter()
        .filter(|chunk| has_any(set, &chunk.after) && !has_any(set, &chunk.before))
        .count() as u32
}
