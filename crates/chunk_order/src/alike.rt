//! Chunks that are alike.

ghost use Rattle.std.specs.Prelude.{◌≡◌, ◌<◌, IfOk};
ghost use Rattle.chunk_order.specs.{Alike.{stand_alike, is_alike, watch_node}, Ordering.{is_least, class_of}};

use crate::OutOfMemory;
use collective_spec::Instance;
use schedule::Placement;
use std::alloc::Global;

/// Whether two chunks stand at the same nodes.
fn stand_alike(placement: &Placement, first: u16, second: u16) -> bool
    requires first { first < placement.now.chunks }
    requires second { second < placement.now.chunks }
    ensures { result ≡ stand_alike placement.now first second }
{
    (0..placement.nodes()).all(|node| placement.holds(first, node) == placement.holds(second, node))
}

/// Whether two chunks are at the same nodes before, and have to be at the same nodes after.
pub(crate) fn is_alike(instance: &Instance, first: u16, second: u16) -> bool
    requires first { first < instance.now.pre.chunks }
    requires second { second < instance.now.pre.chunks }
    requires chunks { instance.now.post.chunks ≡ instance.now.pre.chunks }
    ensures { result ≡ is_alike instance.now.pre instance.now.post first second }
{
    stand_alike(&instance.pre, first, second) && stand_alike(&instance.post, first, second)
}

/// The least node that has to get the chunk, if there is one. Chunks that are alike have the same.
pub(crate) fn watch_node(instance: &Instance, chunk: u16) -> Option<u8>
    requires chunk { chunk < instance.now.pre.chunks }
    requires chunks { instance.now.post.chunks ≡ instance.now.pre.chunks }
    requires nodes { instance.now.post.nodes ≡ instance.now.pre.nodes }
    ensures { result ≡ watch_node instance.now.pre instance.now.post chunk }
{
    (0..instance.post.nodes()).find(|&node| instance.post.holds(chunk, node)
        && !instance.pre.holds(chunk, node))
}

/// Whether no chunk of a smaller number is alike.
#[tactic(auto, using(crate::proofs::Classes::none_in_range))]
pub(crate) fn is_least(instance: &Instance, chunk: u16) -> bool
    requires chunk { chunk < instance.now.pre.chunks }
    requires chunks { instance.now.post.chunks ≡ instance.now.pre.chunks }
    ensures { result ≡ is_least instance.now.pre instance.now.post chunk }
{
    for other in 0..chunk {
        if is_alike(instance, chunk, other) {
            return false;
        }
    }
    true
}

/// The chunks that are alike with one, ascending.
pub(crate) fn class_of(
    alloc: Global,
    instance: &Instance,
    chunk: u16,
) -> Result<Vec<u16>, OutOfMemory>
    requires chunk { chunk < instance.now.pre.chunks }
    requires chunks { instance.now.post.chunks ≡ instance.now.pre.chunks }
    ensures { IfOk result (λ class. class.items ≡ class_of instance.now.pre instance.now.post chunk) }
{
    (0..instance.pre.chunks())
        .filter(|&other| is_alike(instance, chunk, other))
        .collect(alloc)
}
