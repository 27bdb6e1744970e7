//! The counts of a store that are uneven, that is other than 1.

ghost use Rattle.std.specs.{Prelude.{◌≡◌, ◌==◌, ◌<◌, not, find, None, if◌then◌else◌, map, filter, slice_index, slice_index_or}, List.range_with_len};
ghost use Rattle.schedule.specs.{Placed.{IsPlacement, holds}, Bags.Bags};
ghost use Rattle.bag_runs.specs.Stores.{bags_in, stored};
ghost use Rattle.inversion.specs.Judging.{counts_judged, first_uneven};

use crate::verdict::SumVerdict;
use bag_runs::{Bag, Store};
use schedule::Placement;

/// Whether each pair of the demand has one contribution of each node, and if not, the first count
/// that is another.
pub fn counts_verdict(store: &Store, demand: &Placement) -> SumVerdict
    requires chunks { demand.now.chunks ≡ store.now.chunks }
    requires nodes { demand.now.nodes ≡ store.now.nodes }
    ensures { (bags : Bags) → store.now ≡ stored store.now.chunks store.now.nodes bags
        → result ≡ counts_judged bags (first_uneven bags store.now.nodes demand.now.pairs) }
{
    let Some((chunk, node, of)) = first_uneven(store, demand) else {
        return SumVerdict::Sums;
    };
    if store.bag(chunk, node).count(of) == 0 {
        SumVerdict::Missing { chunk, node, of }
    } else {
        SumVerdict::Twice { chunk, node, of }
    }
}

/// The first chunk and node that are demanded, and the node that has not contributed to them
/// exactly once.
fn first_uneven(store: &Store, demand: &Placement) -> Option<(u16, u8, u8)>
    requires chunks { demand.now.chunks ≡ store.now.chunks }
    requires nodes { demand.now.nodes ≡ store.now.nodes }
    ensures first { result ≡ first_uneven (bags_in store.now) store.now.nodes demand.now.pairs }
    ensures limits { IsPlacement demand.now }
{
    for chunk in 0..demand.chunks() {
        if let Some(due) = uneven_in_row(store, demand, chunk) {
            return Some(due);
        }
    }
    None
}

/// The same, for one chunk.
fn uneven_in_row(store: &Store, demand: &Placement, chunk: u16) -> Option<(u16, u8, u8)>
    requires chunk { chunk < store.now.chunks }
    requires chunks { demand.now.chunks ≡ store.now.chunks }
    requires nodes { demand.now.nodes ≡ store.now.nodes }
    ensures { result ≡ first_uneven (bags_in store.now) store.now.nodes (filter (holds demand.now) (map (λ node. (chunk, node)) (range_with_len 0 store.now.nodes))) }
{
    for node in 0..store.nodes() {
        if let Some(of) = uneven_at(store, demand, chunk, node) {
            return Some((chunk, node, of));
        }
    }
    None
}

/// The first node that has not contributed exactly once, where the chunk is demanded at the node.
fn uneven_at(store: &Store, demand: &Placement, chunk: u16, node: u8) -> Option<u8>
    requires chunk { chunk < store.now.chunks }
    requires node { node < store.now.nodes }
    requires chunks { demand.now.chunks ≡ store.now.chunks }
    requires nodes { demand.now.nodes ≡ store.now.nodes }
    ensures { result ≡ (if holds demand.now (chunk, node) then find (λ of. not (slice_index_or (bags_in store.now (chunk, node)) of 0 == 1)) (range_with_len 0 store.now.nodes) else None) }
{
    if demand.holds(chunk, node) {
        uneven_of(&store.bag(chunk, node), store.nodes())
    } else {
        None
    }
}

/// The first of so many nodes that has not contributed exactly once.
fn uneven_of(bag: &Bag, nodes: u8) -> Option<u8>
    ensures { result ≡ find (λ of. not (slice_index bag.now of == 1)) (range_with_len 0 nodes) }
{
    (0..nodes).find(|&of| bag.count(of) != 1)
}
