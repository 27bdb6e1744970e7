ghost use Rattle.std.specs.{Prelude.{◌≡◌, ◌*◌, ◌/◌, ◌%◌, ◌<◌, ◌≤◌, map, IfOk}, List.range_with_len};
ghost use Rattle.schedule.specs.{Placed.holds, Bags.{contributions, of_placement}};
ghost use Rattle.bag_runs.specs.{Stores.{StoreValue, bag_in, received, stored, with_bag}, Kept.{IsStore, counted, counts_of, counts_where}};

use crate::OutOfMemory;
use crate::bag::Bag;
use crate::mode::Mode;
use schedule::Placement;
use std::alloc::Global;
use std::marker::Model;

/// The bag of each chunk at each node. Chunks and nodes are numbered from 0.
#[derive(Debug, Drop)]
pub struct Store {
    chunks: u16,
    nodes: u8,
    bags: Vec<Bag>,
}

impl Model for Store {
    ghost use Rattle.std.specs.Prelude.{map};
    ghost use Rattle.bag_runs.specs.{Stores.StoreValue, Kept.{IsFilled, counted}};

    ghost Value = { StoreValue };

    ghost view = { λ s. record { chunks = s.chunks; nodes = s.nodes; bags = map (counted s.nodes) s.bags.items } };

    ghost invariant = { λ s. IsFilled s.chunks s.nodes s.bags.items };
}

impl Store {
    /// A chunk that a node holds is one contribution of node 0, and one that it lacks is the empty
    /// bag. The only error is `OutOfMemory`.
    #[tactic(auto, using(crate::proofs::Storing::filled_of_placement))]
    pub fn of_placement(alloc: Global, placement: &Placement) -> Result<Store, OutOfMemory>
        ensures { IfOk result (λ s. s ≡ stored placement.now.chunks placement.now.nodes (of_placement placement.now)) }
    {
        let bags = held_bags(alloc, placement)?;
        Ok(Store {
            chunks: placement.chunks(),
            nodes: placement.nodes(),
            bags,
        })
    }

    /// Each node has contributed once to each of its chunks. The only error is `OutOfMemory`.
    #[tactic(auto, using(crate::proofs::Storing::filled_of_contributions))]
    pub fn of_contributions(alloc: Global, chunks: u16, nodes: u8) -> Result<Store, OutOfMemory>
        requires { nodes ≤ 16 }
        ensures { IfOk result (λ s. s ≡ stored chunks nodes (contributions nodes)) }
    {
        let bags = own_bags(alloc, chunks as usize * nodes as usize, nodes as usize)?;
        Ok(Store {
            chunks,
            nodes,
            bags,
        })
    }

    /// The number of chunks.
    #[tactic(auto, using(crate::proofs::Storing::store_stored))]
    pub fn chunks(&self) -> u16
        ensures chunks { result ≡ self.now.chunks }
        ensures limits { IsStore self.now }
    {
        self.chunks
    }

    /// The number of nodes.
    #[tactic(auto, using(crate::proofs::Storing::store_stored))]
    pub fn nodes(&self) -> u8
        ensures nodes { result ≡ self.now.nodes }
        ensures limits { IsStore self.now }
    {
        self.nodes
    }

    /// A node's bag of a chunk.
    #[tactic(auto, using(crate::proofs::Storing::store_stored))]
    pub fn bag(&self, chunk: u16, node: u8) -> Bag
        requires chunk { chunk < self.now.chunks }
        requires node { node < self.now.nodes }
        ensures bag { counted self.now.nodes result ≡ bag_in self.now chunk node }
        ensures limits { IsStore self.now }
    {
        self.bags[chunk as usize * self.nodes as usize + node as usize]
    }

    /// A bag arrives at a node: it is added to the node's bag of the chunk, or takes its place
    /// unless it is empty.
    #[tactic(auto, using(crate::proofs::Storing::store_stored, crate::proofs::Storing::filled_set))]
    pub fn receive(&mut self, chunk: u16, node: u8, mode: Mode, arrived: Bag)
        requires chunk { chunk < self.old.chunks }
        requires node { node < self.old.nodes }
        ensures received { self.new ≡ with_bag self.old chunk node (received mode (bag_in self.old chunk node) (counted self.old.nodes arrived)) }
        ensures limits { IsStore self.new }
    {
        let place = chunk as usize * self.nodes as usize + node as usize;
        self.bags[place] = self.bags[place].received(mode, &arrived, self.nodes);
    }
}

impl Clone for Store {
    ghost use Rattle.bag_runs.specs.Kept.{IsStore};

    // A copy has the same bags.
    ghost is_clone = { λ old new. (new ≡ old) × IsStore old };

    #[tactic(auto, using(std::proofs::lemmas::List::Elements::same_from_all_zip, crate::proofs::Storing::store_stored))]
    fn clone(&self) -> Result<Store, OutOfMemory> {
        let bags = self.bags.clone()?;
        Ok(Store {
            chunks: self.chunks,
            nodes: self.nodes,
            bags,
        })
    }
}

/// The bags of what is held, by chunk and then by node.
fn held_bags(alloc: Global, placement: &Placement) -> Result<Vec<Bag>, OutOfMemory>
    ensures { IfOk result (λ bags. bags.items ≡ map (λ place. counts_where (holds placement.now (place / placement.now.nodes, place % placement.now.nodes)))
        (range_with_len 0 (placement.now.chunks * placement.now.nodes))) }
{
    (0..placement.chunks() as usize * placement.nodes() as usize)
        .map(|place| held_bag(placement, place))
        .collect(alloc)
}

/// The bag of a place: one contribution of node 0 where the chunk is held, and else none.
#[tactic(auto, using(crate::proofs::Tables::row_below))]
fn held_bag(placement: &Placement, place: usize) -> Bag
    requires { place < placement.now.chunks * placement.now.nodes }
    ensures { result ≡ counts_where (holds placement.now (place / placement.now.nodes, place % placement.now.nodes)) }
{
    // A chunk has a number of 16 bits.
    let _chunks = placement.chunks();
    let nodes = placement.nodes() as usize;
    if placement.holds((place / nodes) as u16, (place % nodes) as u8) {
        Bag::one_of(0)
    } else {
        Bag::empty()
    }
}

/// The first bags in which each node has contributed once, by chunk and then by node.
fn own_bags(alloc: Global, count: usize, nodes: usize) -> Result<Vec<Bag>, OutOfMemory>
    requires some { 0 < count → 0 < nodes }
    requires few { nodes ≤ 16 }
    ensures { IfOk result (λ bags. bags.items ≡ map (λ place. counts_of (place % nodes)) (range_with_len 0 count)) }
{
    (0..count)
        .map(|place| Bag::one_of((place % nodes) as u8))
        .collect(alloc)
}
