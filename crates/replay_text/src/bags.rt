//! The lines of stores: how often each node has contributed to each chunk at each node.

ghost use Rattle.std.specs.{Prelude.{◌≡◌, ◌<◌, ◌++◌, ◌∷◌, flat_map, OnOk}, List.range_with_len};
ghost use Rattle.bag_runs.specs.Kept.{counted};
ghost use Rattle.text_lines.specs.Text.{line};
ghost use Rattle.replay_text.specs.inner.Appended.{bag_word, digits_of, keeper_words, store_lines};

use crate::OutOfMemory;
use crate::steps::NodeLines;
use node_programs::{Bag, Store};
use text_lines::{push_number_field, push_word};
use topology_text::{Name, push_node_name};

/// Appends how often each of so many nodes has contributed: a digit for each, where 2 stands for
/// two or more.
#[tactic(auto, using(crate::proofs::Lines::digits_more, std::proofs::lemmas::Grind::common_steps))]
fn push_counts(out: &mut Vec<u8>, bag: &Bag, nodes: u8) -> Result<(), OutOfMemory>
    ensures { OnOk result (out.new.items ≡ out.old.items ++ digits_of (counted nodes bag.now)) }
{
    for node in 0..nodes {
        out.push(b'0' + bag.count(node))?;
    }
    Ok(())
}

/// Appends a chunk, and its bag at a node.
fn push_bag(out: &mut Vec<u8>, store: &Store, node: u8, chunk: u16) -> Result<(), OutOfMemory>
    requires node { node < store.now.nodes }
    requires chunk { chunk < store.now.chunks }
    ensures { OnOk result (out.new.items ≡ out.old.items ++ 32 ∷ bag_word store.now node chunk) }
{
    push_number_field(out, u64::from(chunk))?;
    push_word(out, b"=")?;
    push_counts(out, &store.bag(chunk, node), store.nodes())
}

/// Appends each chunk, and its bag at a node.
#[tactic(auto, using(crate::proofs::Lines::flat_more, std::proofs::lemmas::Grind::common_steps))]
fn push_bags(out: &mut Vec<u8>, store: &Store, node: u8) -> Result<(), OutOfMemory>
    requires { node < store.now.nodes }
    ensures { OnOk result (out.new.items ≡ out.old.items ++ flat_map (λ chunk. 32 ∷ bag_word store.now node chunk) (range_with_len 0 store.now.chunks)) }
{
    for chunk in 0..store.chunks() {
        push_bag(out, store, node, chunk)?;
    }
    Ok(())
}

/// Appends the line of a node.
#[tactic(auto, using(crate::proofs::Lines::mapped_line, std::proofs::lemmas::Grind::common_steps))]
fn push_keeper(
    out: &mut Vec<u8>,
    names: &[Name],
    store: &Store,
    node: u8,
) -> Result<(), OutOfMemory>
    requires { node < store.now.nodes }
    ensures { OnOk result (out.new.items ≡ out.old.items ++ line (keeper_words names.now store.now node)) }
{
    push_node_name(out, names, node)?;
    push_bags(out, store, node)?;
    push_word(out, b"\n")
}

impl NodeLines for Store {
    ghost lines = { store_lines };

    #[tactic(auto, using(crate::proofs::Lines::lines_more, std::proofs::lemmas::Grind::common_steps))]
    fn push_lines(&self, out: &mut Vec<u8>, names: &[Name]) -> Result<(), OutOfMemory> {
        for node in 0..self.nodes() {
            push_keeper(out, names, self, node)?;
        }
        Ok(())
    }
}
