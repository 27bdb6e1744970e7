//! The clauses that put chunks that are alike in order.

ghost use Rattle.std.specs.Prelude.{◌≡◌, ◌<◌, ◌≤◌, ◌+◌, ◌↔◌, ℕ, Some, All, IfOk, OnOk};
ghost use Rattle.schedule.specs.{Links.TopologyValue, Solving.Solvable};
ghost use Rattle.cnf_formula.specs.Formulas.{Satisfiable, with_clauses};
ghost use Rattle.send_encoding.specs.Variables.{arrivals, sends};
ghost use Rattle.round_encoding.specs.Candidates.{IsEncodingOf};
ghost use Rattle.chunk_order.specs.{Ordering.{class_in_order, leads_in_order, order_clauses, ordered_formula_of}, Solutions.IsEncodingFor};

use crate::OutOfMemory;
use crate::alike::{class_of, is_least, watch_node};
use cnf_formula::Formula;
use collective_spec::Instance;
use round_encoding::Encoding;
use send_encoding::SendMap;
use std::alloc::Global;

/// After each step, the first chunk of each next pair of a class is at the node where the second is.
#[tactic(auto, using(cnf_formula::proofs::Growing::grows_by_one))]
fn class_in_order(
    formula: &mut Formula,
    map: &SendMap,
    node: u8,
    class: &[u16],
) -> Result<(), OutOfMemory>
    requires vars { arrivals map.now + sends map.now ≤ formula.old.vars }
    requires node { node < map.now.nodes }
    requires chunks { All (λ chunk. chunk < map.now.chunks) class.now }
    ensures { OnOk result (formula.new ≡ with_clauses formula.old (class_in_order map.now (Some node) class.now)) }
{
    for index in 1..class.len() {
        for step in 0..map.steps() {
            let later = map.arrival(class[index], node, step + 1);
            formula.add(&[
                later.negated(),
                map.arrival(class[index - 1], node, step + 1),
            ])?;
        }
    }
    Ok(())
}

/// The clauses of the class of a chunk, where the chunk is its least and the class has a watch
/// node.
fn chunk_in_order(
    alloc: Global,
    formula: &mut Formula,
    map: &SendMap,
    instance: &Instance,
    chunk: u16,
) -> Result<(), OutOfMemory>
    requires vars { arrivals map.now + sends map.now ≤ formula.old.vars }
    requires chunk { chunk < map.now.chunks }
    requires before { instance.now.pre.chunks ≡ map.now.chunks }
    requires chunks { instance.now.post.chunks ≡ instance.now.pre.chunks }
    requires nodes { instance.now.post.nodes ≡ instance.now.pre.nodes }
    requires map { instance.now.pre.nodes ≡ map.now.nodes }
    ensures { OnOk result (formula.new ≡ with_clauses formula.old (leads_in_order map.now instance.now.pre instance.now.post chunk)) }
{
    if !is_least(instance, chunk) {
        return Ok(());
    }
    let Some(node) = watch_node(instance, chunk) else {
        return Ok(());
    };
    let class = class_of(alloc, instance, chunk)?;
    class_in_order(formula, map, node, &class)
}

/// The clauses of every class.
#[tactic(auto, using(cnf_formula::proofs::Growing::grows_more))]
fn all_in_order(
    alloc: Global,
    formula: &mut Formula,
    map: &SendMap,
    instance: &Instance,
) -> Result<(), OutOfMemory>
    requires vars { arrivals map.now + sends map.now ≤ formula.old.vars }
    requires before { instance.now.pre.chunks ≡ map.now.chunks }
    requires chunks { instance.now.post.chunks ≡ instance.now.pre.chunks }
    requires nodes { instance.now.post.nodes ≡ instance.now.pre.nodes }
    requires map { instance.now.pre.nodes ≡ map.now.nodes }
    ensures { OnOk result (formula.new ≡ with_clauses formula.old (order_clauses map.now instance.now.pre instance.now.post)) }
{
    for chunk in 0..map.chunks() {
        chunk_in_order(alloc, formula, map, instance, chunk)?;
    }
    Ok(())
}

/// The same formula.
fn copy_of_formula(formula: &Formula) -> Result<Formula, OutOfMemory>
    ensures { IfOk result (λ copy. copy ≡ formula.now) }
{
    Ok(formula.clone()?)
}

/// The formula of an encoding, followed by the clauses of the order: for each class of chunks that
/// are alike, by its least chunk, each of its chunks comes to the watch node no later than the
/// next. It is satisfiable exactly where the candidate is solvable. The only error is
/// `OutOfMemory`.
pub fn order_clauses(
    alloc: Global,
    encoding: &Encoding,
    instance: &Instance,
) -> Result<Formula, OutOfMemory>
    requires { IsEncodingFor instance.now.pre instance.now.post encoding.now }
    ensures clauses { IfOk result (λ f. f ≡ with_clauses encoding.now.formula (order_clauses encoding.now.map instance.now.pre instance.now.post)) }
    ensures formula { IfOk result (λ f. (t : TopologyValue) (steps rounds : ℕ) → IsEncodingOf t instance.now.pre instance.now.post steps rounds encoding.now
        → f ≡ ordered_formula_of t instance.now.pre instance.now.post steps rounds) }
    ensures exactly { IfOk result (λ f. (t : TopologyValue) (steps rounds : ℕ) → IsEncodingOf t instance.now.pre instance.now.post steps rounds encoding.now
        → Satisfiable f ↔ Solvable t instance.now.pre instance.now.post steps rounds) }
{
    let mut formula = copy_of_formula(&encoding.formula)?;
    all_in_order(alloc, &mut formula, &encoding.map, instance)?;
    Ok(formula)
}
