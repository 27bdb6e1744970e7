//! A node is sent a chunk at most once in a step.

ghost use Rattle.std.specs.Prelude.{◌≡◌, ◌+◌, ◌≤◌, OnOk};
ghost use Rattle.cnf_formula.specs.Formulas.{with_clauses};
ghost use Rattle.send_encoding.specs.{Variables.{arrivals, sends}, Sending.arrives_once};

use crate::OutOfMemory;
use crate::arriving::push_sends_into;
use crate::send_map::SendMap;
use cardinality::at_most_one;
use cnf_formula::{Formula, Lit};
use std::alloc::Global;

/// A node is sent a chunk at most once in a step.
#[tactic(auto, using(cnf_formula::proofs::Growing::grows_more))]
pub(crate) fn arrives_once(
    alloc: Global,
    formula: &mut Formula,
    map: &SendMap,
) -> Result<(), OutOfMemory>
    requires vars { arrivals map.now + sends map.now ≤ formula.old.vars }
    ensures { OnOk result (formula.new ≡ with_clauses formula.old (arrives_once map.now)) }
{
    let mut into = Vec::new(alloc);
    for chunk in 0..map.chunks() {
        for node in 0..map.nodes() {
            for index in 0..map.steps() {
                into.clear();
                push_sends_into(&mut into, map, chunk, node, index + 1)?;
                at_most_one(formula, &into)?;
            }
        }
    }
    Ok(())
}
