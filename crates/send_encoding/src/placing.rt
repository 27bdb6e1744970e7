//! The clauses of what the nodes have: at the start, from step to step, and at the end.

ghost use Rattle.std.specs.Prelude.{◌≡◌, ◌+◌, ◌≤◌, OnOk};
ghost use Rattle.cnf_formula.specs.Formulas.{with_clauses};
ghost use Rattle.send_encoding.specs.{Variables.{arrivals, sends}, Sending.{at_start, keeps, at_end}};

use crate::OutOfMemory;
use crate::send_map::SendMap;
use cnf_formula::Formula;
use schedule::Placement;

/// At the start the nodes have what they have before.
#[tactic(auto, using(cnf_formula::proofs::Growing::grows_more))]
pub(crate) fn at_start(
    formula: &mut Formula,
    map: &SendMap,
    pre: &Placement,
) -> Result<(), OutOfMemory>
    requires vars { arrivals map.now + sends map.now ≤ formula.old.vars }
    requires chunks { pre.now.chunks ≡ map.now.chunks }
    requires nodes { pre.now.nodes ≡ map.now.nodes }
    ensures { OnOk result (formula.new ≡ with_clauses formula.old (at_start map.now pre.now)) }
{
    for chunk in 0..map.chunks() {
        for node in 0..map.nodes() {
            let start = map.arrival(chunk, node, 0);
            let said = if pre.holds(chunk, node) {
                start
            } else {
                start.negated()
            };
            formula.add(&[said])?;
        }
    }
    Ok(())
}

/// What a node has it keeps.
#[tactic(auto, using(cnf_formula::proofs::Growing::grows_by_one, cnf_formula::proofs::Growing::grows_more, crate::proofs::Picking::pairs_of_loops))]
pub(crate) fn keeps(formula: &mut Formula, map: &SendMap) -> Result<(), OutOfMemory>
    requires vars { arrivals map.now + sends map.now ≤ formula.old.vars }
    ensures { OnOk result (formula.new ≡ with_clauses formula.old (keeps map.now)) }
{
    for chunk in 0..map.chunks() {
        for node in 0..map.nodes() {
            for index in 0..map.steps() {
                let before = map.arrival(chunk, node, index);
                formula.add(&[before.negated(), map.arrival(chunk, node, index + 1)])?;
            }
        }
    }
    Ok(())
}

/// At the end the nodes have what they have after.
#[tactic(auto, using(cnf_formula::proofs::Growing::grows_more, crate::proofs::Picking::pairs_of_loops, crate::proofs::Picking::picked_flat))]
pub(crate) fn at_end(
    formula: &mut Formula,
    map: &SendMap,
    post: &Placement,
) -> Result<(), OutOfMemory>
    requires vars { arrivals map.now + sends map.now ≤ formula.old.vars }
    requires chunks { post.now.chunks ≡ map.now.chunks }
    requires nodes { post.now.nodes ≡ map.now.nodes }
    ensures { OnOk result (formula.new ≡ with_clauses formula.old (at_end map.now post.now)) }
{
    for chunk in 0..map.chunks() {
        for node in 0..map.nodes() {
            if post.holds(chunk, node) {
                formula.add(&[map.arrival(chunk, node, map.steps())])?;
            }
        }
    }
    Ok(())
}
