//! The clauses that tie sends and arrivals.

ghost use Rattle.std.specs.Prelude.{◌≡◌, ◌+◌, ◌<◌, ◌≤◌, ◌++◌, OnOk};
ghost use Rattle.schedule.specs.Sends.{IsStep};
ghost use Rattle.cnf_formula.specs.Formulas.{with_clauses};
ghost use Rattle.send_encoding.specs.{Variables.{arrivals, sends}, Sending.{sends_arrive, sends_into, arrives_by_sends}};

use crate::OutOfMemory;
use crate::send_map::SendMap;
use cnf_formula::{Formula, Lit};
use std::alloc::Global;

/// A send goes from a node that has the chunk to one that lacks it, which then has it.
#[tactic(auto, using(cnf_formula::proofs::Growing::grows_more))]
pub(crate) fn sends_arrive(formula: &mut Formula, map: &SendMap) -> Result<(), OutOfMemory>
    requires vars { arrivals map.now + sends map.now ≤ formula.old.vars }
    ensures { OnOk result (formula.new ≡ with_clauses formula.old (sends_arrive map.now)) }
{
    for chunk in 0..map.chunks() {
        for (number, link) in map.links().iter().enumerate() {
            for index in 0..map.steps() {
                let (from, to) = *link;
                let idle = map.sent_over(chunk, number, index + 1).negated();
                formula.add(&[idle, map.arrival(chunk, from, index)])?;
                formula.add(&[idle, map.arrival(chunk, to, index).negated()])?;
                formula.add(&[idle, map.arrival(chunk, to, index + 1)])?;
            }
        }
    }
    Ok(())
}

/// The literals of the sends of a chunk that bring it to a node at a step, after those of a clause.
pub(crate) fn push_sends_into(
    clause: &mut Vec<Lit>,
    map: &SendMap,
    chunk: u16,
    node: u8,
    step: u8,
) -> Result<(), OutOfMemory>
    requires chunk { chunk < map.now.chunks }
    requires step { IsStep map.now.steps step }
    ensures { OnOk result (clause.new.items ≡ clause.old.items ++ sends_into map.now chunk node step) }
{
    for (number, link) in map.links().iter().enumerate() {
        if link.1 == node {
            clause.push(map.sent_over(chunk, number, step))?;
        }
    }
    Ok(())
}

/// A node that has a chunk after a step had it before, or was sent it.
#[tactic(auto, using(cnf_formula::proofs::Growing::grows_by_one, cnf_formula::proofs::Growing::grows_more))]
pub(crate) fn arrives_by_sends(
    alloc: Global,
    formula: &mut Formula,
    map: &SendMap,
) -> Result<(), OutOfMemory>
    requires vars { arrivals map.now + sends map.now ≤ formula.old.vars }
    ensures { OnOk result (formula.new ≡ with_clauses formula.old (arrives_by_sends map.now)) }
{
    let mut clause = Vec::new(alloc);
    for chunk in 0..map.chunks() {
        for node in 0..map.nodes() {
            for index in 0..map.steps() {
                let before = map.arrival(chunk, node, index);
                let after = map.arrival(chunk, node, index + 1);
                clause.clear();
                clause.push(before)?;
                clause.push(after.negated())?;
                push_sends_into(&mut clause, map, chunk, node, index + 1)?;
                formula.add(&clause)?;
            }
        }
    }
    Ok(())
}
