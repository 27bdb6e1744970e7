//! The programs that carry a schedule out.

ghost use Rattle.std.specs.{Prelude.{◌≡◌, ◌==◌, ℕ, ◌++◌, ◌∷◌, [], List, length, map, filter, slice_index_or, slice_set, IfOk, OnOk, if◌then◌else◌}, List.range_with_len};
ghost use Rattle.schedule.specs.Sends.{IsInRange};
ghost use Rattle.node_programs.specs.{declared.op.Op.Op, Programs.programs_of, Below.AreBelow, inner.Pushed.{send_of, take_of}};

use crate::OutOfMemory;
use crate::op::Op;
use crate::program::Program;
use crate::programs::Programs;
use bag_runs::Mode;
use schedule::{Hop, Schedule};
use std::alloc::Global;

/// The programs of so many nodes that carry the schedule out: in each step a node first sends, by
/// chunk and receiver, and then takes, by chunk and sender. Takes of the first `adding` steps add,
/// and later ones copy. The only error is `OutOfMemory`.
pub fn programs_of(
    alloc: Global,
    nodes: u8,
    schedule: &Schedule,
    adding: u8,
) -> Result<Programs, OutOfMemory>
    ensures programs { IfOk result (λ p. p ≡ programs_of nodes schedule.now adding) }
    ensures nodes { IfOk result (λ p. length p ≡ nodes) }
    // Of a schedule in range they name chunks and nodes in range.
    ensures in_range { IfOk result (λ p. (chunks : ℕ) → IsInRange chunks nodes schedule.now → AreBelow chunks nodes p) }
{
    let mut programs = no_operations(alloc, nodes)?;
    let steps = schedule.rounds().len();
    for step in 0..steps as u8 {
        let sends = schedule.sends_of(step + 1);
        push_step(&mut programs, sends, adding)?;
    }
    Ok(Programs::new(programs))
}

/// A program of no operation for each node.
fn no_operations(alloc: Global, nodes: u8) -> Result<Vec<Program>, OutOfMemory>
    ensures { IfOk result (λ p. p.items ≡ map (λ node. []) (range_with_len 0 nodes)) }
{
    let mut programs = Vec::with_capacity(alloc, nodes as usize)?;
    for _node in 0..nodes {
        programs.push(Program::new(alloc))?;
    }
    Ok(programs)
}

/// Puts an operation behind those of a node, if there is such a node.
fn push_op(programs: &mut Vec<Program>, node: u8, op: Op) -> Result<(), OutOfMemory>
    ensures { OnOk result (programs.new.items ≡ slice_set programs.old.items node (slice_index_or programs.old.items node [] ++ op ∷ [])) }
{
    if (node as usize) < programs.len() {
        let program = &mut programs[node as usize];
        program.push(op)?;
    }
    Ok(())
}

/// Puts the sends of a step behind the operations of their senders, and then the takes behind those
/// of their receivers.
fn push_step(programs: &mut Vec<Program>, sends: &[Hop], adding: u8) -> Result<(), OutOfMemory>
    ensures { OnOk result ((nodes : ℕ) (begun : ℕ → List Op) → programs.old.items ≡ map begun (range_with_len 0 nodes)
        → programs.new.items ≡ map (λ node. (begun node ++ map send_of (filter (λ h. h.from == node) sends.now)) ++ map (take_of adding) (filter (λ h. h.to == node) sends.now)) (range_with_len 0 nodes)) }
{
    push_ops(programs, sends, false, adding)?;
    push_ops(programs, sends, true, adding)
}

/// What a hop is to its receiver, the take, or else to its sender, the send; and which node that is.
fn op_of(hop: &Hop, take: bool, adding: u8) -> (u8, Op)
    ensures node { result.0 ≡ (if take then hop.now.to else hop.now.from) }
    ensures op { result.1 ≡ (if take then take_of adding else send_of) hop.now }
{
    if take {
        let op = Op::Take {
            chunk: hop.chunk,
            from: hop.from,
            step: hop.step,
            mode: Mode::at(adding, hop.step),
        };
        return (hop.to, op);
    }
    let op = Op::Send {
        chunk: hop.chunk,
        to: hop.to,
        step: hop.step,
    };
    (hop.from, op)
}

/// Puts the takes of a step behind the operations of their receivers, or else its sends behind
/// those of their senders.
fn push_ops(
    programs: &mut Vec<Program>,
    sends: &[Hop],
    take: bool,
    adding: u8,
) -> Result<(), OutOfMemory>
    ensures { OnOk result ((nodes : ℕ) (begun : ℕ → List Op) → programs.old.items ≡ map begun (range_with_len 0 nodes)
        → programs.new.items ≡ map (λ node. begun node ++ map (if take then take_of adding else send_of) (filter (λ h. (if take then h.to else h.from) == node) sends.now)) (range_with_len 0 nodes)) }
{
    for hop in sends {
        let (node, op) = op_of(hop, take, adding);
        push_op(programs, node, op)?;
    }
    Ok(())
}
