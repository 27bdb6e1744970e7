//! The text of the programs of a point's schedule.

ghost use Rattle.std.specs.Prelude.{◌≡◌, ◌++◌, ◌∷◌, decimal, length, IfOk, OnOk};
ghost use Rattle.text_lines.specs.Text.{line, text_of};
ghost use Rattle.node_programs.specs.Printing.{mode_word, node_lines, op_words, programs_text};

use crate::OutOfMemory;
use crate::op::Op;
use crate::programs::Programs;
use bag_runs::Mode;
use std::alloc::Global;
use text_lines::{push_number, push_word};
use topology_text::{Name, push_node_field};

/// The text of the programs of the point of this number, with a name for each node. The only error
/// is `OutOfMemory`.
pub fn print_programs(
    alloc: Global,
    point: u32,
    programs: &Programs,
    names: &[Name],
) -> Result<Vec<u8>, OutOfMemory>
    requires { length names.now ≡ length programs.now }
    ensures { IfOk result (λ text. text.items ≡ programs_text point names.now programs.now) }
{
    let mut out = Vec::new(alloc);
    push_word(&mut out, b"programs ")?;
    push_number(&mut out, u64::from(point))?;
    push_word(&mut out, b"\n")?;
    for (node, program) in programs.as_slice().iter().enumerate() {
        push_node(&mut out, names, &names[node], program.left())?;
    }
    push_word(&mut out, b"end\n")?;
    Ok(out)
}

/// The lines of a node: its name, and its operations.
#[tactic(auto, using(std::proofs::lemmas::List::take_all, topology_text::proofs::Printed::appended, crate::proofs::Printed::node_is))]
fn push_node(out: &mut Vec<u8>, names: &[Name], name: &Name, ops: &[Op]) -> Result<(), OutOfMemory>
    ensures { OnOk result (out.new.items ≡ out.old.items ++ text_of (node_lines names.now (name.now, ops.now))) }
{
    push_word(out, b"node ")?;
    push_word(out, name.as_bytes())?;
    push_word(out, b"\n")?;
    for op in ops {
        push_op(out, names, op)?;
    }
    Ok(())
}

/// The line of an operation.
fn push_op(out: &mut Vec<u8>, names: &[Name], op: &Op) -> Result<(), OutOfMemory>
    ensures { OnOk result (out.new.items ≡ out.old.items ++ line (op_words names.now op.now)) }
{
    match op {
        Op::Send { chunk, to, step } => {
            push_front(out, *step, b" send ", *chunk)?;
            push_node_field(out, names, *to)?;
        }
        Op::Take {
            chunk,
            from,
            step,
            mode,
        } => {
            push_front(out, *step, b" take ", *chunk)?;
            push_node_field(out, names, *from)?;
            push_mode(out, *mode)?;
        }
    }
    push_word(out, b"\n")
}

/// What an operation does, at which step and to which chunk.
fn push_front(out: &mut Vec<u8>, step: u8, verb: &[u8], chunk: u16) -> Result<(), OutOfMemory>
    ensures { OnOk result (out.new.items ≡ out.old.items ++ (decimal step ++ (verb.now ++ decimal chunk))) }
{
    push_number(out, u64::from(step))?;
    push_word(out, verb)?;
    push_number(out, u64::from(chunk))
}

/// A space and the word of the mode.
fn push_mode(out: &mut Vec<u8>, mode: Mode) -> Result<(), OutOfMemory>
    ensures { OnOk result (out.new.items ≡ out.old.items ++ 32 ∷ mode_word mode) }
{
    match mode {
        Mode::Copy => push_word(out, b" copy"),
        Mode::Add => push_word(out, b" add"),
    }
}
