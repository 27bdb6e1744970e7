//! The programs of a point as JSON.

ghost use Rattle.std.specs.{Prelude.{◌≡◌, ◌<◌, ◌≤◌, map, length, IfOk}, List.range_with_len};
ghost use Rattle.node_programs.specs.Printing.{mode_word};
ghost use Rattle.serde_json.specs.View.{view};
ghost use Rattle.json_values.specs.Json.{printed, array_of};
ghost use Rattle.json_rules.specs.ProgramsJson.{op_json, node_json, programs_json};

use json_values::node_text;
use node_programs::{Mode, Op, Programs};
use serde_json::{Value, json};
use std::alloc::{AllocError, Global};
use topology_text::Name;

fn mode_text(mode: Mode) -> &'static str
    ensures { result.now ≡ mode_word mode }
{
    match mode {
        Mode::Copy => "copy",
        Mode::Add => "add",
    }
}

fn op_json(alloc: Global, names: &[Name], op: &Op) -> Result<Value, AllocError>
    ensures { IfOk result (λ v. view v ≡ op_json names.now op.now) }
{
    match op {
        Op::Send { chunk, to, step } => {
            let to = node_text(names, *to);
            json!(in alloc; [*step, "send", *chunk, to])
        }
        Op::Take {
            chunk,
            from,
            step,
            mode,
        } => {
            let from = node_text(names, *from);
            let mode = mode_text(*mode);
            json!(in alloc; [*step, "take", *chunk, from, mode])
        }
    }
}

fn ops_json(alloc: Global, names: &[Name], ops: &[Op]) -> Result<Value, AllocError>
    ensures { IfOk result (λ v. view v ≡ array_of (map (op_json names.now) ops.now)) }
{
    let mut values = Vec::new(alloc);
    for op in ops {
        values.push(op_json(alloc, names, op)?)?;
    }
    Ok(Value::Array(values))
}

fn node_json(
    alloc: Global,
    names: &[Name],
    programs: &Programs,
    node: u8,
) -> Result<Value, AllocError>
    requires { node < length programs.now }
    ensures { IfOk result (λ v. view v ≡ node_json names.now programs.now node) }
{
    let ops = ops_json(alloc, names, programs.left(node))?;
    let name = node_text(names, node);
    json!(in alloc; {"node": name, "ops": ops})
}

fn nodes_json(alloc: Global, names: &[Name], programs: &Programs) -> Result<Vec<Value>, AllocError>
    requires as_many { length names.now ≡ length programs.now }
    requires few { length names.now ≤ 16 }
    ensures { IfOk result (λ v. map view v.items ≡ map (node_json names.now programs.now) (range_with_len 0 (length names.now))) }
{
    let mut values = Vec::new(alloc);
    let nodes = names.len() as u8;
    for node in 0..nodes {
        values.push(node_json(alloc, names, programs, node)?)?;
    }
    Ok(values)
}

fn programs_value(
    alloc: Global,
    point: u32,
    programs: &Programs,
    names: &[Name],
) -> Result<Value, AllocError>
    requires as_many { length names.now ≡ length programs.now }
    requires few { length names.now ≤ 16 }
    ensures { IfOk result (λ v. view v ≡ programs_json point names.now programs.now) }
{
    let nodes = Value::Array(nodes_json(alloc, names, programs)?);
    json!(in alloc; {"point": point, "programs": nodes})
}

/// The programs of the point of this number as JSON without spaces, the keys of each object
/// ascending, with a line feed behind. There is a name for each node. An `Err` comes only where
/// memory runs out.
pub fn programs_json(
    alloc: Global,
    point: u32,
    programs: &Programs,
    names: &[Name],
) -> Result<Vec<u8>, AllocError>
    requires as_many { length names.now ≡ length programs.now }
    requires few { length names.now ≤ 16 }
    ensures { IfOk result (λ v. v.items ≡ printed (programs_json point names.now programs.now)) }
{
    let mut out = programs_value(alloc, point, programs, names)?.to_vec(alloc)?;
    out.push(b'\n')?;
    Ok(out)
}
