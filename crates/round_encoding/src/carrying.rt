//! What a group of links carries in a step.

ghost use Rattle.std.specs.{Prelude.{◌≡◌, ◌+◌, ◌*◌, ◌<◌, ◌≤◌, All, length, map, OnOk, IfOk}, List.{flat_map, range_with_len}};
ghost use Rattle.schedule.specs.Sends.{IsStep};
ghost use Rattle.cnf_formula.specs.Formulas.{IsClause, with_clauses};
ghost use Rattle.send_encoding.specs.Variables.{sent, link_number};
ghost use Rattle.round_encoding.specs.{Frames.{extra_round, own_variables}, Rounding.{count_of_group, output_at, with_count}, inner.Counts.said_of_group};

use crate::OutOfMemory;
use crate::extra::extra_round;
use cardinality::count_up_to;
use cnf_formula::{Formula, Lit};
use schedule::Group;
use send_encoding::SendMap;
use std::alloc::Global;

/// The sends over a group's links at a step.
fn sends_over_group(
    alloc: Global,
    variables: &SendMap,
    group: &Group,
    step: u8,
) -> Result<Vec<Lit>, OutOfMemory>
    requires step { IsStep variables.now.steps step }
    requires links { All (λ link. link_number variables.now link < length variables.now.links) group.now.links }
    ensures { IfOk result (λ v. v.items ≡ flat_map (λ c. map (λ link. sent variables.now c (link_number variables.now link) step) group.now.links) (range_with_len 0 variables.now.chunks)) }
{
    let mut inputs = Vec::new(alloc);
    for chunk in 0..variables.chunks() {
        for link in group.links() {
            inputs.push(variables.sent_over(chunk, variables.number(*link), step))?;
        }
    }
    Ok(inputs)
}

/// The width suffices for the step's first round, and for each extra round that it has: what is
/// said of the counter's outputs.
fn push_said(
    formula: &mut Formula,
    outputs: &[Lit],
    variables: &SendMap,
    extra: u8,
    width: u8,
    step: u8,
) -> Result<(), OutOfMemory>
    requires vars { own_variables (record { map = variables.now; extra = extra }) ≤ formula.old.vars }
    requires small { formula.old.vars < 2147483648 }
    requires outputs { IsClause formula.old.vars outputs.now }
    requires many { length outputs.now ≡ width * (1 + extra) + 1 }
    requires step { IsStep variables.now.steps step }
    requires few { extra ≤ 8 }
    ensures { OnOk result (formula.new ≡ with_clauses formula.old (said_of_group (record { map = variables.now; extra = extra }) step width (output_at outputs.now))) }
{
    for index in 0..extra {
        let full = outputs[width as usize * (index as usize + 1)];
        formula.add(&[
            full.negated(),
            extra_round(variables, extra, step, index + 1),
        ])?;
    }
    formula.add(&[outputs[width as usize * (1 + extra as usize)].negated()])
}

/// Counts the sends over a group's links at a step, and holds them to its width.
pub(crate) fn count_group(
    alloc: Global,
    formula: &mut Formula,
    variables: &SendMap,
    extra: u8,
    group: &Group,
    step: u8,
) -> Result<(), OutOfMemory>
    requires vars { own_variables (record { map = variables.now; extra = extra }) ≤ formula.old.vars }
    requires small { formula.old.vars + variables.now.chunks * length group.now.links * (group.now.width * (1 + extra) + 1) < 2147483648 }
    requires chunks { 0 < variables.now.chunks }
    requires step { IsStep variables.now.steps step }
    requires links { All (λ link. link_number variables.now link < length variables.now.links) group.now.links }
    requires few { extra ≤ 8 }
    ensures formula { OnOk result (formula.new ≡ with_count formula.old (count_of_group (record { map = variables.now; extra = extra }) step group.now)) }
    ensures few { OnOk result (formula.new.vars ≤ formula.old.vars + variables.now.chunks * length group.now.links * (group.now.width * (1 + extra) + 1)) }
    ensures more { OnOk result (formula.old.vars ≤ formula.new.vars) }
{
    let width = group.width();
    let inputs = sends_over_group(alloc, variables, group, step)?;
    let outputs = count_up_to(
        alloc,
        formula,
        &inputs,
        u32::from(width) * (1 + u32::from(extra)),
    )?;
    push_said(formula, &outputs, variables, extra, width, step)
}
