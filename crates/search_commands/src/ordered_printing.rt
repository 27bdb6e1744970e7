//! The text of a frontier whose schedules are ordered.

ghost use Rattle.std.specs.Prelude.{◌≡◌, ◌++◌, IfOk, OnOk};
ghost use Rattle.outer_ports.specs.declared.part.Part.TheVariants.{Whole};
ghost use Rattle.report_printing.specs.Printed.{frontier_text};
ghost use Rattle.run_rules.specs.Orders.{ordered_text};

use crate::OutOfMemory;
use candidate_order::Frontier;
use report_form::Words;
use report_printing::{push_all_refuted, push_all_unknown, push_points, push_synth_line};
use std::alloc::Global;
use text_lines::push_word;
use topology_text::{Name, NamedTopology};

/// Appends the points, and what is refuted and what is unknown.
fn push_frontier(out: &mut Vec<u8>, names: &[Name], frontier: &Frontier) -> Result<(), OutOfMemory>
    ensures { OnOk result (out.new.items ≡ out.old.items ++ frontier_text names.now (Whole, frontier.now)) }
{
    push_word(out, b"frontier whole\n")?;
    push_points(out, names, frontier.points())?;
    push_all_refuted(out, frontier.refuted())?;
    push_all_unknown(out, frontier.unknown())?;
    Ok(())
}

/// The text of what a search found for these words.
pub(crate) fn print_ordered(
    alloc: Global,
    words: Words,
    topology: &NamedTopology,
    frontier: &Frontier,
) -> Result<Vec<u8>, OutOfMemory>
    ensures { IfOk result (λ text. text.items ≡ ordered_text words topology.now frontier.now) }
{
    let names = topology.names();
    let mut out = Vec::new(alloc);
    push_word(&mut out, b"ordered 1\n")?;
    push_synth_line(&mut out, names, words)?;
    push_frontier(&mut out, names, frontier)?;
    push_word(&mut out, b"end\n")?;
    Ok(out)
}
