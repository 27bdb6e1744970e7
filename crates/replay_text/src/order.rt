//! The run of a point's programs in the order that a seed draws.

ghost use Rattle.std.specs.Prelude.{◌≡◌, ◌++◌, ◌∷◌, flat_map, length, map, if◌then◌else◌, [], Contains, OnOk};
ghost use Rattle.text_lines.specs.Text.{text_of};
ghost use Rattle.topology_text.specs.Spelling.{name_at};
ghost use Rattle.report_form.specs.Numbered.{points_of};
ghost use Rattle.replay_text.specs.{Showing.{order_lines, shown_in, shown_steps}, inner.Appended.move_lines};

use crate::OutOfMemory;
use crate::running::run_point;
use crate::steps::{NodeLines, push_last};
use crate::words::push_numbered;
use candidate_order::Point;
use outer_ports::Part;
use report_form::Report;
use std::alloc::Global;
use text_lines::push_word;
use topology_text::{Name, push_node_field};

/// Appends the names of the nodes that move, each behind a space.
fn push_movers(out: &mut Vec<u8>, names: &[Name], moves: &[u8]) -> Result<(), OutOfMemory>
    ensures { OnOk result (out.new.items ≡ out.old.items ++ flat_map (λ node. 32 ∷ name_at names.now node) moves.now) }
{
    for node in moves {
        push_node_field(out, names, *node)?;
    }
    Ok(())
}

/// Appends the seed of an order, how many events there are, and the node of each.
#[tactic(auto, using(crate::proofs::Lines::mapped_line, std::proofs::lemmas::Grind::common_steps))]
fn push_moves(out: &mut Vec<u8>, names: &[Name], seed: u64, moves: &[u8]) -> Result<(), OutOfMemory>
    ensures { OnOk result (out.new.items ≡ out.old.items ++ text_of (move_lines names.now seed (length moves.now) moves.now)) }
{
    push_numbered(out, b"order", seed)?;
    push_numbered(out, b"events", moves.len() as u64)?;
    push_word(out, b"moves")?;
    push_movers(out, names, moves)?;
    push_word(out, b"\n")
}

/// Appends the run of the programs of a point, where the verdict holds and an order is asked for,
/// and what the nodes have after the last step of its run.
pub(crate) fn push_order<N: NodeLines>(
    alloc: Global,
    out: &mut Vec<u8>,
    report: &Report,
    part: Part,
    point: &Point,
    run: &[N],
    holds: bool,
    order: Option<u64>,
) -> Result<(), OutOfMemory>
    requires listed { Contains (points_of report.now) (part, point.now) }
    requires run { map (N.lines report.now.topology.names) run.now ≡ shown_steps (shown_in report.now (part, point.now)) }
    ensures { OnOk result (out.new.items ≡ out.old.items ++ text_of (if holds then order_lines (shown_in report.now (part, point.now)) order else [])) }
{
    if !holds {
        return Ok(());
    }
    let Some(seed) = order else {
        return Ok(());
    };
    let names = report.topology().names();
    let runs = run_point(alloc, report, part, point, &[seed])?;
    push_moves(out, names, seed, &runs[0])?;
    push_last(out, names, run)
}
