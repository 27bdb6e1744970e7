//! The text of a frontier with its cuts and its floor.

ghost use Rattle.std.specs.Prelude.{◌≡◌, ◌<◌, ◌≤◌, if◌then◌else◌, [], ◌∷◌, ◌++◌, length, decimal, map, OnOk, IfOk};
ghost use Rattle.text_lines.specs.Text.{line, text_of, fields};
ghost use Rattle.outer_ports.specs.declared.part.Part.TheVariants.{Whole};
ghost use Rattle.report_form.specs.Reports.{question_of};
ghost use Rattle.topology_text.specs.Spelling.{name_at};
ghost use Rattle.node_cuts.specs.Sides.{has_bit};
ghost use Rattle.search_commands.specs.Bounded.{AreBounds};
ghost use Rattle.run_rules.specs.{Bounds.{bound_text, floor_words, names_of_set}, Lines.cut_words};

use crate::bounds::Bounds;
use candidate_order::Candidate;
use cut_bounds::{Cut, Floor, Sets, has_node};
use report_form::Words;
use report_printing::{
    push_all_refuted, push_all_unknown, push_candidate, push_points, push_synth_line,
};
use std::alloc::{AllocError, Global};
use text_lines::{push_number_field, push_word};
use topology_text::{Name, NamedTopology, push_node_field};

/// Appends a space and the name of the node, where its bit is set.
fn push_member(out: &mut Vec<u8>, names: &[Name], nodes: u16, node: u8) -> Result<(), AllocError>
    requires few { node < 16 }
    ensures { OnOk result (out.new.items ≡ out.old.items ++ (if has_bit nodes node then 32 ∷ name_at names.now node else [])) }
{
    if has_node(nodes, node) {
        push_node_field(out, names, node)?;
    }
    Ok(())
}

/// Appends the names of the nodes whose bits are set, each behind a space.
fn push_names(out: &mut Vec<u8>, names: &[Name], nodes: u16) -> Result<(), AllocError>
    requires few { length names.now ≤ 16 }
    ensures { OnOk result (out.new.items ≡ out.old.items ++ fields (names_of_set names.now nodes)) }
{
    for node in 0..names.len() as u8 {
        push_member(out, names, nodes, node)?;
    }
    Ok(())
}

/// Appends the two numbers of the floor, each behind a space.
fn push_fraction(out: &mut Vec<u8>, floor: Floor) -> Result<(), AllocError>
    ensures { OnOk result (out.new.items ≡ out.old.items ++ fields (decimal floor.above ∷ decimal floor.below ∷ [])) }
{
    push_number_field(out, u64::from(floor.above))?;
    push_number_field(out, u64::from(floor.below))?;
    Ok(())
}

fn push_floor(out: &mut Vec<u8>, names: &[Name], floor: Floor) -> Result<(), AllocError>
    requires few { length names.now ≤ 16 }
    ensures { OnOk result (out.new.items ≡ out.old.items ++ line (floor_words names.now floor)) }
{
    push_word(out, b"floor")?;
    push_fraction(out, floor)?;
    push_names(out, names, floor.nodes)?;
    push_word(out, b"\n")?;
    Ok(())
}

fn push_cut(out: &mut Vec<u8>, names: &[Name], x: Candidate, cut: &Cut) -> Result<(), AllocError>
    requires few { length names.now ≤ 16 }
    ensures { OnOk result (out.new.items ≡ out.old.items ++ line (cut_words names.now (x, cut.now))) }
{
    push_word(out, b"cut")?;
    push_candidate(out, x)?;
    push_names(out, names, cut.nodes())?;
    push_word(out, b"\n")?;
    Ok(())
}

fn push_cuts(out: &mut Vec<u8>, names: &[Name], cuts: &[(Candidate, Cut)]) -> Result<(), AllocError>
    requires few { length names.now ≤ 16 }
    ensures { OnOk result (out.new.items ≡ out.old.items ++ text_of (map (cut_words names.now) cuts.now)) }
{
    for (candidate, cut) in cuts {
        push_cut(out, names, *candidate, cut)?;
    }
    Ok(())
}

/// The text of what a search found, and what cuts say of it.
pub(crate) fn print_bounds(
    alloc: Global,
    words: Words,
    topology: &NamedTopology,
    sets: Sets,
    bounds: &Bounds,
) -> Result<Vec<u8>, AllocError>
    requires bounds { AreBounds sets (question_of words topology.now Whole) bounds.now }
    ensures { IfOk result (λ v. v.items ≡ bound_text words topology.now sets bounds.now.frontier) }
{
    let names = topology.names();
    let mut out = Vec::new(alloc);
    push_word(&mut out, b"bound 1\n")?;
    push_synth_line(&mut out, names, words)?;
    push_floor(&mut out, names, bounds.floor)?;
    push_word(&mut out, b"frontier whole\n")?;
    push_points(&mut out, names, bounds.frontier.points())?;
    push_cuts(&mut out, names, &bounds.refuted.cuts)?;
    push_all_refuted(&mut out, &bounds.refuted.others)?;
    push_all_unknown(&mut out, bounds.frontier.unknown())?;
    push_word(&mut out, b"end\n")?;
    Ok(out)
}
