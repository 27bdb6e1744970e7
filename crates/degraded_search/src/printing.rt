//! The text of a frontier after a fault.

ghost use Rattle.std.specs.Prelude.{◌≡◌, ◌++◌, List, map, OnOk, IfOk};
ghost use Rattle.text_lines.specs.Text.{line, text_of};
ghost use Rattle.candidate_order.specs.declared.candidate.Candidate.{Candidate};
ghost use Rattle.run_rules.specs.{Degraded.degraded_text, Lines.carried_words};
ghost use Rattle.degraded_search.specs.inner.After.{ArePartedBy};

use crate::found::Found;
use candidate_order::Candidate;
use report_form::Words;
use report_printing::{
    push_all_refuted, push_all_unknown, push_candidate, push_points, push_synth_line,
};
use std::alloc::{AllocError, Global};
use text_lines::push_word;
use topology_text::{NamedTopology, push_topology};

fn push_carried(out: &mut Vec<u8>, x: Candidate) -> Result<(), AllocError>
    ensures { OnOk result (out.new.items ≡ out.old.items ++ line (carried_words x)) }
{
    push_word(out, b"carried")?;
    push_candidate(out, x)?;
    push_word(out, b"\n")?;
    Ok(())
}

fn push_all_carried(out: &mut Vec<u8>, carried: &[Candidate]) -> Result<(), AllocError>
    ensures { OnOk result (out.new.items ≡ out.old.items ++ text_of (map carried_words carried.now)) }
{
    for x in carried {
        push_carried(out, *x)?;
    }
    Ok(())
}

/// Appends the text of what a search found over the links that are left of a topology.
fn push_found(
    out: &mut Vec<u8>,
    words: Words,
    left: &NamedTopology,
    found: &Found,
) -> Result<(), AllocError>
    ensures { OnOk result ((old : List Candidate) → ArePartedBy old found.now → out.new.items ≡ out.old.items ++ degraded_text words left.now old found.now.frontier) }
{
    let names = left.names();
    push_word(out, b"degraded 1\n")?;
    push_synth_line(out, names, words)?;
    push_topology(out, left)?;
    push_word(out, b"frontier whole\n")?;
    push_points(out, names, found.frontier.points())?;
    push_all_carried(out, &found.carried)?;
    push_all_refuted(out, &found.refuted)?;
    push_all_unknown(out, found.frontier.unknown())?;
    push_word(out, b"end\n")?;
    Ok(())
}

/// The text of what a search found over the links that are left of a topology.
pub(crate) fn print_found(
    alloc: Global,
    words: Words,
    left: &NamedTopology,
    found: &Found,
) -> Result<Vec<u8>, AllocError>
    ensures { IfOk result (λ v. (old : List Candidate) → ArePartedBy old found.now → v.items ≡ degraded_text words left.now old found.now.frontier) }
{
    let mut out = Vec::new(alloc);
    push_found(&mut out, words, left, found)?;
    Ok(out)
}
