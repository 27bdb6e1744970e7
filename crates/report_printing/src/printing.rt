//! The one spelling of a report.

ghost use Rattle.std.specs.{Prelude.{◌≡◌, ◌++◌, ◌∷◌, [], codes, decimal, map, OnOk, IfOk}, List.flat_map};
ghost use Rattle.text_lines.specs.Text.{line, text_of, fields};
ghost use Rattle.topology_text.specs.Spelling.{version_word};
ghost use Rattle.report_form.specs.Spelling.{candidate_words, joined_lines, mark_words, point_words, pruning_words, refuted_words, report_text, root_words, rounds_words, send_words, synth_words, unknown_words};
ghost use Rattle.report_printing.specs.Printed.{frontier_text, limits_text, point_text};

use candidate_order::{Candidate, Frontier, Limits, Mark, Point, Pruning, Unknown};
use collective_spec::{Kind, takes_root};
use outer_ports::Part;
use report_form::{Report, Words, part_bytes};
use schedule::Hop;
use std::alloc::{AllocError, Global};
use text_lines::{push_number, push_number_field, push_word};
use topology_text::{Name, NamedTopology, push_node_field, push_node_name, push_topology};

/// Appends the steps, the rounds and the chunk count, each behind a space. An `Err` comes only
/// where memory runs out.
pub fn push_candidate(out: &mut Vec<u8>, x: Candidate) -> Result<(), AllocError>
    ensures { OnOk result (out.new.items ≡ out.old.items ++ fields (candidate_words x)) }
{
    push_number_field(out, u64::from(x.s))?;
    push_number_field(out, u64::from(x.r))?;
    push_number_field(out, u64::from(x.c))?;
    Ok(())
}

fn push_mark(out: &mut Vec<u8>, mark: Mark) -> Result<(), AllocError>
    ensures { OnOk result (out.new.items ≡ out.old.items ++ fields (mark_words mark)) }
{
    match mark {
        Mark::Optimal => push_word(out, b" optimal"),
        Mark::Open => push_word(out, b" open"),
        Mark::Joined { adding } => {
            push_word(out, b" joined")?;
            push_number_field(out, u64::from(adding))?;
            Ok(())
        }
    }
}

fn push_head(out: &mut Vec<u8>, point: &Point) -> Result<(), AllocError>
    ensures { OnOk result (out.new.items ≡ out.old.items ++ line (point_words point.now)) }
{
    push_word(out, b"point")?;
    push_candidate(out, point.candidate())?;
    push_mark(out, point.mark())?;
    push_word(out, b"\n")?;
    Ok(())
}

fn push_numbers(out: &mut Vec<u8>, numbers: &[u8]) -> Result<(), AllocError>
    ensures { OnOk result (out.new.items ≡ out.old.items ++ fields (map decimal numbers.now)) }
{
    for number in numbers {
        push_number_field(out, u64::from(*number))?;
    }
    Ok(())
}

fn push_rounds(out: &mut Vec<u8>, rounds: &[u8]) -> Result<(), AllocError>
    ensures { OnOk result (out.new.items ≡ out.old.items ++ line (rounds_words rounds.now)) }
{
    push_word(out, b"rounds")?;
    push_numbers(out, rounds)?;
    push_word(out, b"\n")?;
    Ok(())
}

fn push_send(out: &mut Vec<u8>, names: &[Name], hop: Hop) -> Result<(), AllocError>
    ensures { OnOk result (out.new.items ≡ out.old.items ++ line (send_words names.now hop)) }
{
    push_word(out, b"send")?;
    push_number_field(out, u64::from(hop.chunk))?;
    push_node_field(out, names, hop.from)?;
    push_node_field(out, names, hop.to)?;
    push_number_field(out, u64::from(hop.step))?;
    push_word(out, b"\n")?;
    Ok(())
}

fn push_sends(out: &mut Vec<u8>, names: &[Name], sends: &[Hop]) -> Result<(), AllocError>
    ensures { OnOk result (out.new.items ≡ out.old.items ++ text_of (map (send_words names.now) sends.now)) }
{
    for hop in sends {
        push_send(out, names, *hop)?;
    }
    Ok(())
}

fn push_point(out: &mut Vec<u8>, names: &[Name], point: &Point) -> Result<(), AllocError>
    ensures { OnOk result (out.new.items ≡ out.old.items ++ point_text names.now point.now) }
{
    push_head(out, point)?;
    push_rounds(out, point.schedule().rounds())?;
    push_sends(out, names, point.schedule().sends())?;
    Ok(())
}

/// Appends the lines of points, in their order: each with its rounds and its sends, nodes by their
/// names. An `Err` comes only where memory runs out.
pub fn push_points(out: &mut Vec<u8>, names: &[Name], points: &[Point]) -> Result<(), AllocError>
    ensures { OnOk result (out.new.items ≡ out.old.items ++ flat_map (point_text names.now) points.now) }
{
    for point in points {
        push_point(out, names, point)?;
    }
    Ok(())
}

fn push_refuted(out: &mut Vec<u8>, x: Candidate) -> Result<(), AllocError>
    ensures { OnOk result (out.new.items ≡ out.old.items ++ line (refuted_words x)) }
{
    push_word(out, b"refuted")?;
    push_candidate(out, x)?;
    push_word(out, b"\n")?;
    Ok(())
}

/// Appends a line for each candidate that is refuted. An `Err` comes only where memory runs out.
pub fn push_all_refuted(out: &mut Vec<u8>, refuted: &[Candidate]) -> Result<(), AllocError>
    ensures { OnOk result (out.new.items ≡ out.old.items ++ text_of (map refuted_words refuted.now)) }
{
    for x in refuted {
        push_refuted(out, *x)?;
    }
    Ok(())
}

fn push_unknown(out: &mut Vec<u8>, x: &Unknown) -> Result<(), AllocError>
    ensures { OnOk result (out.new.items ≡ out.old.items ++ line (unknown_words x.now)) }
{
    push_word(out, b"unknown")?;
    push_candidate(out, x.candidate())?;
    push_number_field(out, u64::from(x.conflicts()))?;
    push_word(out, b"\n")?;
    Ok(())
}

/// Appends a line for each candidate that was given up. An `Err` comes only where memory runs out.
pub fn push_all_unknown(out: &mut Vec<u8>, unknown: &[Unknown]) -> Result<(), AllocError>
    ensures { OnOk result (out.new.items ≡ out.old.items ++ text_of (map unknown_words unknown.now)) }
{
    for x in unknown {
        push_unknown(out, x)?;
    }
    Ok(())
}

fn push_frontier(
    out: &mut Vec<u8>,
    names: &[Name],
    part: Part,
    frontier: &Frontier,
) -> Result<(), AllocError>
    ensures { OnOk result (out.new.items ≡ out.old.items ++ frontier_text names.now (part, frontier.now)) }
{
    push_word(out, part_bytes(part))?;
    push_word(out, b"\n")?;
    push_points(out, names, frontier.points())?;
    push_all_refuted(out, frontier.refuted())?;
    push_all_unknown(out, frontier.unknown())?;
    Ok(())
}

fn push_frontiers(
    out: &mut Vec<u8>,
    names: &[Name],
    frontiers: &[(Part, Frontier)],
) -> Result<(), AllocError>
    ensures { OnOk result (out.new.items ≡ out.old.items ++ flat_map (frontier_text names.now) frontiers.now) }
{
    for (part, frontier) in frontiers {
        push_frontier(out, names, *part, frontier)?;
    }
    Ok(())
}

fn push_joined(
    out: &mut Vec<u8>,
    names: &[Name],
    kind: Kind,
    joined: &[Point],
) -> Result<(), AllocError>
    ensures { OnOk result (out.new.items ≡ out.old.items ++ text_of (joined_lines names.now kind joined.now)) }
{
    match kind {
        Kind::Allreduce => {
            push_word(out, b"joined\n")?;
            push_points(out, names, joined)?;
            Ok(())
        }
        _ => Ok(()),
    }
}

/// Appends a key and a number.
fn push_keyed(out: &mut Vec<u8>, key: &[u8], value: u64) -> Result<(), AllocError>
    ensures { OnOk result (out.new.items ≡ out.old.items ++ (key.now ++ decimal value)) }
{
    push_word(out, key)?;
    push_number(out, value)?;
    Ok(())
}

fn push_limits(out: &mut Vec<u8>, limits: Limits) -> Result<(), AllocError>
    ensures { OnOk result (out.new.items ≡ out.old.items ++ limits_text limits) }
{
    push_keyed(out, b" k=", u64::from(limits.k()))?;
    push_keyed(out, b" steps=", u64::from(limits.max_s()))?;
    push_keyed(out, b" chunks=", u64::from(limits.max_c()))?;
    push_keyed(out, b" conflicts=", u64::from(limits.conflicts()))?;
    Ok(())
}

fn push_root(out: &mut Vec<u8>, names: &[Name], words: Words) -> Result<(), AllocError>
    ensures { OnOk result (out.new.items ≡ out.old.items ++ fields (root_words names.now words)) }
{
    if takes_root(words.collective().kind) {
        push_word(out, b" root=")?;
        push_node_name(out, names, words.collective().root)?;
    }
    Ok(())
}

fn push_pruning(out: &mut Vec<u8>, pruning: Pruning) -> Result<(), AllocError>
    ensures { OnOk result (out.new.items ≡ out.old.items ++ fields (pruning_words pruning)) }
{
    if pruning.cuts {
        push_word(out, b" cuts=yes")?;
    }
    if pruning.ordered {
        push_word(out, b" ordered=yes")?;
    }
    Ok(())
}

/// Appends the line of what was asked: `synth`, and each key with its value, nodes by their names.
/// An `Err` comes only where memory runs out.
pub fn push_synth_line(out: &mut Vec<u8>, names: &[Name], words: Words) -> Result<(), AllocError>
    ensures { OnOk result (out.new.items ≡ out.old.items ++ line (synth_words names.now words)) }
{
    push_word(out, b"synth collective=")?;
    push_word(out, words.collective().kind.word().as_bytes())?;
    push_limits(out, words.limits())?;
    push_root(out, names, words)?;
    push_pruning(out, words.limits().pruning())?;
    push_word(out, b"\n")?;
    Ok(())
}

/// The first line: version 2 is that of reports with a pattern.
fn version_bytes(topology: &NamedTopology) -> &'static [u8]
    ensures { result.now ≡ line (codes "sccl" ∷ version_word topology.now.custom ∷ []) }
{
    match topology.custom() {
        None => b"sccl 1\n",
        Some(_) => b"sccl 2\n",
    }
}

/// The one spelling of the report. An `Err` comes only where memory runs out.
pub fn print_report(alloc: Global, report: &Report) -> Result<Vec<u8>, AllocError>
    ensures { IfOk result (λ v. v.items ≡ report_text report.now) }
{
    let mut out = Vec::new(alloc);
    let topology = report.topology();
    let names = topology.names();
    push_word(&mut out, version_bytes(topology))?;
    push_synth_line(&mut out, names, report.words())?;
    push_topology(&mut out, topology)?;
    push_frontiers(&mut out, names, report.frontiers())?;
    push_joined(
        &mut out,
        names,
        report.words().collective().kind,
        report.joined(),
    )?;
    push_word(&mut out, b"end\n")?;
    Ok(out)
}
