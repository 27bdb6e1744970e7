//! The parts of a report, and what follows them.

ghost use Rattle.std.specs.Prelude.{◌≡◌, ◌≤◌, length, OnOk};
ghost use Rattle.report_form.specs.{Reports.parts_of, Reading.{body_of, frontier_at, frontiers_from, joined_at}};
ghost use Rattle.report_lines.specs.{Asking.asks, Room.{HasRoom, Onward}};
ghost use Rattle.frontier_report.specs.inner.{Bodies.body_value, Gives.Reads};

use crate::listed::{Refuted, Unknowns};
use crate::points::{JoinedPoints, Points};
use crate::repeats::repeated;
use crate::report_stop::ReportStop;
use candidate_order::{Frontier, Point};
use collective_spec::Kind;
use indexmap::IndexSet;
use outer_ports::Part;
use report_form::{Words, part_bytes};
use report_lines::{Question, fixed_part, last_part};
use std::alloc::Global;
use text_lines::Lines;
use topology_text::{Name, NamedTopology};

/// The frontier of each part, and the joined points.
#[derive(Drop)]
pub struct Body {
    pub frontiers: Vec<(Part, Frontier)>,
    pub joined: Vec<Point>,
}

/// The parts that have a frontier, in the order of the text.
fn parts_of(kind: Kind) -> &'static [Part]
    ensures { result.now ≡ parts_of kind }
{
    match kind {
        Kind::Allreduce => &[Part::Reduce, Part::Gather],
        _ => &[Part::Whole],
    }
}

/// Takes a frontier: its points, then what is refuted, then what is unknown.
#[tactic(auto, using(text_lines::proofs::Repeated::lines_are_parts), unfolding(report_form::specs::Reading::frontier_at))]
fn frontier_part(lines: &mut Lines<'_>, points: &Points<'_>) -> Result<Frontier, ReportStop>
    requires { HasRoom lines.old.place }
    ensures read { Reads (λ frontier. (frontier, lines.new.place)) result (frontier_at points.now.names.now.keys (asks points.now.question.now) points.now.question.now.part lines.old.place) }
    ensures text { lines.new.text ≡ lines.old.text }
    ensures onward { OnOk result (Onward lines.old.place lines.new.place) }
{
    let Points {
        alloc,
        question,
        ..
    } = *points;
    fixed_part(lines, part_bytes(question.part))?;
    let listed = repeated(alloc, lines, b"point ", points)?;
    let refuted = repeated(alloc, lines, b"refuted ", &Refuted(question))?;
    let unknown = repeated(alloc, lines, b"unknown ", &Unknowns(question))?;
    Ok(Frontier::new(listed, refuted, unknown))
}

/// Takes a frontier for each of these parts.
fn frontiers_of(
    alloc: Global,
    lines: &mut Lines<'_>,
    names: &IndexSet<Name>,
    words: Words,
    topology: &NamedTopology,
    parts: &[Part],
) -> Result<Vec<(Part, Frontier)>, ReportStop>
    requires room { HasRoom lines.old.place }
    requires few { length names.now.keys ≤ 16 }
    requires names { names.now.keys ≡ topology.now.names }
    requires nodes { length names.now.keys ≡ topology.now.topology.nodes }
    ensures read { Reads (λ v. (v.items, lines.new.place)) result (frontiers_from words topology.now parts.now lines.old.place) }
    ensures text { lines.new.text ≡ lines.old.text }
    ensures onward { OnOk result (Onward lines.old.place lines.new.place) }
{
    let mut frontiers: Vec<(Part, Frontier)> = Vec::new(alloc);
    for part in parts {
        let part = *part;
        let question = &Question {
            words,
            topology,
            part,
        };
        let points = Points {
            alloc,
            names,
            question,
        };
        let frontier = frontier_part(lines, &points)?;
        frontiers.push((part, frontier))?;
    }
    Ok(frontiers)
}

/// Takes the joined points, which only an allreduce has.
fn joined_part(
    alloc: Global,
    lines: &mut Lines<'_>,
    names: &IndexSet<Name>,
    words: Words,
    topology: &NamedTopology,
) -> Result<Vec<Point>, ReportStop>
    requires room { HasRoom lines.old.place }
    requires few { length names.now.keys ≤ 16 }
    requires names { names.now.keys ≡ topology.now.names }
    requires nodes { length names.now.keys ≡ topology.now.topology.nodes }
    ensures read { Reads (λ v. (v.items, lines.new.place)) result (joined_at words.collective.kind words topology.now lines.old.place) }
    ensures text { lines.new.text ≡ lines.old.text }
    ensures onward { OnOk result (Onward lines.old.place lines.new.place) }
{
    match words.collective().kind {
        Kind::Allreduce => {
            let question = &Question {
                words,
                topology,
                part: Part::Joined,
            };
            let points = Points {
                alloc,
                names,
                question,
            };
            fixed_part(lines, part_bytes(Part::Joined))?;
            repeated(alloc, lines, b"point ", &JoinedPoints(points))
        }
        _ => Ok(Vec::new(alloc)),
    }
}

/// Takes all that stands behind the topology.
#[tactic(auto, unfolding(report_form::specs::Reading::body_of))]
pub fn body_part(
    alloc: Global,
    lines: &mut Lines<'_>,
    names: &IndexSet<Name>,
    words: Words,
    topology: &NamedTopology,
) -> Result<Body, ReportStop>
    requires room { HasRoom lines.old.place }
    requires few { length names.now.keys ≤ 16 }
    requires names { names.now.keys ≡ topology.now.names }
    requires nodes { length names.now.keys ≡ topology.now.topology.nodes }
    ensures { Reads (body_value words topology.now) result (body_of words topology.now lines.old.place) }
{
    let parts = parts_of(words.collective().kind);
    let frontiers = frontiers_of(alloc, lines, names, words, topology, parts)?;
    let joined = joined_part(alloc, lines, names, words, topology)?;
    fixed_part(lines, b"end")?;
    last_part(lines)?;
    Ok(Body { frontiers, joined })
}
