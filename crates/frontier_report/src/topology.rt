//! The topology's lines among those of a report.

ghost use Rattle.std.specs.Prelude.{◌≡◌, ◌≤◌, ◌+◌, ◌-◌, length, slice_get, IfOk, IfSome, OnOk};
ghost use Rattle.text_lines.specs.{Text.rows_of, Check.{at_line, line_part}};
ghost use Rattle.collective_spec.specs.Patterns.{IsPattern};
ghost use Rattle.topology_text.specs.Reading.{groups_at, nodes_line, pattern_at};
ghost use Rattle.report_form.specs.{SynthLine.root_of, Lines.{among, blamed, whole_line}};
ghost use Rattle.frontier_report.specs.inner.{Gives.Reads, Header.{stop_of, header_at, HasMuchRoom}};
ghost use Rattle.report_lines.specs.{Gives.TellsAt, Room.Onward};

use crate::report_stop::ReportStop;
use collective_spec::Pattern;
use indexmap::IndexSet;
use report_form::{ReportCode, ReportFault};
use schedule::Group;
use std::alloc::Global;
use text_lines::{Lines, Stop};
use topology_text::{Name, TopologyCode, groups_part, header_part, nodes_part, pattern_part};

/// Why a line at which the topology's checks fail is refused: it may be lacking, or lack its line
/// feed.
fn blame(text: &[u8], number: u32) -> ReportCode
    ensures { result ≡ blamed (whole_line (slice_get (rows_of text.now) (number - 1))) }
{
    let mut lines = Lines::new(text);
    while lines.number() < number {
        if lines.next().is_none() {
            break;
        }
    }
    match lines.peek() {
        Some(line) if line.whole => ReportCode::BadLine,
        _ => ReportCode::Truncated,
    }
}

/// A refusal of the topology's text, as one of the report's.
fn among(text: &[u8], fault: (TopologyCode, u32)) -> ReportFault
    ensures { result ≡ record { code = blamed (whole_line (slice_get (rows_of text.now) (fault.1 - 1))); line = fault.1 } }
{
    ReportFault {
        code: blame(text, fault.1),
        line: fault.1,
    }
}

fn stop_of(text: &[u8], stop: Stop<(TopologyCode, u32)>) -> ReportStop
    ensures { result ≡ stop_of text.now stop }
{
    match stop {
        Stop::Memory => ReportStop::Memory,
        Stop::Refused(fault) => ReportStop::Refused(among(text, fault)),
    }
}

/// Takes the topology's header, which is to be of the report's version.
pub fn header_at(lines: &mut Lines<'_>, patterned: bool) -> Result<(), ReportFault>
    requires room { HasMuchRoom lines.old.place }
    ensures read { TellsAt (λ _. lines.new.place) result (header_at (rows_of lines.old.text) patterned lines.old.place) }
    ensures text { lines.new.text ≡ lines.old.text }
    ensures onward { OnOk result (Onward lines.old.place lines.new.place) }
    ensures moved { OnOk result (lines.new.place.number ≤ lines.old.place.number + 1) }
{
    let text = lines.text();
    let number = lines.number();
    let said = header_part(lines).map_err(|fault| among(text, fault))?;
    if said == patterned {
        Ok(())
    } else {
        Err(ReportFault {
            code: ReportCode::BadLine,
            line: number,
        })
    }
}

/// Takes the names of the nodes.
#[tactic(auto, using(crate::proofs::Onward::nodes_onward))]
pub fn names_at(alloc: Global, lines: &mut Lines<'_>) -> Result<IndexSet<Name>, ReportStop>
    requires room { HasMuchRoom lines.old.place }
    ensures read { Reads (λ names. (names.keys, lines.new.place)) result (among (rows_of lines.old.text) (line_part nodes_line lines.old.place)) }
    ensures few { IfOk result (λ names. length names.keys ≤ 16) }
    ensures text { lines.new.text ≡ lines.old.text }
    ensures onward { OnOk result (Onward lines.old.place lines.new.place) }
    ensures moved { OnOk result (lines.new.place.number ≤ lines.old.place.number + 1) }
{
    let text = lines.text();
    match nodes_part(alloc, lines) {
        Ok(names) => Ok(names),
        Err(stop) => Err(stop_of(text, stop)),
    }
}

/// The node of the root; 0 where the collective takes none. The names stand on that line.
pub fn root_at(names: &IndexSet<Name>, root: Option<Name>, line: u32) -> Result<u8, ReportFault>
    requires { length names.now.keys ≤ 16 }
    ensures { TellsAt (λ root. root) result (at_line line (root_of names.now.keys root)) }
{
    let Some(name) = root else {
        return Ok(0);
    };
    match names.get_index_of(name.as_bytes()) {
        Some(node) => Ok(node as u8),
        None => Err(ReportFault {
            code: ReportCode::Limits,
            line,
        }),
    }
}

/// Takes the groups of links.
pub fn groups_in(
    alloc: Global,
    lines: &mut Lines<'_>,
    names: &IndexSet<Name>,
) -> Result<Vec<Group>, ReportStop>
    requires room { HasMuchRoom lines.old.place }
    requires few { length names.now.keys ≤ 16 }
    ensures read { Reads (λ v. (v.items, lines.new.place)) result (among (rows_of lines.old.text) (groups_at names.now.keys lines.old.place)) }
    ensures text { lines.new.text ≡ lines.old.text }
    ensures onward { OnOk result (Onward lines.old.place lines.new.place) }
    ensures moved { OnOk result (lines.new.place.number ≤ lines.old.place.number + 256) }
{
    let text = lines.text();
    match groups_part(alloc, names, lines) {
        Ok(groups) => Ok(groups),
        Err(stop) => Err(stop_of(text, stop)),
    }
}

/// Takes the pattern, which a report of version 2 has.
pub fn pattern_in(
    alloc: Global,
    lines: &mut Lines<'_>,
    patterned: bool,
    names: &IndexSet<Name>,
) -> Result<Option<Pattern>, ReportStop>
    requires room { HasMuchRoom lines.old.place }
    requires few { length names.now.keys ≤ 16 }
    ensures read { Reads (λ pattern. (pattern, lines.new.place)) result (among (rows_of lines.old.text) (pattern_at patterned names.now.keys lines.old.place)) }
    ensures limits { IfOk result (λ pattern. IfSome pattern (IsPattern (length names.now.keys))) }
    ensures text { lines.new.text ≡ lines.old.text }
    ensures onward { OnOk result (Onward lines.old.place lines.new.place) }
{
    let text = lines.text();
    match pattern_part(alloc, patterned, names, lines) {
        Ok(pattern) => Ok(pattern),
        Err(stop) => Err(stop_of(text, stop)),
    }
}
