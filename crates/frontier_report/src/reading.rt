//! The reader of reports.

ghost use Rattle.std.specs.Prelude.{◌≡◌, ◌≢◌, ◌+◌, ◌<◌, ◌≤◌, ◌^◌, Ok, length, IfOk, IfErr};
ghost use Rattle.text_lines.specs.Text.{rows_of};
ghost use Rattle.report_form.specs.{Reports.{ReportValue, IsReport}, Spelling.report_text, Reading.{body_of, report_of}, Answer.Answers, First.FailsFirstAt};
ghost use Rattle.report_lines.specs.Room.{HasRoom};
ghost use Rattle.frontier_report.specs.inner.{Bodies.parts_value, Gives.Reads};

use crate::frontiers::{Body, body_part};
use crate::report_stop::ReportStop;
use crate::topology::{groups_in, header_at, names_at, pattern_in, root_at};
use collective_spec::Collective;
use indexmap::IndexSet;
use report_form::{Report, ReportCode, ReportFault, Words};
use report_lines::{asked_part, version_part};
use std::alloc::Global;
use text_lines::Lines;
use topology_text::{Name, NamedTopology};

/// What was read of a report.
#[derive(Drop)]
struct Parts {
    words: Words,
    topology: NamedTopology,
    body: Body,
}

/// What stands behind the topology, with the words and the topology.
fn parts_behind(
    alloc: Global,
    lines: &mut Lines<'_>,
    names: &IndexSet<Name>,
    words: Words,
    topology: NamedTopology,
) -> Result<Parts, ReportStop>
    requires room { HasRoom lines.old.place }
    requires few { length names.now.keys ≤ 16 }
    requires names { names.now.keys ≡ topology.names }
    requires nodes { length names.now.keys ≡ topology.topology.nodes }
    ensures { Reads parts_value result (body_of words topology lines.old.place) }
{
    let body = body_part(alloc, lines, names, words, &topology)?;
    Ok(Parts {
        words,
        topology,
        body,
    })
}

#[tactic(auto, unfolding(report_form::specs::Reading::report_of))]
fn parts_of(alloc: Global, text: &[u8]) -> Result<Parts, ReportStop>
    requires { length (rows_of text.now) + 2 < 2 ^ 32 }
    ensures { Reads parts_value result (report_of text.now) }
{
    let mut lines = Lines::new(text);
    let patterned = version_part(&mut lines)?;
    let asked = asked_part(&mut lines, patterned)?;
    header_at(&mut lines, patterned)?;
    let number = lines.number();
    let names = names_at(alloc, &mut lines)?;
    let root = root_at(&names, asked.root, number)?;
    let groups = groups_in(alloc, &mut lines, &names)?;
    let pattern = pattern_in(alloc, &mut lines, patterned, &names)?;
    let topology = NamedTopology::from_parts(alloc, &names, groups, pattern)?;
    let collective = Collective {
        kind: asked.kind,
        root,
    };
    let words = Words::new(collective, asked.limits);
    parts_behind(alloc, &mut lines, &names, words, topology)
}

fn answered(alloc: Global, bytes: &[u8]) -> Result<Report, ReportFault>
    requires { length (rows_of bytes.now) + 2 < 2 ^ 32 }
    ensures { Answers result (report_of bytes.now) }
{
    match parts_of(alloc, bytes) {
        Ok(parts) => Ok(Report::new(
            parts.words,
            parts.topology,
            parts.body.frontiers,
            parts.body.joined,
        )),
        Err(ReportStop::Memory) => Err(ReportFault {
            code: ReportCode::OutOfMemory,
            line: 0,
        }),
        Err(ReportStop::Refused(fault)) => Err(fault),
    }
}

/// The report that the text spells, all of the text, which has fewer than 4,294,967,294 lines, so
/// that they have numbers. A fault names the first check that fails, and its line.
#[tactic(auto, using(crate::proofs::ReaderAnswers::is_found, crate::proofs::ReaderAnswers::only_it, crate::proofs::ReaderAnswers::blames))]
pub fn read_report(alloc: Global, bytes: &[u8]) -> Result<Report, ReportFault>
    requires { length (rows_of bytes.now) + 2 < 2 ^ 32 }
    // What is read is spelled so.
    ensures found { IfOk result (λ r. IsReport r × (bytes.now ≡ report_text r)) }
    // What is spelled so is read, unless memory runs out.
    ensures only { (r : ReportValue) → IsReport r → bytes.now ≡ report_text r → Answers result (Ok r) }
    // Which check fails first, and on which line.
    ensures exact { Answers result (report_of bytes.now) }
    // Up to that line the text could still be a report's, and with it no longer.
    ensures first { IfErr result (λ fault. fault.code ≢ ReportCode.OutOfMemory → FailsFirstAt bytes.now fault.line) }
{
    answered(alloc, bytes)
}
