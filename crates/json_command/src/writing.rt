//! Topologies, reports and programs that are written as JSON.

ghost use Rattle.std.specs.Prelude.{◌≤◌, length, None, Some, IfOk};
ghost use Rattle.command_words.specs.{declared.command.Command.TheVariants.Json, Commands.IsProper};
ghost use Rattle.run_rules.specs.{Answers.IsAnswerAlone, Tasks.{json_asked, json_programs_in, limit}};

use crate::OutOfMemory;
use command_words::{JsonWhat, PointWord, WordCode};
use given_reports::{ReportText, report_of_text};
use json_exchange::{programs_json, report_json, topology_json};
use replay_text::point_programs;
use report_form::{Report, point_at};
use run_rules::{Answer, Status, bad_topology, refused_word};
use std::alloc::Global;
use topology_text::read_topology;

/// The topology that the text spells, as JSON; or the refusal of the text.
fn topology_written(alloc: Global, bytes: &[u8]) -> Result<Answer, OutOfMemory>
    ensures { IfOk result (λ a. IsAnswerAlone (json_asked JsonWhat.Topology None bytes.now) a.status a.text.items) }
{
    match read_topology(alloc, bytes) {
        Ok(topology) => {
            let text = topology_json(alloc, &topology)?;
            Ok(Answer {
                status: Status::Done,
                text,
            })
        }
        Err(fault) => bad_topology(alloc, fault),
    }
}

/// The report that the text spells, as JSON; or the refusal of the text.
fn report_written(alloc: Global, bytes: &[u8]) -> Result<Answer, OutOfMemory>
    requires short { length bytes.now ≤ limit }
    ensures { IfOk result (λ a. IsAnswerAlone (json_asked JsonWhat.Report None bytes.now) a.status a.text.items) }
{
    match report_of_text(alloc, bytes)? {
        ReportText::Spelled(report) => {
            let text = report_json(alloc, &report)?;
            Ok(Answer {
                status: Status::Done,
                text,
            })
        }
        ReportText::Refused(answer) => Ok(answer),
    }
}

/// The programs of a point of this report as JSON, where it has a point of that number.
#[tactic(auto, using(crate::proofs::Exchanged::no_programs))]
fn programs_in_report(
    alloc: Global,
    report: &Report,
    asked: PointWord,
) -> Result<Answer, OutOfMemory>
    ensures { IfOk result (λ a. IsAnswerAlone (json_programs_in report.now (Some asked)) a.status a.text.items) }
{
    let Some((part, point)) = point_at(report, asked.point) else {
        return refused_word(alloc, WordCode::UnknownPoint, asked.word);
    };
    let programs = point_programs(alloc, report, part, point)?;
    let text = programs_json(alloc, asked.point, &programs, report.topology().names())?;
    Ok(Answer {
        status: Status::Done,
        text,
    })
}

/// The programs of a point of the report that the text spells, as JSON; or the refusal of the text
/// or of the point.
fn programs_written(alloc: Global, asked: PointWord, bytes: &[u8]) -> Result<Answer, OutOfMemory>
    requires short { length bytes.now ≤ limit }
    ensures { IfOk result (λ a. IsAnswerAlone (json_asked JsonWhat.Programs (Some asked) bytes.now) a.status a.text.items) }
{
    match report_of_text(alloc, bytes)? {
        ReportText::Spelled(report) => programs_in_report(alloc, &report, asked),
        ReportText::Refused(answer) => Ok(answer),
    }
}

/// The answer to a text that came whole: what is asked for of it, as JSON without spaces, the keys
/// of each object ascending, in a line; or the refusal of the text or of the point. A point is
/// asked for with programs, and only with them. The only error is `OutOfMemory`.
pub fn json_answer(
    alloc: Global,
    what: JsonWhat,
    point: Option<PointWord>,
    bytes: &[u8],
) -> Result<Answer, OutOfMemory>
    requires short { length bytes.now ≤ limit }
    requires proper { IsProper (Json what point) }
    ensures { IfOk result (λ a. IsAnswerAlone (json_asked what point bytes.now) a.status a.text.items) }
{
    match what {
        JsonWhat::Topology => topology_written(alloc, bytes),
        JsonWhat::Report => report_written(alloc, bytes),
        JsonWhat::Programs => programs_written(alloc, point.unwrap(), bytes),
    }
}
