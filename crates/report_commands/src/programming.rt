//! The programs that carry a point of a report out.

ghost use Rattle.std.specs.Prelude.{◌≤◌, length, IfOk};
ghost use Rattle.run_rules.specs.{Answers.IsAnswerAlone, Tasks.{limit, programs_asked}, Steps.programs_in};

use crate::OutOfMemory;
use command_words::{PointWord, WordCode};
use given_reports::{ReportText, report_of_text};
use replay_text::print_point_programs;
use report_form::{Report, point_at};
use run_rules::{Answer, Status, refused_word};
use std::alloc::Global;

/// The programs of a point of this report, where it has a point of that number.
#[tactic(auto, using(crate::proofs::Pointed::no_programs, crate::proofs::Pointed::programs_of))]
fn programs_in_report(
    alloc: Global,
    report: &Report,
    asked: PointWord,
) -> Result<Answer, OutOfMemory>
    ensures { IfOk result (λ a. IsAnswerAlone (programs_in report.now asked) a.status a.text.items) }
{
    let Some((part, point)) = point_at(report, asked.point) else {
        return refused_word(alloc, WordCode::UnknownPoint, asked.word);
    };
    let text = print_point_programs(alloc, report, asked.point, part, point)?;
    Ok(Answer {
        status: Status::Done,
        text,
    })
}

/// The answer to a text that came whole: the programs of a point of the report that it spells, or
/// the refusal of the text or of the point. The only error is `OutOfMemory`.
pub fn programs_answer(alloc: Global, asked: PointWord, bytes: &[u8]) -> Result<Answer, OutOfMemory>
    requires short { length bytes.now ≤ limit }
    ensures { IfOk result (λ a. IsAnswerAlone (programs_asked asked bytes.now) a.status a.text.items) }
{
    match report_of_text(alloc, bytes)? {
        ReportText::Spelled(report) => programs_in_report(alloc, &report, asked),
        ReportText::Refused(answer) => Ok(answer),
    }
}
