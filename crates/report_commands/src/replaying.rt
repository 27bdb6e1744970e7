//! The replay of a point of a report.

ghost use Rattle.std.specs.Prelude.{◌≤◌, length, IfOk};
ghost use Rattle.run_rules.specs.{Answers.IsAnswerAlone, Tasks.{limit, replay_asked}, Steps.replay_in};

use crate::OutOfMemory;
use command_words::{PointWord, WordCode};
use given_reports::{ReportText, report_of_text};
use replay_text::replay_point;
use report_form::{Report, point_at};
use run_rules::{Answer, Status, refused_word};
use std::alloc::Global;

/// The replay of a point of this report, where it has a point of that number.
#[tactic(auto, using(crate::proofs::Pointed::no_replay))]
fn replay_in_report(
    alloc: Global,
    report: &Report,
    asked: PointWord,
    order: Option<u64>,
) -> Result<Answer, OutOfMemory>
    ensures { IfOk result (λ a. IsAnswerAlone (replay_in report.now asked order) a.status a.text.items) }
{
    let Some((part, point)) = point_at(report, asked.point) else {
        return refused_word(alloc, WordCode::UnknownPoint, asked.word);
    };
    let text = replay_point(alloc, report, asked.point, part, point, order)?;
    Ok(Answer {
        status: Status::Done,
        text,
    })
}

/// The answer to a text that came whole: the replay of a point of the report that it spells, with
/// an order in the order that this seed draws too; or the refusal of the text or of the point. The
/// only error is `OutOfMemory`.
pub fn replay_answer(
    alloc: Global,
    asked: PointWord,
    order: Option<u64>,
    bytes: &[u8],
) -> Result<Answer, OutOfMemory>
    requires short { length bytes.now ≤ limit }
    ensures { IfOk result (λ a. IsAnswerAlone (replay_asked asked order bytes.now) a.status a.text.items) }
{
    match report_of_text(alloc, bytes)? {
        ReportText::Spelled(report) => replay_in_report(alloc, &report, asked, order),
        ReportText::Refused(answer) => Ok(answer),
    }
}
