//! The parts of a report.

ghost use Rattle.std.specs.Prelude.{◌≡◌, ◌≤◌, IfOk, IsTrue};
ghost use Rattle.outer_ports.specs.{Port.{HasCause, Tells}, Shelf.FilesStay};
ghost use Rattle.report_form.specs.Reports.{IsFrontier, IsReport, question_of};
ghost use Rattle.round_encoding.specs.Candidates.{size_limit};
ghost use Rattle.candidate_formula.specs.Sizes.{size_of};
ghost use Rattle.frontier_audit.specs.{Auditing.frontier_checked, Beside.{AnswersBeside, denial_of}, inner.Steps.{answers_checked, parts_checked}};

use crate::answered::{marks_denied, passed_over, unrefuted};
use crate::files::{refuted_denied, unknown_denied};
use crate::part_question::PartQuestion;
use crate::solutions::points_denied;
use crate::verdict::Reason;
use candidate_order::{Candidate, Frontier, OutOfMemory};
use outer_ports::{Part, Shelf};
use proof_audit::AuditFault;
use report_form::Report;
use std::alloc::Global;

/// The first part of a report that is not right, and the first thing in it.
pub(crate) fn parts_denied<H: Shelf>(
    alloc: Global,
    report: &Report,
    shelf: &mut H,
) -> Result<Option<(Part, (Reason, Candidate))>, AuditFault>
    requires small { size_of (question_of report.now.words report.now.topology Part.Whole) ≤ size_limit }
    ensures told { Tells (H.tells shelf.old) (H.tells shelf.new) }
    ensures stay { IsTrue (H.tells shelf.new) → FilesStay (H.file shelf.old) (H.file shelf.new) }
    ensures beside { IfOk result (AnswersBeside (H.tells shelf.new) (H.file shelf.old) (λ files. parts_checked report.now files report.now.frontiers)) }
    ensures valid { IsReport report.now }
    ensures cause { HasCause AuditFault.ShelfFailed (H.faults shelf.old) (H.faults shelf.new) result }
{
    for (part, frontier) in report.frontiers() {
        let asked = PartQuestion::of(alloc, report, *part)?;
        if let Some(denial) = part_denied(alloc, shelf, *part, &asked, frontier)? {
            return Ok(Some((*part, denial)));
        }
    }
    Ok(None)
}

/// The first thing in a part that is not right: of the points' schedules, the files, the
/// candidates, and the marks.
fn part_denied<H: Shelf>(
    alloc: Global,
    shelf: &mut H,
    part: Part,
    asked: &PartQuestion<'_>,
    frontier: &Frontier,
) -> Result<Option<(Reason, Candidate)>, AuditFault>
    requires { IsFrontier asked.now frontier.now }
    ensures told { Tells (H.tells shelf.old) (H.tells shelf.new) }
    ensures stay { IsTrue (H.tells shelf.new) → FilesStay (H.file shelf.old) (H.file shelf.new) }
    ensures beside { IfOk result (AnswersBeside (H.tells shelf.new) (H.file shelf.old) (λ files. frontier_checked part asked.now files frontier.now)) }
    ensures cause { HasCause AuditFault.ShelfFailed (H.faults shelf.old) (H.faults shelf.new) result }
{
    if let Some(denial) = points_denied(alloc, asked, frontier.points())? {
        return Ok(Some(denial));
    }
    if let Some(denial) = refuted_denied(alloc, shelf, part, asked, frontier.refuted())? {
        return Ok(Some(denial));
    }
    if let Some(denial) = unknown_denied(alloc, shelf, part, asked, frontier.unknown())? {
        return Ok(Some(denial));
    }
    Ok(answers_denied(alloc, asked, frontier)?)
}

/// The first candidate within the limits that is not answered, or else the first point whose mark
/// is wrong. The only error is `OutOfMemory`.
fn answers_denied(
    alloc: Global,
    asked: &PartQuestion<'_>,
    frontier: &Frontier,
) -> Result<Option<(Reason, Candidate)>, OutOfMemory>
    ensures { IfOk result (λ denied. denied ≡ denial_of (answers_checked asked.now frontier.now)) }
{
    let left = unrefuted(alloc, asked, frontier.refuted())?;
    if let Some(denial) = passed_over(frontier, &left) {
        return Ok(Some(denial));
    }
    Ok(marks_denied(frontier.points(), &left))
}
