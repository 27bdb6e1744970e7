//! The audit of a report.

ghost use Rattle.std.specs.Prelude.{◌≡◌, ◌≤◌, IfOk, IsTrue, Ok};
ghost use Rattle.outer_ports.specs.{Port.{HasCause, Tells}, Shelf.FilesStay};
ghost use Rattle.report_form.specs.Reports.{question_of};
ghost use Rattle.round_encoding.specs.Candidates.{size_limit};
ghost use Rattle.candidate_formula.specs.Sizes.{size_of};
ghost use Rattle.frontier_audit.specs.{Auditing.audit_of, Beside.IsVerdictOver, Rights.{HasLogs, IsRight}};

use crate::joins::joins_denied;
use crate::parts::parts_denied;
use crate::verdict::{AuditVerdict, Reason};
use candidate_order::Candidate;
use outer_ports::{Part, Shelf};
use proof_audit::AuditFault;
use report_form::Report;
use std::alloc::Global;

/// Whether a report and the files beside it are right, or the first check that fails: for each part
/// the schedules of its points, the files of its refuted and then of its unknown candidates, each
/// candidate within the limits, and the marks; behind the parts the joined points. No file changes.
/// The formula of a candidate is held whole, and a file is read in pieces.
///
/// Whatever the shelf tells, there are files beside which the answer is the verdict on the report;
/// so a verified report is right. [`AuditFault::ShelfFailed`] comes only where the shelf's count of
/// faults rose in this call, or stands at its last value; each other answer leaves the count as it
/// was.
pub fn audit<H: Shelf>(
    alloc: Global,
    report: &Report,
    shelf: &mut H,
) -> Result<AuditVerdict, AuditFault>
    requires small { size_of (question_of report.now.words report.now.topology Part.Whole) ≤ size_limit }
    ensures told { Tells (H.tells shelf.old) (H.tells shelf.new) }
    ensures stay { IsTrue (H.tells shelf.new) → FilesStay (H.file shelf.old) (H.file shelf.new) }
    ensures exact { IsTrue (H.tells shelf.new) → IfOk result (λ verdict. verdict ≡ audit_of report.now (H.file shelf.old)) }
    ensures some { IfOk result (IsVerdictOver report.now) }
    ensures right { result ≡ Ok AuditVerdict.Verified → IsRight report.now }
    ensures logs { result ≡ Ok AuditVerdict.Verified → HasLogs report.now }
    ensures cause { HasCause AuditFault.ShelfFailed (H.faults shelf.old) (H.faults shelf.new) result }
{
    if let Some((part, denial)) = parts_denied(alloc, report, shelf)? {
        return Ok(denied(part, denial));
    }
    if let Some(denial) = joins_denied(alloc, report)? {
        return Ok(denied(Part::Joined, denial));
    }
    Ok(AuditVerdict::Verified)
}

/// What denies a report in this part.
fn denied(part: Part, denial: (Reason, Candidate)) -> AuditVerdict
    ensures { result ≡ AuditVerdict.Denied denial.0 part denial.1 }
{
    let (reason, candidate) = denial;
    AuditVerdict::Denied {
        reason,
        part,
        candidate,
    }
}
