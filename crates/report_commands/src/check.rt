//! The check of a report, and of the files beside it.

ghost use Rattle.std.specs.Prelude.{◌≡◌, ◌≢◌, ◌≤◌, length, IfOk, IsTrue, OnErr, Err};
ghost use Rattle.outer_ports.specs.{Port.{HasCause, Tells}, Shelf.FilesStay};
ghost use Rattle.run_rules.specs.{Answers.{IsAnswer, LeavesOff}, Commands.IsRefusal, Refusals.Refusal, Tasks.{audit_asked, limit}, Steps.audit_in};

use frontier_audit::audit;
use given_reports::{ReportText, report_of_text};
use outer_ports::Shelf;
use report_form::Report;
use run_rules::{Answer, Halt, search_refusal, verdict_answer};
use std::alloc::Global;

/// The audit of a report that was read, where its search could be done.
fn audit_answer<H: Shelf>(alloc: Global, report: &Report, shelf: &mut H) -> Result<Answer, Halt>
    ensures answers { IfOk result (λ a. IsAnswer (audit_in report.now) (record { told = H.tells shelf.new; before = H.file shelf.old; after = H.file shelf.new }) a.status a.text.items) }
    ensures stay { IsTrue (H.tells shelf.new) → FilesStay (H.file shelf.old) (H.file shelf.new) }
    ensures untouched { IfOk result (λ a. IsRefusal a.status → shelf.new ≡ shelf.old) }
    ensures last { result ≡ Err Halt.Shelf → (r : Refusal) → audit_in report.now ≡ Err r → ⊥ }
    ensures source { result ≢ Err Halt.Source }
    ensures told { Tells (H.tells shelf.old) (H.tells shelf.new) }
    ensures cause { HasCause Halt.Shelf (H.faults shelf.old) (H.faults shelf.new) result }
{
    match search_refusal(alloc, report.words(), report.topology())? {
        Some(answer) => Ok(answer),
        None => {
            let verdict = audit(alloc, report, shelf)?;
            Ok(verdict_answer(alloc, verdict)?)
        }
    }
}

/// The answer to a text that came whole: the verdict on the report that it spells and on the files
/// beside it, or the refusal of the text or of its search. The shelf is not looked at before the
/// last of these, and no file changes.
///
/// [`Halt::Shelf`] comes only where the shelf's count of faults rose, and [`Halt::Source`] never.
pub fn check_answer<H: Shelf>(alloc: Global, bytes: &[u8], shelf: &mut H) -> Result<Answer, Halt>
    requires short { length bytes.now ≤ limit }
    ensures answers { IfOk result (λ a. IsAnswer (audit_asked bytes.now) (record { told = H.tells shelf.new; before = H.file shelf.old; after = H.file shelf.new }) a.status a.text.items) }
    ensures leaves { IsTrue (H.tells shelf.new) → OnErr result (LeavesOff (audit_asked bytes.now) (H.file shelf.old) (H.file shelf.new)) }
    ensures untouched { IfOk result (λ a. IsRefusal a.status → shelf.new ≡ shelf.old) }
    ensures last { result ≡ Err Halt.Shelf → (r : Refusal) → audit_asked bytes.now ≡ Err r → ⊥ }
    ensures source { result ≢ Err Halt.Source }
    ensures told { Tells (H.tells shelf.old) (H.tells shelf.new) }
    ensures cause { HasCause Halt.Shelf (H.faults shelf.old) (H.faults shelf.new) result }
{
    match report_of_text(alloc, bytes)? {
        ReportText::Spelled(report) => audit_answer(alloc, &report, shelf),
        ReportText::Refused(answer) => Ok(answer),
    }
}
