//! Audited reports whose links have a fault, and the answers to them.

ghost use Rattle.std.specs.Prelude.{◌≡◌, ◌≢◌, ◌≤◌, length, None, IfOk, IsTrue, OnErr, Ok, Err};
ghost use Rattle.outer_ports.specs.{Port.{HasCause, Tells}, Shelf.FilesStay, declared.part.Part.TheVariants.Whole};
ghost use Rattle.report_form.specs.Reports.{IsReport, question_of};
ghost use Rattle.round_encoding.specs.Candidates.{size_limit};
ghost use Rattle.candidate_formula.specs.Sizes.{size_of};
ghost use Rattle.frontier_audit.specs.Rights.{IsRight};
ghost use Rattle.run_rules.specs.{Answers.{IsAnswer, LeavesOff}, Commands.IsRefusal, Audits.IsAudited, Degraded.IsNewSearch, Read.IsSearchableAs, Refusals.Refusal, Said.FilesValue, Tasks.{degrade_asked, limit}, Steps.degrade_in};
ghost use Rattle.degraded_search.specs.Faults.{CanFail};
ghost use Rattle.report_commands.specs.inner.{Faults.refused_first, Judged.IsJudged};

use crate::OutOfMemory;
use crate::fault::fault_refusal;
use degraded_search::{LinkFault, search_anew};
use frontier_audit::{AuditVerdict, audit};
use given_reports::{ReportText, report_of_text};
use outer_ports::Shelf;
use report_form::Report;
use run_rules::{Answer, Halt, search_refusal, verdict_answer};
use std::alloc::Global;

/// The verdict on a report, by an audit over the shelf, of which no file changes.
fn judged<H: Shelf>(alloc: Global, report: &Report, shelf: &mut H) -> Result<AuditVerdict, Halt>
    requires valid { IsReport report.now }
    requires small { size_of (question_of report.now.words report.now.topology Whole) ≤ size_limit }
    ensures judged { IfOk result (λ verdict. IsJudged report.now verdict (record { told = H.tells shelf.new; before = H.file shelf.old; after = H.file shelf.new })) }
    ensures right { result ≡ Ok AuditVerdict.Verified → IsRight report.now }
    ensures stay { IsTrue (H.tells shelf.new) → FilesStay (H.file shelf.old) (H.file shelf.new) }
    ensures source { result ≢ Err Halt.Source }
    ensures told { Tells (H.tells shelf.old) (H.tells shelf.new) }
    ensures cause { HasCause Halt.Shelf (H.faults shelf.old) (H.faults shelf.new) result }
{
    Ok(audit(alloc, report, shelf)?)
}

/// The answer to a fault of a report behind the verdict on it: its search done anew where it is
/// verified, and else the denial. The only error is `OutOfMemory`.
fn judged_answer(
    alloc: Global,
    report: &Report,
    fault: LinkFault,
    verdict: AuditVerdict,
) -> Result<Answer, OutOfMemory>
    requires fault { CanFail report.now fault.group fault.width }
    requires small { size_of (question_of report.now.words report.now.topology Whole) ≤ size_limit }
    requires right { verdict ≡ AuditVerdict.Verified → IsRight report.now }
    ensures answers { (files : FilesValue) → IsJudged report.now verdict files → IfOk result (λ a. IsAudited report.now (IsNewSearch report.now fault.group fault.width) files a.status a.text.items) }
    ensures accepted { IfOk result (λ a. ¬ IsRefusal a.status) }
{
    match verdict {
        AuditVerdict::Verified => search_anew(alloc, report, fault),
        denied => verdict_answer(alloc, denied),
    }
}

/// The answer to a fault of a report that takes it: the report is audited first, and searched anew
/// where it is verified.
fn audited_answer<H: Shelf>(
    alloc: Global,
    report: &Report,
    fault: LinkFault,
    shelf: &mut H,
) -> Result<Answer, Halt>
    requires valid { IsReport report.now }
    requires fault { CanFail report.now fault.group fault.width }
    requires small { size_of (question_of report.now.words report.now.topology Whole) ≤ size_limit }
    ensures answers { IfOk result (λ a. IsAudited report.now (IsNewSearch report.now fault.group fault.width) (record { told = H.tells shelf.new; before = H.file shelf.old; after = H.file shelf.new }) a.status a.text.items) }
    ensures stay { IsTrue (H.tells shelf.new) → FilesStay (H.file shelf.old) (H.file shelf.new) }
    ensures accepted { IfOk result (λ a. ¬ IsRefusal a.status) }
    ensures source { result ≢ Err Halt.Source }
    ensures told { Tells (H.tells shelf.old) (H.tells shelf.new) }
    ensures cause { HasCause Halt.Shelf (H.faults shelf.old) (H.faults shelf.new) result }
{
    let verdict = judged(alloc, report, shelf)?;
    Ok(judged_answer(alloc, report, fault, verdict)?)
}

/// The answer that refuses a fault of a report, or the search of the report. `None` where both can
/// be.
fn refusal_of(
    alloc: Global,
    report: &Report,
    fault: LinkFault,
) -> Result<Option<Answer>, OutOfMemory>
    ensures refuses { IfOk result (IsSearchableAs (refused_first report.now fault.group fault.group_word fault.width fault.width_word)) }
    ensures valid { IfOk result (λ refused. refused ≡ None → IsReport report.now) }
    ensures takes { IfOk result (λ refused. refused ≡ None → CanFail report.now fault.group fault.width) }
    ensures small { IfOk result (λ refused. refused ≡ None → size_of (question_of report.now.words report.now.topology Whole) ≤ size_limit) }
{
    match fault_refusal(alloc, report, fault)? {
        Some(answer) => Ok(Some(answer)),
        None => search_refusal(alloc, report.words(), report.topology()),
    }
}

/// The answer to a fault of a report that was read: the refusal of the fault or of the search, or
/// that of the audit.
fn fault_answer<H: Shelf>(
    alloc: Global,
    report: &Report,
    fault: LinkFault,
    shelf: &mut H,
) -> Result<Answer, Halt>
    ensures answers { IfOk result (λ a. IsAnswer (degrade_in report.now fault.group fault.group_word fault.width fault.width_word) (record { told = H.tells shelf.new; before = H.file shelf.old; after = H.file shelf.new }) a.status a.text.items) }
    ensures stay { IsTrue (H.tells shelf.new) → FilesStay (H.file shelf.old) (H.file shelf.new) }
    ensures untouched { IfOk result (λ a. IsRefusal a.status → shelf.new ≡ shelf.old) }
    ensures last { result ≡ Err Halt.Shelf → (r : Refusal) → degrade_in report.now fault.group fault.group_word fault.width fault.width_word ≡ Err r → ⊥ }
    ensures source { result ≢ Err Halt.Source }
    ensures told { Tells (H.tells shelf.old) (H.tells shelf.new) }
    ensures cause { HasCause Halt.Shelf (H.faults shelf.old) (H.faults shelf.new) result }
{
    match refusal_of(alloc, report, fault)? {
        Some(answer) => Ok(answer),
        None => audited_answer(alloc, report, fault, shelf),
    }
}

/// The answer to a fault of the links of a report whose text came whole. The report is audited
/// first, over the shelf; its search is then done anew over the links that are left, as its words
/// say, where what the report refutes stays refuted. Before that the text, the fault or the size
/// may be refused, and the shelf is not looked at. No file of the shelf changes, and no proof of
/// the new search is kept.
///
/// [`Halt::Shelf`] comes only where the shelf's count of faults rose, and [`Halt::Source`] never.
pub fn degrade_answer<H: Shelf>(
    alloc: Global,
    fault: LinkFault,
    bytes: &[u8],
    shelf: &mut H,
) -> Result<Answer, Halt>
    requires short { length bytes.now ≤ limit }
    ensures answers { IfOk result (λ a. IsAnswer (degrade_asked fault.group fault.group_word fault.width fault.width_word bytes.now) (record { told = H.tells shelf.new; before = H.file shelf.old; after = H.file shelf.new }) a.status a.text.items) }
    ensures leaves { IsTrue (H.tells shelf.new) → OnErr result (LeavesOff (degrade_asked fault.group fault.group_word fault.width fault.width_word bytes.now) (H.file shelf.old) (H.file shelf.new)) }
    ensures untouched { IfOk result (λ a. IsRefusal a.status → shelf.new ≡ shelf.old) }
    ensures last { result ≡ Err Halt.Shelf → (r : Refusal) → degrade_asked fault.group fault.group_word fault.width fault.width_word bytes.now ≡ Err r → ⊥ }
    ensures source { result ≢ Err Halt.Source }
    ensures told { Tells (H.tells shelf.old) (H.tells shelf.new) }
    ensures cause { HasCause Halt.Shelf (H.faults shelf.old) (H.faults shelf.new) result }
{
    match report_of_text(alloc, bytes)? {
        ReportText::Spelled(report) => fault_answer(alloc, &report, fault, shelf),
        ReportText::Refused(answer) => Ok(answer),
    }
}
