//! The report that a text spells.

ghost use Rattle.std.specs.Prelude.{◌≢◌, ◌≤◌, length, IfOk};
ghost use Rattle.report_form.specs.Answer.{report_number};
ghost use Rattle.run_rules.specs.{Answers.Says, Refusals.{refusal_line, refused_at}, Tasks.{limit, read_report}};
ghost use Rattle.given_reports.specs.Read.{IsReadAs};

use frontier_report::read_report;
use report_form::{Report, ReportCode, ReportFault};
use run_rules::{Answer, OutOfMemory, Status, refusal};
use std::alloc::Global;

/// A report, or the answer that refuses its text.
#[derive(Drop)]
pub enum ReportText {
    Spelled(Report),
    Refused(Answer),
}

/// The refusal of a text that is no report.
fn bad_report(alloc: Global, fault: ReportFault) -> Result<Answer, OutOfMemory>
    ensures code { IfOk result (λ _. fault.code ≢ ReportCode.OutOfMemory) }
    ensures says { IfOk result (λ a. Says Status.BadReport (refusal_line (refused_at Status.BadReport (report_number fault.code) fault.line)) a.status a.text.items) }
{
    match fault.code {
        ReportCode::OutOfMemory => Err(OutOfMemory),
        code => refusal(
            alloc,
            Status::BadReport,
            u64::from(code.number()),
            u64::from(fault.line),
        ),
    }
}

/// The report that a text which came whole spells, or the answer that refuses it.
pub fn report_of_text(alloc: Global, bytes: &[u8]) -> Result<ReportText, OutOfMemory>
    requires { length bytes.now ≤ limit }
    ensures { IfOk result (IsReadAs (read_report bytes.now)) }
{
    match read_report(alloc, bytes) {
        Ok(report) => Ok(ReportText::Spelled(report)),
        Err(fault) => Ok(ReportText::Refused(bad_report(alloc, fault)?)),
    }
}
