//! A trial.

ghost use Rattle.std.specs.Prelude.{◌≡◌, ◌<◌, ◌≤◌, IfOk, Ok};
ghost use Rattle.round_encoding.specs.Candidates.{size_limit};
ghost use Rattle.candidate_formula.specs.Sizes.{size_of};
ghost use Rattle.report_form.specs.Reports.{IsReport, question_of};
ghost use Rattle.frontier_audit.specs.{Rights.{IsRight, IsSearched}, Shelves.ShelfRight};
ghost use Rattle.run_rules.specs.{Answers.IsAnswerAlone, Tasks.Try, Trials.{trial_text, trial_words}, Tries.Tries};
ghost use Rattle.trial_command.specs.Counts.{trial_topology};

use crate::OutOfMemory;
use crate::asked::{trial_topology, trial_words};
use crate::counts::counts_of;
use crate::replays::replay_points;
use crate::summary::print_trial;
use frontier_audit::{AuditFault, AuditVerdict, audit};
use frontier_report::read_report;
use outer_ports::{Part, Shelf, SureShelf};
use report_form::{Report, ReportCode};
use report_printing::print_report;
use report_search::{EngineFault, search_report};
use run_rules::{Answer, Status};
use std::alloc::Global;

/// The greatest length of a text that is read.
const LONGEST: usize = 2_147_483_647;

/// The report of the search that the number stands for, whose files stand on the shelf then. The
/// only error is `OutOfMemory`.
fn search_trial(alloc: Global, n: u16, shelf: &mut SureShelf) -> Result<Report, OutOfMemory>
    ensures words { IfOk result (λ r. r.words ≡ trial_words n) }
    ensures topology { IfOk result (λ r. r.topology ≡ trial_topology n) }
    ensures right { IfOk result IsRight }
    ensures searched { IfOk result IsSearched }
    ensures shelf { IfOk result (λ r. ShelfRight r (⟦<SureShelf as Shelf>⟧.file shelf.new)) }
{
    let topology = trial_topology(alloc, n)?;
    match search_report(alloc, trial_words(n), topology, true, false, shelf) {
        Ok(report) => Ok(report),
        Err(EngineFault::OutOfMemory) => Err(OutOfMemory),
        Err(EngineFault::ShelfFailed) => unreachable!(),
    }
}

/// The report that is read from this report's text. The only error is `OutOfMemory`, which a text
/// of 2 GiB or more counts as.
fn read_back(alloc: Global, report: &Report) -> Result<Report, OutOfMemory>
    requires { IsReport report.now }
    ensures { IfOk result (λ r. r ≡ report.now) }
{
    let text = print_report(alloc, report)?;
    if text.len() > LONGEST {
        return Err(OutOfMemory);
    }
    match read_report(alloc, &text) {
        Ok(report) => Ok(report),
        Err(fault) => match fault.code {
            ReportCode::OutOfMemory => Err(OutOfMemory),
            _ => unreachable!(),
        },
    }
}

/// Audits a right report beside its files: there is nothing to deny. The only error is
/// `OutOfMemory`.
fn verify(alloc: Global, report: &Report, shelf: &mut SureShelf) -> Result<(), OutOfMemory>
    requires small { size_of (question_of report.now.words report.now.topology Part.Whole) ≤ size_limit }
    requires right { IsRight report.now }
    requires shelf { ShelfRight report.now (⟦<SureShelf as Shelf>⟧.file shelf.old) }
{
    match audit(alloc, report, shelf) {
        Ok(AuditVerdict::Verified) => Ok(()),
        Ok(AuditVerdict::Denied { .. }) => unreachable!(),
        Err(AuditFault::OutOfMemory) => Err(OutOfMemory),
        Err(AuditFault::ShelfFailed) => unreachable!(),
    }
}

/// The summary of a trial whose report this is. The only error is `OutOfMemory`.
fn summed_up(alloc: Global, n: u16, report: &Report) -> Result<Vec<u8>, OutOfMemory>
    ensures { IfOk result (λ text. text.items ≡ trial_text n report.now) }
{
    let counts = counts_of(report)?;
    let replays = replay_points(alloc, report)?;
    print_trial(alloc, n, report, counts, replays)
}

/// The summary of a trial that found this report and left these files: the report is printed, read
/// again and audited. The only error is `OutOfMemory`.
fn tried_out(
    alloc: Global,
    n: u16,
    found: &Report,
    shelf: &mut SureShelf,
) -> Result<Vec<u8>, OutOfMemory>
    requires small { size_of (question_of found.now.words found.now.topology Part.Whole) ≤ size_limit }
    requires right { IsRight found.now }
    requires shelf { ShelfRight found.now (⟦<SureShelf as Shelf>⟧.file shelf.old) }
    ensures { IfOk result (λ text. text.items ≡ trial_text n found.now) }
{
    let report = read_back(alloc, found)?;
    verify(alloc, &report, shelf)?;
    summed_up(alloc, n, &report)
}

/// The summary of the trial that the number stands for. The only error is `OutOfMemory`.
fn try_out(alloc: Global, n: u16) -> Result<Vec<u8>, OutOfMemory>
    requires { n < 4096 }
    ensures { IfOk result (λ text. Tries n text.items) }
{
    let mut shelf = SureShelf::new(alloc)?;
    let found = search_trial(alloc, n, &mut shelf)?;
    tried_out(alloc, n, &found, &mut shelf)
}

/// The answer to a trial, whose number is at most 4,095: its search is done, with files in memory,
/// its report is printed, read again and audited beside these files, and each of its points is
/// replayed in four orders. The answer is the summary; the only error is `OutOfMemory`, and no
/// trial is denied.
pub fn trial_answer(alloc: Global, n: u16) -> Result<Answer, OutOfMemory>
    requires { n ≤ 4095 }
    ensures { IfOk result (λ a. IsAnswerAlone (Ok (Try n)) a.status a.text.items) }
{
    let text = try_out(alloc, n)?;
    Ok(Answer {
        status: Status::Done,
        text,
    })
}
