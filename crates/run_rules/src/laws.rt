//! What follows of what is due, and of an answer to it.

ghost use Rattle.std.specs.Prelude.{◌≡◌, ◌↔◌, ℕ, List, [], ◌∷◌, Ok, Err, codes};
ghost use Rattle.text_lines.specs.Text.{line};
ghost use Rattle.command_words.specs.declared.command.Command.{Command};
ghost use Rattle.outer_ports.specs.Files.{Files};
ghost use Rattle.report_form.specs.Reports.{ReportValue, IsReport};
ghost use Rattle.run_rules.specs.{Answers.{FilesValue, IsAnswer, Says}, Audits.{IsAudited, audited}, Refusals.{Refusal, refusal_line}, Commands.IsOneOf, Ends.answers_of, Tasks.task_of, Tries.Tries, Claims.IsVerdict, Degraded.IsNewSearch};
ghost use Rattle.run_rules.specs.Steps.{verdict_status, verdict_text};
ghost use Rattle.frontier_audit.specs.{declared.verdict.AuditVerdict.AuditVerdict, Auditing.audit_of, Rights.{HasLogs, IsRight}, Shelves.ShelfRight};

use crate::status::Status;

/// An answer to what a command asks for ends as is listed for the command: it is done, or refused with
/// one of its refusals.
#[tactic(auto, using(crate::proofs::Ends::command_ends))]
pub fn answers_end_as_listed()
    ensures { (c : Command) (bytes : List ℕ) (files : FilesValue) (status : Status) (text : List ℕ) → IsAnswer (task_of c bytes) files status text → IsOneOf (answers_of c) status }
{}

/// The verdict that the claims give is the one of the checks that an audit does, and the only one.
#[tactic(auto, using(crate::proofs::OneVerdict::verdict_exactly, crate::proofs::OneVerdict::one_verdict))]
pub fn claims_and_checks_agree()
    ensures checks { (r : ReportValue) (files : Files) (v : AuditVerdict) → IsReport r → IsVerdict r files v ↔ (audit_of r files ≡ v) }
    ensures one { (r : ReportValue) (files : Files) (v w : AuditVerdict) → IsVerdict r files v → IsVerdict r files w → v ≡ w }
{}

/// The answer to a fault of a report is told by the checks too: what they deny is refused so, and
/// what they verify is right, and is searched anew.
pub fn faults_are_answered_by_the_checks()
    ensures denied { (r : ReportValue) (group width : ℕ) (files : FilesValue) (status : Status) (text : List ℕ) (answer : IsAudited r (IsNewSearch r group width) files status text) (why : Refusal) → audited r answer.over ≡ Err why → Says why.status (refusal_line why) status text }
    ensures done { (r : ReportValue) (group width : ℕ) (files : FilesValue) (status : Status) (text : List ℕ) (answer : IsAudited r (IsNewSearch r group width) files status text) → audited r answer.over ≡ Ok tt → IsRight r × IsNewSearch r group width status text }
{}

/// The answer to an audit has the status and the text of its verdict, and where it is done the
/// report is right, the files prove it, and there is a spent log of each candidate that it calls
/// unknown.
pub fn audits_say_their_verdict()
    ensures says { (r : ReportValue) (files : FilesValue) (status : Status) (text : List ℕ) (answer : IsAudited r (Says Status.Done (line (codes "verified" ∷ []))) files status text) → Says (verdict_status (audited r answer.over)) (verdict_text (audited r answer.over)) status text }
    ensures right { (r : ReportValue) (files : FilesValue) (status : Status) (text : List ℕ) (answer : IsAudited r (Says Status.Done (line (codes "verified" ∷ []))) files status text) → status ≡ Status.Done → IsRight r }
    ensures shelf { (r : ReportValue) (files : FilesValue) (status : Status) (text : List ℕ) (answer : IsAudited r (Says Status.Done (line (codes "verified" ∷ []))) files status text) → status ≡ Status.Done → ShelfRight r answer.over }
    ensures logs { (r : ReportValue) (files : FilesValue) (status : Status) (text : List ℕ) (answer : IsAudited r (Says Status.Done (line (codes "verified" ∷ []))) files status text) → status ≡ Status.Done → HasLogs r }
{}

/// The files of a trial prove its report.
pub fn trials_are_proved()
    ensures { (n : ℕ) (text : List ℕ) (trial : Tries n text) → ShelfRight trial.report trial.own_files }
{}
