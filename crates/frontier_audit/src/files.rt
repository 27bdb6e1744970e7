//! The files beside refuted and unknown candidates.

ghost use Rattle.std.specs.Prelude.{◌≡◌, All, AllPairs, IfOk, IsTrue};
ghost use Rattle.outer_ports.specs.{Port.{HasCause, Tells}, Shelf.FilesStay};
ghost use Rattle.candidate_order.specs.{Costs.Before, Frontiers.{IsUnknown, IsWithin}};
ghost use Rattle.frontier_audit.specs.{Denials.each, Auditing.{refutation_checked, unknown_checked}, Beside.{denial_of, AnswersBeside}, inner.Steps.{judged, refuted_checked}};

use crate::part_question::PartQuestion;
use crate::verdict::Reason;
use candidate_formula::file_name;
use candidate_order::{Candidate, Unknown};
use outer_ports::{FileKind, Part, Shelf};
use proof_audit::{AuditFault, FileVerdict, formula_file, log_file, refutation_file};
use std::alloc::Global;

/// The first refuted candidate whose files are not what they have to be.
pub(crate) fn refuted_denied<H: Shelf>(
    alloc: Global,
    shelf: &mut H,
    part: Part,
    asked: &PartQuestion<'_>,
    refuted: &[Candidate],
) -> Result<Option<(Reason, Candidate)>, AuditFault>
    requires within { All (IsWithin asked.now) refuted.now }
    requires ascending { AllPairs Before refuted.now }
    ensures told { Tells (H.tells shelf.old) (H.tells shelf.new) }
    ensures stay { IsTrue (H.tells shelf.new) → FilesStay (H.file shelf.old) (H.file shelf.new) }
    ensures beside { IfOk result (AnswersBeside (H.tells shelf.new) (H.file shelf.old) (λ files. each (refuted_checked part asked.now files) refuted.now)) }
    ensures cause { HasCause AuditFault.ShelfFailed (H.faults shelf.old) (H.faults shelf.new) result }
{
    for candidate in refuted {
        if let Some(denial) = refutation_denied(alloc, shelf, part, asked, *candidate)? {
            return Ok(Some(denial));
        }
    }
    Ok(None)
}

/// Whether the files of a refuted candidate are its formula and a proof of it. Of one that is cut
/// away no file has to stand there.
fn refutation_denied<H: Shelf>(
    alloc: Global,
    shelf: &mut H,
    part: Part,
    asked: &PartQuestion<'_>,
    candidate: Candidate,
) -> Result<Option<(Reason, Candidate)>, AuditFault>
    requires { IsWithin asked.now candidate }
    ensures told { Tells (H.tells shelf.old) (H.tells shelf.new) }
    ensures stay { IsTrue (H.tells shelf.new) → FilesStay (H.file shelf.old) (H.file shelf.new) }
    ensures beside { IfOk result (AnswersBeside (H.tells shelf.new) (H.file shelf.old) (λ files. refuted_checked part asked.now files candidate)) }
    ensures cause { HasCause AuditFault.ShelfFailed (H.faults shelf.old) (H.faults shelf.new) result }
{
    if asked.is_cut_away(candidate) {
        return Ok(None);
    }
    files_denied(alloc, shelf, part, asked, candidate)
}

/// Whether its formula and a proof of it stand beside a candidate.
fn files_denied<H: Shelf>(
    alloc: Global,
    shelf: &mut H,
    part: Part,
    asked: &PartQuestion<'_>,
    candidate: Candidate,
) -> Result<Option<(Reason, Candidate)>, AuditFault>
    requires { IsWithin asked.now candidate }
    ensures told { Tells (H.tells shelf.old) (H.tells shelf.new) }
    ensures stay { IsTrue (H.tells shelf.new) → FilesStay (H.file shelf.old) (H.file shelf.new) }
    ensures beside { IfOk result (AnswersBeside (H.tells shelf.new) (H.file shelf.old) (λ files. refutation_checked part asked.now files candidate)) }
    ensures cause { HasCause AuditFault.ShelfFailed (H.faults shelf.old) (H.faults shelf.new) result }
{
    let formula = asked.formula(alloc, candidate)?;
    let name = file_name(FileKind::Cnf, part, candidate);
    let text = formula_file(alloc, shelf, name, &formula)?;
    if let Some(denial) = denial_for(text, Reason::CnfDiffers, candidate) {
        return Ok(Some(denial));
    }
    let name = file_name(FileKind::Lrat, part, candidate);
    let proof = refutation_file(alloc, shelf, name, &formula)?;
    Ok(denial_for(proof, Reason::ProofRefused, candidate))
}

/// The first unknown candidate whose log is not what it has to be.
pub(crate) fn unknown_denied<H: Shelf>(
    alloc: Global,
    shelf: &mut H,
    part: Part,
    asked: &PartQuestion<'_>,
    unknown: &[Unknown],
) -> Result<Option<(Reason, Candidate)>, AuditFault>
    requires within { All (IsUnknown asked.now) unknown.now }
    requires ascending { AllPairs (λ u v. Before u.candidate v.candidate) unknown.now }
    ensures told { Tells (H.tells shelf.old) (H.tells shelf.new) }
    ensures stay { IsTrue (H.tells shelf.new) → FilesStay (H.file shelf.old) (H.file shelf.new) }
    ensures beside { IfOk result (AnswersBeside (H.tells shelf.new) (H.file shelf.old) (λ files. each (unknown_checked part asked.now files) unknown.now)) }
    ensures cause { HasCause AuditFault.ShelfFailed (H.faults shelf.old) (H.faults shelf.new) result }
{
    for given_up in unknown {
        if let Some(denial) = log_denied(alloc, shelf, part, asked, given_up)? {
            return Ok(Some(denial));
        }
    }
    Ok(None)
}

/// Whether the log of an unknown candidate is a spent log of its conflicts.
fn log_denied<H: Shelf>(
    alloc: Global,
    shelf: &mut H,
    part: Part,
    asked: &PartQuestion<'_>,
    unknown: &Unknown,
) -> Result<Option<(Reason, Candidate)>, AuditFault>
    requires { IsUnknown asked.now unknown.now }
    ensures told { Tells (H.tells shelf.old) (H.tells shelf.new) }
    ensures stay { IsTrue (H.tells shelf.new) → FilesStay (H.file shelf.old) (H.file shelf.new) }
    ensures beside { IfOk result (AnswersBeside (H.tells shelf.new) (H.file shelf.old) (λ files. unknown_checked part asked.now files unknown.now)) }
    ensures cause { HasCause AuditFault.ShelfFailed (H.faults shelf.old) (H.faults shelf.new) result }
{
    let candidate = unknown.candidate();
    let formula = asked.formula(alloc, candidate)?;
    let name = file_name(FileKind::Partial, part, candidate);
    let log = log_file(alloc, shelf, name, &formula, unknown.conflicts())?;
    Ok(denial_for(log, Reason::PartialRefused, candidate))
}

/// Why a candidate is denied for a file, where this is the reason for one that is not what it has
/// to be.
fn denial_for(
    verdict: FileVerdict,
    refused: Reason,
    candidate: Candidate,
) -> Option<(Reason, Candidate)>
    ensures { result ≡ denial_of (judged verdict refused candidate) }
{
    match verdict {
        FileVerdict::Missing => Some((Reason::ProofMissing, candidate)),
        FileVerdict::Refused => Some((refused, candidate)),
        FileVerdict::Stands => None,
    }
}
