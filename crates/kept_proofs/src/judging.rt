//! What the files of a candidate say of it before it is tried.

ghost use Rattle.std.specs.Prelude.{◌≡◌, true, false, Ok, IfOk, IsTrue};
ghost use Rattle.outer_ports.specs.{Port.{HasCause, Tells}, Shelf.FilesStay};
ghost use Rattle.candidate_order.specs.Frontiers.{IsSolvable, IsWithin};
ghost use Rattle.candidate_formula.specs.{Files.{HasRefutation, RefutedFiles}, Formulas.formula_for};
ghost use Rattle.candidate_solver.specs.{Questions.asked, Trying.BeginsOwn};
ghost use Rattle.proof_audit.specs.Kept.{BothStay};
ghost use Rattle.kept_proofs.specs.inner.Judged.{stands};

use candidate_formula::{encode_candidate, file_name};
use candidate_order::Candidate;
use candidate_solver::Question;
use cnf_formula::{Formula, OutOfMemory};
use engine_rules::EngineFault;
use outer_ports::{FileKind, Part, Shelf};
use proof_audit::{AuditFault, FileVerdict, formula_file, refutation_file};
use std::alloc::Global;

/// Whether a file that was judged stands, or the fault of the judgement as that of an engine.
fn stands(verdict: Result<FileVerdict, AuditFault>) -> Result<bool, EngineFault>
    ensures { result ≡ stands verdict }
{
    match verdict {
        Ok(FileVerdict::Stands) => Ok(true),
        Ok(FileVerdict::Missing | FileVerdict::Refused) => Ok(false),
        Err(AuditFault::ShelfFailed) => Err(EngineFault::ShelfFailed),
        Err(AuditFault::OutOfMemory) => Err(EngineFault::OutOfMemory),
    }
}

/// The formula of a candidate. The only error is `OutOfMemory`.
fn formula_of(
    alloc: Global,
    question: &Question,
    candidate: Candidate,
) -> Result<Formula, OutOfMemory>
    requires { IsWithin (asked question.now) candidate }
    ensures { IfOk result (λ formula. formula ≡ formula_for (asked question.now) candidate) }
{
    let pruning = question.limits.pruning();
    let encoded = encode_candidate(
        alloc,
        &question.topology,
        &question.spec,
        pruning,
        candidate,
    )?;
    Ok(encoded.into_formula())
}

/// Whether the files of a candidate refute it: one is the text of its formula, and another refutes
/// that formula. No file changes.
fn is_refuted<H: Shelf>(
    alloc: Global,
    question: &Question,
    part: Part,
    store: &mut H,
    candidate: Candidate,
) -> Result<bool, EngineFault>
    requires { IsWithin (asked question.now) candidate }
    ensures told { Tells (H.tells store.old) (H.tells store.new) }
    ensures stay { IsTrue (H.tells store.new) → FilesStay (H.file store.old) (H.file store.new) }
    ensures has { IsTrue (H.tells store.new) → result ≡ Ok true → HasRefutation part (asked question.now) (H.file store.old) candidate }
    ensures lacks { IsTrue (H.tells store.new) → result ≡ Ok false → HasRefutation part (asked question.now) (H.file store.old) candidate → ⊥ }
    ensures right { result ≡ Ok true → IsSolvable (asked question.now) candidate → ⊥ }
    ensures cause { HasCause EngineFault.ShelfFailed (H.faults store.old) (H.faults store.new) result }
{
    let formula = formula_of(alloc, question, candidate)?;
    let name = file_name(FileKind::Cnf, part, candidate);
    let text = stands(formula_file(alloc, store, name, &formula))?;
    if !text {
        return Ok(false);
    }
    let name = file_name(FileKind::Lrat, part, candidate);
    stands(refutation_file(alloc, store, name, &formula))
}

/// Takes up what refutes a candidate on the shelf: where its files do, its log is emptied, and no
/// other file changes; else none does. Its formula and its proof stay whatever is answered.
pub(crate) fn take_up<H: Shelf>(
    alloc: Global,
    question: &Question,
    part: Part,
    store: &mut H,
    candidate: Candidate,
) -> Result<bool, EngineFault>
    requires { IsWithin (asked question.now) candidate }
    ensures told { Tells (H.tells store.old) (H.tells store.new) }
    ensures begins { IsTrue (H.tells store.new) → BeginsOwn (formula_for (asked question.now) candidate) part candidate (H.file store.old) (H.file store.new) }
    ensures taken { IsTrue (H.tells store.new) → result ≡ Ok true → RefutedFiles part (asked question.now) (H.file store.new) candidate }
    ensures stay { IsTrue (H.tells store.new) → BothStay part candidate (H.file store.old) (H.file store.new) }
    ensures left { IsTrue (H.tells store.new) → result ≡ Ok false → FilesStay (H.file store.old) (H.file store.new) }
    ensures lacks { IsTrue (H.tells store.new) → result ≡ Ok false → HasRefutation part (asked question.now) (H.file store.old) candidate → ⊥ }
    ensures right { result ≡ Ok true → IsSolvable (asked question.now) candidate → ⊥ }
    ensures cause { HasCause EngineFault.ShelfFailed (H.faults store.old) (H.faults store.new) result }
{
    let refuted = is_refuted(alloc, question, part, store, candidate)?;
    if !refuted {
        return Ok(false);
    }
    store.begin(file_name(FileKind::Partial, part, candidate))?;
    Ok(true)
}
