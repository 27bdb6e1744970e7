//! The files beside a report.

ghost use Rattle.std.specs.Prelude.{◌≡◌, bytes_eq, Ok, IfOk, IsTrue};
ghost use Rattle.outer_ports.specs.{Port.{HasCause, Tells}, Shelf.FilesStay};
ghost use Rattle.cnf_formula.specs.Formulas.{Satisfiable};
ghost use Rattle.lrat_text.specs.Printing.{cnf_text};
ghost use Rattle.proof_audit.specs.{Proving.{is_refutation, is_spent_log}, Files.{file_verdict, HasSpentLog, IsFileVerdict}};

use crate::fault::AuditFault;
use crate::judge::judge_file;
use crate::lines_judge::LinesJudge;
use crate::log_test::LogTest;
use crate::refutation_test::RefutationTest;
use crate::text_judge::TextJudge;
use crate::verdict::FileVerdict;
use cnf_formula::Formula;
use lrat_text::print_cnf;
use outer_ports::{ProofName, Shelf};
use std::alloc::Global;

/// The most bytes that a file of proof lines has.
const LONGEST_PROOF: u64 = 281_474_976_710_656;

/// Whether a file is the text of a formula, and of no other. No file changes. The file is read in
/// pieces of at most 65,536 bytes; the formula's text is held whole.
///
/// Whatever the shelf tells, some file, or the lack of one, is as the answer says.
/// [`AuditFault::ShelfFailed`] comes only where the shelf's count of faults rose in this call, or
/// stands at its last value; each other answer leaves the count as it was.
pub fn formula_file<H: Shelf>(
    alloc: Global,
    shelf: &mut H,
    name: ProofName,
    formula: &Formula,
) -> Result<FileVerdict, AuditFault>
    ensures told { Tells (H.tells shelf.old) (H.tells shelf.new) }
    ensures stay { IsTrue (H.tells shelf.new) → FilesStay (H.file shelf.old) (H.file shelf.new) }
    ensures exact { IsTrue (H.tells shelf.new) → IfOk result (λ verdict. verdict ≡ file_verdict (λ bytes. bytes_eq bytes (cnf_text formula.now)) (H.file shelf.old name)) }
    ensures some { IfOk result (IsFileVerdict (λ bytes. bytes_eq bytes (cnf_text formula.now))) }
    ensures cause { HasCause AuditFault.ShelfFailed (H.faults shelf.old) (H.faults shelf.new) result }
{
    let text = print_cnf(alloc, formula)?;
    let limit = text.len() as u64;
    let mut judge = TextJudge::new(text);
    judge_file(alloc, shelf, name, limit, &mut judge)
}

/// Whether a file refutes a formula: it has at most 281,474,976,710,656 bytes, and says proof lines
/// that are each accepted in their turn, of which one has no literal. It is read to its end, in
/// pieces of at most 65,536 bytes, and each line is checked at once. No file changes.
///
/// Whatever the shelf tells, some file, or the lack of one, is as the answer says, and a file that
/// stands says that no assignment satisfies the formula. [`AuditFault::ShelfFailed`] comes only
/// where the shelf's count of faults rose in this call, or stands at its last value; each other
/// answer leaves the count as it was.
pub fn refutation_file<H: Shelf>(
    alloc: Global,
    shelf: &mut H,
    name: ProofName,
    formula: &Formula,
) -> Result<FileVerdict, AuditFault>
    ensures told { Tells (H.tells shelf.old) (H.tells shelf.new) }
    ensures stay { IsTrue (H.tells shelf.new) → FilesStay (H.file shelf.old) (H.file shelf.new) }
    ensures exact { IsTrue (H.tells shelf.new) → IfOk result (λ verdict. verdict ≡ file_verdict (is_refutation formula.now) (H.file shelf.old name)) }
    ensures some { IfOk result (IsFileVerdict (is_refutation formula.now)) }
    ensures unsatisfiable { result ≡ Ok FileVerdict.Stands → Satisfiable formula.now → ⊥ }
    ensures cause { HasCause AuditFault.ShelfFailed (H.faults shelf.old) (H.faults shelf.new) result }
{
    let test = RefutationTest::new(alloc, formula)?;
    let mut judge = LinesJudge::new(alloc, test)?;
    judge_file(alloc, shelf, name, LONGEST_PROOF, &mut judge)
}

/// Whether a file is a spent log of a formula: it has at most 281,474,976,710,656 bytes, and says
/// just `count` proof lines, all additions, each of which follows from what is held in its turn,
/// has a literal, and is a superset of no held clause. It is read in pieces of at most 65,536
/// bytes, and each line is checked at once. No file changes.
///
/// Whatever the shelf tells, some file, or the lack of one, is as the answer says, and a file that
/// stands says that there is a spent log of so many lines. [`AuditFault::ShelfFailed`] comes only
/// where the shelf's count of faults rose in this call, or stands at its last value; each other
/// answer leaves the count as it was.
pub fn log_file<H: Shelf>(
    alloc: Global,
    shelf: &mut H,
    name: ProofName,
    formula: &Formula,
    count: u32,
) -> Result<FileVerdict, AuditFault>
    ensures told { Tells (H.tells shelf.old) (H.tells shelf.new) }
    ensures stay { IsTrue (H.tells shelf.new) → FilesStay (H.file shelf.old) (H.file shelf.new) }
    ensures exact { IsTrue (H.tells shelf.new) → IfOk result (λ verdict. verdict ≡ file_verdict (is_spent_log formula.now count) (H.file shelf.old name)) }
    ensures some { IfOk result (IsFileVerdict (is_spent_log formula.now count)) }
    ensures log { result ≡ Ok FileVerdict.Stands → HasSpentLog formula.now count }
    ensures cause { HasCause AuditFault.ShelfFailed (H.faults shelf.old) (H.faults shelf.new) result }
{
    let test = LogTest::new(alloc, formula, count)?;
    let mut judge = LinesJudge::new(alloc, test)?;
    judge_file(alloc, shelf, name, LONGEST_PROOF, &mut judge)
}
