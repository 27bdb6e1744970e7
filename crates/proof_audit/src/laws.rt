//! What the judges of files say of a candidate.

ghost use Rattle.std.specs.Prelude.{◌≡◌, ◌↔◌, bytes_eq};
ghost use Rattle.outer_ports.specs.{declared.{part.Part.Part, proof_name.FileKind.TheVariants.{Cnf, Lrat}}, Files.Files};
ghost use Rattle.lrat_text.specs.Printing.{cnf_text};
ghost use Rattle.candidate_order.specs.{declared.candidate.Candidate.Candidate, Frontiers.QuestionValue};
ghost use Rattle.candidate_formula.specs.{Files.{file_of, HasRefutation}, Formulas.formula_for};
ghost use Rattle.proof_audit.specs.{Files.file_verdict, Proving.is_refutation};

use crate::verdict::FileVerdict;

/// The file of a candidate's formula and that of its proof both stand exactly where the candidate
/// is refuted beside a report: the first is the text of the question's formula of it, with the
/// clauses of the order where the question asks for these, and the second refutes this formula.
pub fn files_that_stand_refute()
    ensures { (part : Part) (q : QuestionValue) (files : Files) (x : Candidate)
        → ((file_verdict (λ bytes. bytes_eq bytes (cnf_text (formula_for q x))) (files (file_of Cnf part x)) ≡ FileVerdict.Stands)
        × (file_verdict (is_refutation (formula_for q x)) (files (file_of Lrat part x)) ≡ FileVerdict.Stands)) ↔ HasRefutation part q files x }
{}
