//! Laws of refutations (soundness of LRAT).

ghost use Rattle.std.specs.Prelude.{◌≡◌, ◌↔◌, ℕ, true, false, List, [], map};
ghost use Rattle.cnf_formula.specs.{Formulas.{FormulaValue, IsFormula, Satisfiable}, declared.line.LratLine.{LratLine, TheVariants.Addition}, Lines.ProofLineValue};
ghost use Rattle.proof_rules.specs.{Held.{CheckerValue, start_of}, Testing.{is_rup, is_rat, accepts}, Learning.{AllImplied, AllFresh}, Judging.{verdict_of, verdict_on, is_accepted, is_implied}, Accepting.{Implied, Redundant}};
ghost use Rattle.proof_rules.specs.Refuting.{with_accepted, all_accepted, are_learned, formula_after, IsChecker, Refutes, Exhausted};

use crate::verdict::LineVerdict;

/// The checks leave an addition accepted as implied (RUP), or as redundant (RAT), exactly by the
/// definitions.
#[tactic(auto, using(crate::proofs::Verdicts::implied_exactly, crate::proofs::Verdicts::redundant_exactly))]
pub fn additions_are_accepted_exactly()
    ensures implied { (c : CheckerValue) (line : ProofLineValue) → (verdict_of c line ≡ LineVerdict.Accepted true) ↔ Implied c line }
    ensures redundant { (c : CheckerValue) (line : ProofLineValue) → (verdict_of c line ≡ LineVerdict.Accepted false) ↔ Redundant c line }
{}

/// The tests pass an addition as RUP, or as RAT, exactly by the definitions.
#[tactic(auto, using(crate::proofs::Tested::rup_exactly, crate::proofs::Tested::rat_exactly))]
pub fn additions_are_tested_exactly()
    ensures implied { (c : CheckerValue) (line : ProofLineValue) → (is_rup c line ≡ true) ↔ Implied c line }
    ensures redundant { (c : CheckerValue) (line : ProofLineValue) → (is_rat c line ≡ true) ↔ Redundant c line }
{}

/// Whether a line is accepted, and whether as implied, is the same by the tests and by its verdict.
/// So are additions learned, each in its turn.
#[tactic(auto, using(crate::proofs::Tested::acceptance_said, crate::proofs::Tested::rup_said))]
pub fn lines_are_accepted_by_their_verdicts()
    ensures accepted { (c : CheckerValue) (line : LratLine) → accepts c line ≡ is_accepted (verdict_on c line) }
    ensures implied { (c : CheckerValue) (line : ProofLineValue) → is_rup c line ≡ is_implied (verdict_of c line) }
    ensures learned { (c : CheckerValue) (lines : List ProofLineValue) → (AllImplied c lines × AllFresh c lines) ↔ (are_learned c (map Addition lines) ≡ true) }
{}

/// Where some assignment satisfies a formula, some assignment satisfies all that is held after any
/// accepted lines.
#[tactic(auto, using(crate::proofs::Together::still_satisfiable))]
pub fn satisfiable_stays_satisfiable()
    ensures { (f : FormulaValue) (lines : List LratLine) → IsFormula f → Satisfiable f → all_accepted (start_of f) lines ≡ true → Satisfiable (formula_after f lines) }
{}

/// A formula that some assignment satisfies is refuted by no lines.
#[tactic(auto, using(crate::proofs::Calm::never_refuted))]
pub fn satisfiable_is_never_refuted()
    ensures { (f : FormulaValue) (lines : List LratLine) → Satisfiable f → Refutes lines f → ⊥ }
{}

/// A formula that falls by one line without a literal is exhausted for no number of lines.
#[tactic(auto, using(crate::proofs::Kept::never_exhausted))]
pub fn refuted_at_once_is_never_exhausted()
    ensures { (f : FormulaValue) (line : ProofLineValue) (n : ℕ) → line.lits ≡ [] → verdict_of (start_of f) line ≡ LineVerdict.Accepted true → Exhausted f n → ⊥ }
{}

/// A checker begins with the clauses of a formula, and an accepted line leaves a checker.
#[tactic(auto, using(crate::proofs::Kept::starts_as_checker, crate::proofs::Kept::stays_checker))]
pub fn checkers()
    ensures start { (f : FormulaValue) → IsChecker (start_of f) }
    ensures next { (c : CheckerValue) (line : LratLine) → IsChecker c → is_accepted (verdict_on c line) ≡ true → IsChecker (with_accepted c line) }
{}

/// Where a checker has accepted a line without a literal, no assignment satisfies its formula.
pub fn refuted_is_unsatisfiable()
    ensures { (c : CheckerValue) → IsChecker c → c.refuted ≡ true → Satisfiable c.formula → ⊥ }
{}
