//! Laws of an engine that keeps proofs.

ghost use Rattle.std.specs.Prelude.{◌≡◌, ◌+◌, ◌≤◌, List, [], ◌∷◌, ◌++◌, length, map, Ok};
ghost use Rattle.cnf_formula.specs.{Formulas.FormulaValue, Lines.ProofLineValue, declared.line.LratLine.TheVariants.Addition};
ghost use Rattle.proof_rules.specs.{Held.start_of, Refuting.Refutes, Learning.AllImplied};
ghost use Rattle.lrat_text.specs.Printing.{lrat_text};
ghost use Rattle.sat_core.specs.Ready.{AreNumbered};
ghost use Rattle.candidate_formula.specs.Lines.{lines_of_text};
ghost use Rattle.candidate_solver.specs.declared.kept.SatEngine.{SatEngine};
ghost use Rattle.engine_rules.specs.declared.settled.Settled.TheVariants as settled;
ghost use Rattle.engine_rules.specs.Outcomes.{RecordValue};

use crate::kept::SatEngine;
use candidate_order::Candidate;
use engine_rules::EngineView;

/// Where the candidate that was settled last was refuted, the engine's log refutes its formula,
/// whatever the shelf tells.
pub fn the_log_refutes_the_last_candidate()
    ensures { (e : SatEngine) (before : RecordValue) (x : Candidate) → ⟦<SatEngine as EngineView>⟧.entries e ≡ before ++ (x, settled.Refuted) ∷ []
        → Refutes (map Addition (⟦<SatEngine as EngineView>⟧.log_lines e)) (⟦<SatEngine as EngineView>⟧.formula e x) }
{}

/// The lines of a search are read back from their text, where the number of the last, which is that
/// of the formula's clauses and the lines, fits into 32 bits, and so do the literals.
pub fn lines_of_a_search_are_read_back()
    ensures { (f : FormulaValue) (lines : List ProofLineValue) → f.vars ≤ 2147483647 → length f.clauses + length lines ≤ 4294967295
        → AllImplied (start_of f) lines → AreNumbered (length f.clauses) lines → lines_of_text (lrat_text (map Addition lines)) ≡ Ok (map Addition lines) }
{}
