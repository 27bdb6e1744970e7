//! What settles candidates.

ghost use Rattle.std.specs.Prelude.{◌≡◌, ◌↔◌, ℕ, false, List, [], ◌∷◌, ◌++◌, Option, None, Some, Ok, IfOk, OnOk, OnErr, Contains};
ghost use Rattle.schedule.specs.Sends.{ScheduleValue};
ghost use Rattle.cnf_formula.specs.{Formulas.{FormulaValue, Satisfiable}, Lines.ProofLineValue};
ghost use Rattle.proof_rules.specs.Refuting.{Exhausted};
ghost use Rattle.outer_ports.specs.Port.{HasCause};
ghost use Rattle.collective_spec.specs.Collectives.{adds_up};
ghost use Rattle.candidate_order.specs.{declared.candidate.Candidate.Candidate, Frontiers.{QuestionValue, IsWithin, IsSolvable}};
ghost use Rattle.engine_rules.specs.declared.settled.Settled.TheVariants as settled;
ghost use Rattle.engine_rules.specs.Outcomes.{RecordValue, IsNew, SolvesTightly, SpentOn, kind_of};

use crate::fault::EngineFault;
use candidate_order::{Candidate, Outcome};
use conflict_ledger::LineLog;

/// The question whose candidates an engine settles, which is of a collective that copies; the
/// record of those that it has settled; and the formula of each candidate, which is satisfiable
/// exactly where the candidate is solvable.
///
/// `suits` is what an engine promises of its schedules beyond solving, and `stopped` the candidate
/// at which it failed.
pub trait EngineView {
    ghost question: { Self → QuestionValue };

    ghost entries: { Self → RecordValue };

    ghost stopped: { Self → Option Candidate };

    ghost log_lines: { Self → List ProofLineValue };

    ghost formula: { Self → Candidate → FormulaValue };

    ghost suits: { Self → Candidate → ScheduleValue → Type 0 };

    /// The proof lines of the search for the candidate that was settled last.
    fn log(&self) -> &LineLog
        ensures { result.now ≡ log_lines self.now };

    ghost copies: { (engine : Self) → adds_up (question engine).spec ≡ false };

    ghost exact: { (engine : Self) (x : Candidate) → IsWithin (question engine) x → Satisfiable (formula engine x) ↔ IsSolvable (question engine) x };

    // A candidate that the record holds as refuted has no solution, and the formula of one that it
    // holds as unknown is exhausted by the conflicts that the limits allow.
    ghost right: { (engine : Self) (x : Candidate) → Contains (entries engine) (x, settled.Refuted) → IsSolvable (question engine) x → ⊥ };

    ghost exhausted: { (engine : Self) (x : Candidate) → Contains (entries engine) (x, settled.Unknown) → Exhausted (formula engine x) (question engine).limits.conflicts };
}

/// An engine that works beside a store, which is lent to each call.
///
/// The store has a count of faults that never falls. `agrees` says that the store holds what the
/// record says, and `moves` what the calls up to a later engine and store may have changed. After a
/// fault the engine is not used again.
pub trait Engine<T>: EngineView {
    ghost use Rattle.engine_rules.specs.Searches.{CanGoOn, IsSameSearch};

    ghost faults: { Self → T → ℕ };

    ghost agrees: { Self → T → Type 0 };

    ghost moves: { Self → T → Self → T → Type 0 };

    /// Settles a candidate: finds a schedule that solves it and wastes no send, or that there is
    /// none, or gives it up after all the conflicts that the limits allow.
    /// [`EngineFault::ShelfFailed`] comes only where the count of faults rose.
    fn settle(&mut self, store: &mut T, candidate: Candidate) -> Result<Outcome, EngineFault>
        requires within { IsWithin (Self.question self.old) candidate }
        requires fresh { IsNew (Self.entries self.old) candidate }
        requires running { Self.stopped self.old ≡ None }
        requires agrees { agrees self.old store.old }
        ensures solved { (schedule : ScheduleValue) → result ≡ Ok (Outcome.Solved schedule) → SolvesTightly (Self.question self.old) candidate schedule × Self.suits self.new candidate schedule }
        ensures refuted { result ≡ Ok Outcome.Refuted → IsSolvable (Self.question self.old) candidate → ⊥ }
        ensures unknown { (n : ℕ) → result ≡ Ok (Outcome.Unknown n) → (n ≡ (Self.question self.old).limits.conflicts) × SpentOn (Self.formula self.old candidate) (Self.log_lines self.new) n }
        ensures entries { IfOk result (λ outcome. Self.entries self.new ≡ Self.entries self.old ++ (candidate, kind_of outcome) ∷ []) }
        ensures kept { OnErr result (Self.entries self.new ≡ Self.entries self.old) }
        ensures stopped { OnErr result (Self.stopped self.new ≡ Some candidate) }
        ensures same { IsSameSearch Self.EngineView self.old Self.EngineView self.new }
        ensures moves { moves self.old store.old self.new store.new }
        ensures goes_on { OnOk result (CanGoOn (Self.stopped self.new) (agrees self.new store.new)) }
        ensures cause { HasCause EngineFault.ShelfFailed (faults self.old store.old) (faults self.new store.new) result };

    ghost moves_refl: { (engine : Self) (store : T) → moves engine store engine store };

    ghost moves_trans: { (a : Self) (r : T) (b : Self) (s : T) (c : Self) (t : T) → moves a r b s → moves b s c t → moves a r c t };
}
