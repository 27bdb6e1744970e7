//! An engine that searches for ordered schedules, and keeps no proof.

ghost use Rattle.std.specs.Prelude.{◌≡◌, ◌≢◌, ◌<◌, ◌≤◌, ◌↔◌, [], ◌∷◌, ◌++◌, None, Contains, IfOk, map};
ghost use Rattle.schedule.specs.Sends.{ScheduleValue};
ghost use Rattle.cnf_formula.specs.declared.line.LratLine.TheVariants.{Addition};
ghost use Rattle.proof_rules.specs.Refuting.{Exhausted, Refutes};
ghost use Rattle.collective_spec.specs.Collectives.{IsSpec, kind_in};
ghost use Rattle.round_encoding.specs.Candidates.{size_limit};
ghost use Rattle.candidate_order.specs.{declared.candidate.Candidate.Candidate, Copied.copied_spec, Frontiers.{IsSolvable, IsWithin}};
ghost use Rattle.candidate_formula.specs.{Sizes.size_of, Formulas.{ordered_formula_for, OrderedFor}};
ghost use Rattle.engine_rules.specs.declared.settled.Settled.TheVariants as settled;
ghost use Rattle.engine_rules.specs.Outcomes.{RecordValue};
ghost use Rattle.candidate_solver.specs.{Questions.asked, Proved.IsProved, Single.proved-prop};

use crate::trying::try_candidate;
use candidate_order::{Candidate, Limits, Outcome};
use candidate_solver::{Attempt, Question};
use cnf_formula::OutOfMemory;
use collective_spec::{Kind, Spec};
use conflict_ledger::LineLog;
use engine_rules::{Engine, EngineFault, EngineView, Record, Settled};
use schedule::Topology;
use std::alloc::Global;

/// Searches for an ordered schedule of each candidate by its formula with the clauses of the order.
/// Each proof line is checked as it is found, and none is kept. It works beside any store, and
/// leaves it as it was.
#[derive(Drop)]
pub struct OrderedEngine {
    question: Question,
    tried: Record,
    log: LineLog,
    ghost right: { (x : Candidate) → Contains tried.entries (x, settled.Refuted) → IsSolvable (asked question) x → ⊥ },
    ghost exhausted: { (x : Candidate) → Contains tried.entries (x, settled.Unknown) → Exhausted (ordered_formula_for (asked question) x) question.limits.conflicts },
    pub ghost proved: { (before : RecordValue) (x : Candidate) → tried.entries ≡ before ++ (x, settled.Refuted) ∷ [] → Refutes (map Addition log) (ordered_formula_for (asked question) x) } by { proved-prop tried.entries log (ordered_formula_for (asked question)) },
}

impl OrderedEngine {
    /// An engine for the candidates of a topology and a collective, within the limits; of a
    /// reduction it settles those of the copying collective of which it is the inverse, so that the
    /// topology is then the one turned round. The only error is `OutOfMemory`.
    pub fn new(
        alloc: Global,
        topology: &Topology,
        spec: &Spec,
        limits: Limits,
    ) -> Result<OrderedEngine, OutOfMemory>
        requires spec { IsSpec topology.now.nodes spec.now }
        requires single { kind_in spec.now ≢ Kind.Allreduce }
        requires size { size_of (record { topology = topology.now; spec = spec.now; limits = limits }) ≤ size_limit }
        ensures question { IfOk result (λ e. ⟦<OrderedEngine as EngineView>⟧.question e ≡ record { topology = topology.now; spec = copied_spec spec.now; limits = limits }) }
        ensures entries { IfOk result (λ e. ⟦<OrderedEngine as EngineView>⟧.entries e ≡ []) }
        ensures stopped { IfOk result (λ e. ⟦<OrderedEngine as EngineView>⟧.stopped e ≡ None) }
        ensures formula { IfOk result (λ e. (x : Candidate) → ⟦<OrderedEngine as EngineView>⟧.formula e x ≡ ordered_formula_for (⟦<OrderedEngine as EngineView>⟧.question e) x) }
        ensures suits { IfOk result (λ e. (x : Candidate) (schedule : ScheduleValue) → ⟦<OrderedEngine as EngineView>⟧.suits e x schedule ↔ OrderedFor (⟦<OrderedEngine as EngineView>⟧.question e) x schedule) }
    {
        Ok(OrderedEngine {
            question: Question::new(topology, spec, limits)?,
            tried: Record::new(alloc),
            log: LineLog::new(),
        })
    }

    /// Adds a candidate to the record, for which there is room, with the log of its search.
    fn note(&mut self, candidate: Candidate, kind: Settled, lines: LineLog)
        requires room { 0 < self.old.tried.room }
        requires within { IsWithin (asked self.old.question) candidate }
        requires proved { IsProved (ordered_formula_for (asked self.old.question) candidate) self.old.question.limits.conflicts lines kind }
        ensures entries { self.new.tried.entries ≡ self.old.tried.entries ++ (candidate, kind) ∷ [] }
        ensures log { self.new.log ≡ lines }
        ensures question { self.new.question ≡ self.old.question }
        ensures stopped { self.new.tried.stopped ≡ self.old.tried.stopped }
    {
        self.tried.note(candidate, kind);
        self.log = lines;
    }
}

impl EngineView for OrderedEngine {
    ghost use Rattle.candidate_formula.proofs.Exact.{ordered_exact};

    ghost question = { λ e. asked e.question };

    ghost entries = { λ e. e.tried.entries };

    ghost stopped = { λ e. e.tried.stopped };

    ghost log_lines = { λ e. e.log };

    ghost formula = { λ e x. ordered_formula_for (asked e.question) x };

    ghost suits = { λ e x schedule. OrderedFor (asked e.question) x schedule };

    fn log(&self) -> &LineLog {
        &self.log
    }

    ghost copies = { λ e. e.question.small.copies };

    ghost exact = { λ e x within. ordered_exact (asked e.question) x e.question.small within };

    ghost right = { λ e x refuted. e.right x refuted };

    ghost exhausted = { λ e x unknown. e.exhausted x unknown };
}

impl<T> Engine<T> for OrderedEngine {
    ghost use Rattle.std.proofs.Common.{refl, ◌∙◌};

    ghost faults = { λ _ _. 0 };

    ghost agrees = { λ _ _. Unit {0} };

    ghost moves = { λ _ before _ now. now ≡ before };

    fn settle(&mut self, store: &mut T, candidate: Candidate) -> Result<Outcome, EngineFault> {
        self.tried.prepare(candidate)?;
        let alloc = self.tried.allocator();
        match try_candidate(alloc, &self.question, candidate) {
            Ok(Attempt { outcome, lines }) => {
                self.note(candidate, Settled::of(&outcome), lines);
                Ok(outcome)
            }
            Err(_) => {
                self.tried.stop(candidate);
                Err(EngineFault::OutOfMemory)
            }
        }
    }

    ghost moves_refl = { λ _ _. refl };

    ghost moves_trans = { λ _ _ _ _ _ _ first second. second ∙ first };
}
