//! An engine that searches, and keeps formulas and proofs on a shelf.

ghost use Rattle.std.specs.Prelude.{◌≡◌, ◌≢◌, ◌↔◌, ◌<◌, ◌≤◌, [], ◌∷◌, ◌++◌, None, Contains, IfOk, map};
ghost use Rattle.schedule.specs.Sends.{ScheduleValue};
ghost use Rattle.cnf_formula.specs.declared.line.LratLine.TheVariants.{Addition};
ghost use Rattle.proof_rules.specs.Refuting.{Exhausted, Refutes};
ghost use Rattle.collective_spec.specs.Collectives.{IsSpec, kind_in};
ghost use Rattle.round_encoding.specs.Candidates.{size_limit};
ghost use Rattle.outer_ports.specs.declared.part.Part.TheVariants as part_named;
ghost use Rattle.candidate_order.specs.{declared.candidate.Candidate.Candidate, Copied.copied_spec, Frontiers.{IsSolvable, IsWithin}};
ghost use Rattle.candidate_formula.specs.{Formulas.{formula_for, Suits}, Sizes.size_of};
ghost use Rattle.candidate_solver.specs.{Questions.asked, Proved.IsProved, Single.proved-prop};
ghost use Rattle.engine_rules.specs.declared.settled.Settled.TheVariants as settled;
ghost use Rattle.engine_rules.specs.Outcomes.{RecordValue};

use crate::attempt::Attempt;
use crate::question::Question;
use crate::trying::try_candidate;
use candidate_order::{Candidate, Limits, Outcome};
use cnf_formula::OutOfMemory;
use collective_spec::{Kind, Spec};
use conflict_ledger::LineLog;
use engine_rules::{Engine, EngineFault, EngineView, Record, Settled};
use outer_ports::{Part, Shelf};
use schedule::Topology;
use std::alloc::Global;

/// Searches for a schedule of each candidate by its formula. On the shelf that is lent to it stand
/// the formula of each candidate that it settles, the refutation of each that has no schedule, and
/// the log of each that it gives up.
#[derive(Drop)]
pub struct SatEngine {
    question: Question,
    part: Part,
    checked: bool,
    tried: Record,
    log: LineLog,
    ghost named: { part ≢ part_named.Joined },
    ghost right: { (x : Candidate) → Contains tried.entries (x, settled.Refuted) → IsSolvable (asked question) x → ⊥ },
    ghost exhausted: { (x : Candidate) → Contains tried.entries (x, settled.Unknown) → Exhausted (formula_for (asked question) x) question.limits.conflicts },
    pub ghost proved: { (before : RecordValue) (x : Candidate) → tried.entries ≡ before ++ (x, settled.Refuted) ∷ [] → Refutes (map Addition log) (formula_for (asked question) x) } by { proved-prop tried.entries log (formula_for (asked question)) },
}

impl SatEngine {
    /// An engine for the candidates of a topology and a collective, within the limits; of a
    /// reduction it settles those of the copying collective of which it is the inverse, so that the
    /// topology is then the one turned round. The files are those of the part. With `checked` each
    /// proof line is checked before it is kept.
    pub fn new(
        alloc: Global,
        topology: &Topology,
        spec: &Spec,
        limits: Limits,
        part: Part,
        checked: bool,
    ) -> Result<SatEngine, OutOfMemory>
        requires spec { IsSpec topology.now.nodes spec.now }
        requires single { kind_in spec.now ≢ Kind.Allreduce }
        requires part { part ≢ Part.Joined }
        requires size { size_of (record { topology = topology.now; spec = spec.now; limits = limits }) ≤ size_limit }
        ensures question { IfOk result (λ e. ⟦<SatEngine as EngineView>⟧.question e ≡ record { topology = topology.now; spec = copied_spec spec.now; limits = limits }) }
        ensures entries { IfOk result (λ e. ⟦<SatEngine as EngineView>⟧.entries e ≡ []) }
        ensures stopped { IfOk result (λ e. ⟦<SatEngine as EngineView>⟧.stopped e ≡ None) }
        ensures formula { IfOk result (λ e. (x : Candidate) → ⟦<SatEngine as EngineView>⟧.formula e x ≡ formula_for (⟦<SatEngine as EngineView>⟧.question e) x) }
        ensures suits { IfOk result (λ e. (x : Candidate) (schedule : ScheduleValue) → ⟦<SatEngine as EngineView>⟧.suits e x schedule ↔ Suits (⟦<SatEngine as EngineView>⟧.question e) x schedule) }
        ensures part { IfOk result (λ e. e.part ≡ part) }
    {
        Ok(SatEngine {
            question: Question::new(topology, spec, limits)?,
            part,
            checked,
            tried: Record::new(alloc),
            log: LineLog::new(),
        })
    }

    /// Adds a candidate to the record, for which there is room, with the log of its search.
    fn note(&mut self, candidate: Candidate, kind: Settled, lines: LineLog)
        requires room { 0 < self.old.tried.room }
        requires within { IsWithin (asked self.old.question) candidate }
        requires proved { IsProved (formula_for (asked self.old.question) candidate) self.old.question.limits.conflicts lines kind }
        ensures entries { self.new.tried.entries ≡ self.old.tried.entries ++ (candidate, kind) ∷ [] }
        ensures log { self.new.log ≡ lines }
        ensures question { self.new.question ≡ self.old.question }
        ensures part { self.new.part ≡ self.old.part }
        ensures stopped { self.new.tried.stopped ≡ self.old.tried.stopped }
    {
        self.tried.note(candidate, kind);
        self.log = lines;
    }
}

impl EngineView for SatEngine {
    ghost use Rattle.candidate_formula.proofs.Exact.{formula_exact};

    ghost question = { λ e. asked e.question };

    ghost entries = { λ e. e.tried.entries };

    ghost stopped = { λ e. e.tried.stopped };

    ghost log_lines = { λ e. e.log };

    ghost formula = { λ e x. formula_for (asked e.question) x };

    ghost suits = { λ e x schedule. Suits (asked e.question) x schedule };

    fn log(&self) -> &LineLog {
        &self.log
    }

    ghost copies = { λ e. e.question.small.copies };

    ghost exact = { λ e x within. formula_exact (asked e.question) x e.question.small within };

    ghost right = { λ e x refuted. e.right x refuted };

    ghost exhausted = { λ e x unknown. e.exhausted x unknown };
}

impl<H: Shelf> Engine<H> for SatEngine {
    ghost use Rattle.candidate_solver.specs.{Beside.beside, Kept.{KeptAgrees, KeptMoves}, Laws.{KeptMoves-refl, KeptMoves-trans}};

    ghost faults = { λ _ shelf. H.faults shelf };

    ghost agrees = { λ e shelf. KeptAgrees (beside e (H.tells shelf) (H.file shelf)) };

    ghost moves = { λ a r b s. KeptMoves (beside a (H.tells r) (H.file r)) (beside b (H.tells s) (H.file s)) };

    fn settle(&mut self, store: &mut H, candidate: Candidate) -> Result<Outcome, EngineFault> {
        self.tried.prepare(candidate)?;
        let alloc = self.tried.allocator();
        match try_candidate(
            alloc,
            &self.question,
            self.part,
            self.checked,
            store,
            candidate,
        ) {
            Ok(Attempt { outcome, lines }) => {
                self.note(candidate, Settled::of(&outcome), lines);
                Ok(outcome)
            }
            Err(fault) => {
                self.tried.stop(candidate);
                Err(fault)
            }
        }
    }

    ghost moves_refl = { λ e shelf. KeptMoves-refl (beside e (H.tells shelf) (H.file shelf)) };

    ghost moves_trans = { λ a r b s c t first second. KeptMoves-trans (beside a (H.tells r) (H.file r)) (beside b (H.tells s) (H.file s)) (beside c (H.tells t) (H.file t)) first second };
}
