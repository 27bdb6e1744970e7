//! An engine that takes up refutations, and leaves the rest to a search.

ghost use Rattle.std.specs.Prelude.{◌≡◌, ◌≢◌, ◌≤◌, ◌↔◌, [], false, true, None, Some, Ok, Contains, IfOk, IsTrue};
ghost use Rattle.schedule.specs.Sends.{ScheduleValue};
ghost use Rattle.outer_ports.specs.{Port.{HasCause, Tells}, Shelf.FilesStay};
ghost use Rattle.proof_rules.specs.Refuting.{Exhausted};
ghost use Rattle.collective_spec.specs.Collectives.{IsSpec, kind_in};
ghost use Rattle.round_encoding.specs.Candidates.{size_limit};
ghost use Rattle.candidate_order.specs.{declared.candidate.Candidate.Candidate, Copied.copied_spec, Frontiers.{IsSolvable, IsWithin}};
ghost use Rattle.candidate_formula.specs.{Files.{HasRefutation, RefutedFiles}, Formulas.{formula_for, Suits}, Sizes.size_of};
ghost use Rattle.candidate_solver.specs.{Questions.asked, Trying.BeginsOwn};
ghost use Rattle.proof_audit.specs.Kept.{BothStay};
ghost use Rattle.engine_rules.specs.declared.settled.Settled.{Settled};
ghost use Rattle.engine_rules.specs.declared.settled.Settled.TheVariants as settled;

use crate::judging::take_up;
use candidate_order::{Candidate, Limits, Outcome};
use candidate_solver::{Question, SatEngine};
use cnf_formula::OutOfMemory;
use collective_spec::{Kind, Spec};
use conflict_ledger::LineLog;
use engine_rules::{Engine, EngineFault, EngineView, Record, Settled};
use outer_ports::{Part, Shelf};
use schedule::Topology;
use std::alloc::Global;

/// Refutes each candidate that files on the shelf refute already, where these are to be kept, and
/// leaves them as they are; the others are searched.
#[derive(Drop)]
pub struct KeptEngine {
    inner: SatEngine,
    question: Question,
    part: Part,
    kept: bool,
    tried: Record,
    ghost same_part: { inner.part ≡ part },
    ghost same_question: { ⟦<SatEngine as EngineView>⟧.question inner ≡ asked question },
    ghost among: { (x : Candidate) (kind : Settled) → (Contains tried.entries (x, kind) → ⊥) → Contains (⟦<SatEngine as EngineView>⟧.entries inner) (x, kind) → ⊥ },
    ghost stops: { (x : Candidate) → ⟦<SatEngine as EngineView>⟧.stopped inner ≡ Some x → tried.stopped ≡ Some x },
    ghost right: { (x : Candidate) → Contains tried.entries (x, settled.Refuted) → IsSolvable (⟦<SatEngine as EngineView>⟧.question inner) x → ⊥ },
    ghost exhausted: { (x : Candidate) → Contains tried.entries (x, settled.Unknown) → Exhausted (⟦<SatEngine as EngineView>⟧.formula inner x) (⟦<SatEngine as EngineView>⟧.question inner).limits.conflicts },
    pub ghost searches: { kept ≡ false → ⟦<SatEngine as EngineView>⟧.entries inner ≡ tried.entries },
}

impl KeptEngine {
    /// An engine for the candidates of a topology and a collective, within the limits; of a
    /// reduction it settles those of the copying collective of which it is the inverse, so that the
    /// topology is then the one turned round. The files are those of the part. With `checked` each
    /// proof line is checked before it is kept. With `kept` no candidate is searched that its files
    /// refute.
    pub fn new(
        alloc: Global,
        topology: &Topology,
        spec: &Spec,
        limits: Limits,
        part: Part,
        checked: bool,
        kept: bool,
    ) -> Result<KeptEngine, OutOfMemory>
        requires spec { IsSpec topology.now.nodes spec.now }
        requires single { kind_in spec.now ≢ Kind.Allreduce }
        requires part { part ≢ Part.Joined }
        requires size { size_of (record { topology = topology.now; spec = spec.now; limits = limits }) ≤ size_limit }
        ensures question { IfOk result (λ e. ⟦<KeptEngine as EngineView>⟧.question e ≡ record { topology = topology.now; spec = copied_spec spec.now; limits = limits }) }
        ensures entries { IfOk result (λ e. ⟦<KeptEngine as EngineView>⟧.entries e ≡ []) }
        ensures stopped { IfOk result (λ e. ⟦<KeptEngine as EngineView>⟧.stopped e ≡ None) }
        ensures formula { IfOk result (λ e. (x : Candidate) → ⟦<KeptEngine as EngineView>⟧.formula e x ≡ formula_for (⟦<KeptEngine as EngineView>⟧.question e) x) }
        ensures suits { IfOk result (λ e. (x : Candidate) (schedule : ScheduleValue) → ⟦<KeptEngine as EngineView>⟧.suits e x schedule ↔ Suits (⟦<KeptEngine as EngineView>⟧.question e) x schedule) }
        ensures part { IfOk result (λ e. e.part ≡ part) }
        ensures kept { IfOk result (λ e. e.kept ≡ kept) }
    {
        let inner = SatEngine::new(alloc, topology, spec, limits, part, checked)?;
        let question = Question::new(topology, spec, limits)?;
        let tried = Record::new(alloc);
        Ok(KeptEngine {
            inner,
            question,
            part,
            kept,
            tried,
        })
    }

    /// Takes up what refutes a candidate on the shelf, where that is to be kept.
    fn take<H: Shelf>(&self, store: &mut H, candidate: Candidate) -> Result<bool, EngineFault>
        requires { IsWithin (⟦<SatEngine as EngineView>⟧.question self.now.inner) candidate }
        ensures told { Tells (H.tells store.old) (H.tells store.new) }
        ensures begins { IsTrue (H.tells store.new) → BeginsOwn (formula_for (⟦<SatEngine as EngineView>⟧.question self.now.inner) candidate) self.now.part candidate (H.file store.old) (H.file store.new) }
        ensures kept { result ≡ Ok true → self.now.kept ≡ true }
        ensures taken { IsTrue (H.tells store.new) → result ≡ Ok true → RefutedFiles self.now.part (⟦<SatEngine as EngineView>⟧.question self.now.inner) (H.file store.new) candidate }
        ensures stay { IsTrue (H.tells store.new) → BothStay self.now.part candidate (H.file store.old) (H.file store.new) }
        ensures left { IsTrue (H.tells store.new) → result ≡ Ok false → FilesStay (H.file store.old) (H.file store.new) }
        ensures lacks { IsTrue (H.tells store.new) → result ≡ Ok false → self.now.kept ≡ true → HasRefutation self.now.part (⟦<SatEngine as EngineView>⟧.question self.now.inner) (H.file store.old) candidate → ⊥ }
        ensures right { result ≡ Ok true → IsSolvable (⟦<SatEngine as EngineView>⟧.question self.now.inner) candidate → ⊥ }
        ensures cause { HasCause EngineFault.ShelfFailed (H.faults store.old) (H.faults store.new) result }
    {
        if !self.kept {
            return Ok(false);
        }
        let alloc = self.tried.allocator();
        take_up(alloc, &self.question, self.part, store, candidate)
    }
}

impl EngineView for KeptEngine {
    ghost use Rattle.candidate_formula.proofs.Exact.{formula_exact};

    ghost question = { λ e. ⟦<SatEngine as EngineView>⟧.question e.inner };

    ghost entries = { λ e. e.tried.entries };

    ghost stopped = { λ e. e.tried.stopped };

    ghost log_lines = { λ e. ⟦<SatEngine as EngineView>⟧.log_lines e.inner };

    ghost formula = { λ e x. ⟦<SatEngine as EngineView>⟧.formula e.inner x };

    ghost suits = { λ e x schedule. ⟦<SatEngine as EngineView>⟧.suits e.inner x schedule };

    fn log(&self) -> &LineLog {
        self.inner.log()
    }

    ghost copies = { λ e. e.inner.question.small.copies };

    ghost exact = { λ e x within. formula_exact (asked e.inner.question) x e.inner.question.small within };

    ghost right = { λ e x refuted. e.right x refuted };

    ghost exhausted = { λ e x unknown. e.exhausted x unknown };
}

impl<H: Shelf> Engine<H> for KeptEngine {
    ghost use Rattle.candidate_solver.specs.Kept.{KeptAgrees};
    ghost use Rattle.kept_proofs.specs.{Beside.beside, Keeping.KeepingMoves, Laws.{KeepingMoves-refl, KeepingMoves-trans}};

    ghost faults = { λ _ shelf. H.faults shelf };

    ghost agrees = { λ e shelf. KeptAgrees (beside e (H.tells shelf) (H.file shelf)) };

    ghost moves = { λ a r b s. KeepingMoves a.kept b.kept (beside a (H.tells r) (H.file r)) (beside b (H.tells s) (H.file s)) };

    fn settle(&mut self, store: &mut H, candidate: Candidate) -> Result<Outcome, EngineFault> {
        self.tried.prepare(candidate)?;
        match self.take(store, candidate) {
            Ok(true) => {
                self.tried.note(candidate, Settled::Refuted);
                Ok(Outcome::Refuted)
            }
            Ok(false) => match self.inner.settle(store, candidate) {
                Ok(outcome) => {
                    self.tried.note(candidate, Settled::of(&outcome));
                    Ok(outcome)
                }
                Err(fault) => {
                    self.tried.stop(candidate);
                    Err(fault)
                }
            },
            Err(fault) => {
                self.tried.stop(candidate);
                Err(fault)
            }
        }
    }

    ghost moves_refl = { λ e shelf. KeepingMoves-refl e.kept (beside e (H.tells shelf) (H.file shelf)) };

    ghost moves_trans = { λ a r b s c t first second. KeepingMoves-trans a.kept b.kept c.kept (beside a (H.tells r) (H.file r)) (beside b (H.tells s) (H.file s)) (beside c (H.tells t) (H.file t)) first second };
}
