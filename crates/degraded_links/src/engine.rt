//! An engine that takes over old refutations, and leaves the other candidates to another engine.

ghost use Rattle.std.specs.Prelude.{◌≡◌, ◌<◌, [], length, None, All, Ok};
ghost use Rattle.schedule.specs.Judging.{group_at};
ghost use Rattle.candidate_order.specs.declared.candidate.Candidate.{Candidate};
ghost use Rattle.engine_rules.specs.Searches.{IsSameSearch};
ghost use Rattle.link_faults.specs.{Narrowed.narrowed, Carrying.{IsOldRefuted, is_carried, not_carried}};
ghost use Rattle.degraded_links.specs.Keeping.{HasNoneCarried, RefutesCarried, StopsAlike, question_over};

use candidate_order::{Candidate, Outcome};
use conflict_ledger::LineLog;
use engine_rules::{Engine, EngineFault, EngineView, Record, Settled};
use link_faults::is_carried;
use schedule::Topology;
use std::alloc::Global;

/// Refutes each candidate that an old refuted one carries over a fault, and leaves the others to an
/// engine for the links that are left. The record within is this one without the candidates that
/// old ones carry.
#[derive(Drop)]
pub struct CarryEngine<E: EngineView> {
    inner: E,
    old: Vec<Candidate>,
    tried: Record,
    ghost none: { HasNoneCarried old.items (E.question inner) },
    ghost alone: { RefutesCarried old.items tried.entries },
    ghost kept: { E.entries inner ≡ not_carried old.items tried.entries },
    ghost stops: { StopsAlike (E.stopped inner) tried.stopped },
}

impl<E: EngineView> CarryEngine<E> {
    /// An engine over one for the links that a fault left of the given ones: a group is `width`
    /// wide, or where that is 0 its links are gone. The old candidates had no schedule over the
    /// given links. The engine within is new: its record is empty.
    #[tactic(auto, using(crate::proofs::Keeping::none_at_first, crate::proofs::Keeping::none_alone, crate::proofs::Keeping::none_kept, crate::proofs::Keeping::stops_nowhere))]
    pub fn new(
        alloc: Global,
        inner: E,
        given: Topology,
        group: u16,
        width: u8,
        old: Vec<Candidate>,
    ) -> CarryEngine<E>
        requires group { group < length given.groups }
        requires width { width < (group_at given group).width }
        requires topology { (E.question inner).topology ≡ narrowed given group width }
        requires old { All (IsOldRefuted (question_over given (E.question inner))) old.items }
        requires empty { E.entries inner ≡ [] }
        requires running { E.stopped inner ≡ None }
        ensures inner { result.inner ≡ inner }
        ensures old { result.old.items ≡ old.items }
        ensures entries { ⟦<CarryEngine<E> as EngineView>⟧.entries result ≡ [] }
        ensures stopped { ⟦<CarryEngine<E> as EngineView>⟧.stopped result ≡ None }
        ensures log { ⟦<CarryEngine<E> as EngineView>⟧.log_lines result ≡ E.log_lines inner }
        ensures same { IsSameSearch E.EngineView inner ⟦<CarryEngine<E> as EngineView>⟧ result }
    {
        CarryEngine {
            inner,
            old,
            tried: Record::new(alloc),
        }
    }

    /// The engine within. Its record is this one's without the candidates that old ones carry,
    /// which are all refuted; where it has stopped, so has this one, at the same candidate. What it
    /// is asked, its formulas, what it promises of a schedule and its log are this one's.
    pub fn inner(&self) -> &E
        ensures inner { result.now ≡ self.now.inner }
        ensures entries { E.entries result.now ≡ not_carried self.now.old.items (⟦<CarryEngine<E> as EngineView>⟧.entries self.now) }
        ensures carried { RefutesCarried self.now.old.items (⟦<CarryEngine<E> as EngineView>⟧.entries self.now) }
        ensures stopped { StopsAlike (E.stopped result.now) (⟦<CarryEngine<E> as EngineView>⟧.stopped self.now) }
        ensures same { IsSameSearch ⟦<CarryEngine<E> as EngineView>⟧ self.now E.EngineView result.now }
        ensures log { E.log_lines result.now ≡ ⟦<CarryEngine<E> as EngineView>⟧.log_lines self.now }
    {
        &self.inner
    }

    /// The old refuted candidates. No candidate that one of them carries is solvable.
    pub fn old(&self) -> &[Candidate]
        ensures old { result.now ≡ self.now.old.items }
        ensures none { HasNoneCarried result.now (⟦<CarryEngine<E> as EngineView>⟧.question self.now) }
    {
        &self.old
    }

    /// Whether an old candidate carries this one.
    pub fn carries(&self, candidate: Candidate) -> bool
        ensures { result ≡ is_carried self.now.old.items candidate }
    {
        is_carried(&self.old, candidate)
    }
}

impl<E: EngineView> EngineView for CarryEngine<E> {
    ghost use Rattle.candidate_order.specs.Frontiers.{IsSolvable};
    ghost use Rattle.proof_rules.specs.Refuting.{Exhausted};
    ghost use Rattle.engine_rules.specs.declared.settled.Settled.TheVariants as settled;
    ghost use Rattle.link_faults.proofs.Recorded.{of_record};
    ghost use Rattle.degraded_links.specs.Keeping.{unknown_not_refuted};

    ghost question = { λ e. E.question e.inner };

    ghost entries = { λ e. e.tried.entries };

    ghost stopped = { λ e. e.tried.stopped };

    ghost log_lines = { λ e. E.log_lines e.inner };

    ghost formula = { λ e x. E.formula e.inner x };

    ghost suits = { λ e x schedule. E.suits e.inner x schedule };

    fn log(&self) -> &LineLog {
        self.inner.log()
    }

    ghost copies = { λ e. E.copies e.inner };

    ghost exact = { λ e x within. E.exact e.inner x within };

    ghost right = { λ e x found. of_record e.old.items (λ x. IsSolvable (E.question e.inner) x → ⊥) settled.Refuted e.tried.entries (E.entries e.inner) e.kept (λ x _ carried. e.none x carried) (E.right e.inner) x found };

    ghost exhausted = { λ e x found. of_record e.old.items (λ x. Exhausted (E.formula e.inner x) (E.question e.inner).limits.conflicts) settled.Unknown e.tried.entries (E.entries e.inner) e.kept (λ x found carried. unknown_not_refuted (e.alone x settled.Unknown found carried)) (E.exhausted e.inner) x found };
}

impl<T, E: Engine<T>> Engine<T> for CarryEngine<E> {
    ghost use Rattle.std.proofs.Common.{refl, ◌∙◌};

    ghost faults = { λ e store. E.faults e.inner store };

    ghost agrees = { λ e store. E.agrees e.inner store };

    ghost moves = { λ a r b s. E.moves a.inner r b.inner s × (b.old.items ≡ a.old.items) };

    fn settle(&mut self, store: &mut T, candidate: Candidate) -> Result<Outcome, EngineFault> {
        let carried = self.carries(candidate);
        self.tried.prepare(candidate)?;
        if carried {
            self.tried.note(candidate, Settled::Refuted);
            return Ok(Outcome::Refuted);
        }
        match self.inner.settle(store, candidate) {
            Ok(outcome) => {
                self.tried.note(candidate, Settled::of(&outcome));
                Ok(outcome)
            }
            Err(fault) => {
                self.tried.stop(candidate);
                Err(fault)
            }
        }
    }

    ghost moves_refl = { λ e store. (E.moves_refl e.inner store, refl) };

    ghost moves_trans = { λ a r b s c t first second. (E.moves_trans a.inner r b.inner s c.inner t first.0 second.0, second.1 ∙ first.1) };
}
