//! An engine that refutes what a cut refutes, and leaves the rest to another.

ghost use Rattle.std.specs.Prelude.{◌≡◌, ◌<◌, true, false, [], None, Some, Contains, IfOk};
ghost use Rattle.collective_spec.specs.Collectives.{IsSpec};
ghost use Rattle.candidate_order.specs.{declared.candidate.Candidate.Candidate, Copied.copied_spec, Frontiers.IsWithin};
ghost use Rattle.engine_rules.specs.{declared.settled.Settled.Settled, Searches.IsSameSearch};
ghost use Rattle.engine_rules.specs.declared.settled.Settled.TheVariants as settled;
ghost use Rattle.node_cuts.specs.{Cutting.{cut_for, is_cut}, Floors.floor_of, Tables.IsTableOf};
ghost use Rattle.cut_bounds.specs.Cutting.{uncut_entries};

use candidate_order::{Candidate, Outcome};
use collective_spec::Spec;
use conflict_ledger::LineLog;
use engine_rules::{Engine, EngineFault, EngineView, Record, Settled};
use node_cuts::{Cut, CutTable, Floor, OutOfMemory, Sets};
use schedule::Topology;
use std::alloc::Global;

/// Refutes each candidate that one of the sets of nodes refutes; the others another engine settles,
/// beside whose stores it works.
#[derive(Drop)]
pub struct CutEngine<E: EngineView> {
    inner: E,
    sets: Sets,
    table: CutTable,
    tried: Record,
    ghost tabled: { IsTableOf sets (E.question inner).topology (E.question inner).spec table },
    ghost some: { 0 < (E.question inner).topology.nodes },
    ghost within: { (x : Candidate) (kind : Settled) → Contains tried.entries (x, kind) → IsWithin (E.question inner) x },
    pub ghost kept: { E.entries inner ≡ uncut_entries sets (E.question inner) tried.entries },
    pub ghost stops: { (x : Candidate) → E.stopped inner ≡ Some x → tried.stopped ≡ Some x },
    pub ghost uncut: { (x : Candidate) → E.stopped inner ≡ Some x → is_cut sets (E.question inner) x ≡ false },
    ghost refutes: { (x : Candidate) (kind : Settled) → Contains tried.entries (x, kind) → is_cut sets (E.question inner) x ≡ true → kind ≡ settled.Refuted },
}

impl<E: EngineView + Drop> CutEngine<E> {
    /// The engine over another, which is for the same topology and has settled nothing, with the
    /// sets of nodes that are looked at. The other is asked for the collective itself where it
    /// copies; of a reduction for the collective of which it is the inverse, over the links turned
    /// round, so that the topology is then the one turned round. The only error is `OutOfMemory`.
    pub fn new(
        alloc: Global,
        inner: E,
        topology: &Topology,
        spec: &Spec,
        sets: Sets,
    ) -> Result<CutEngine<E>, OutOfMemory>
        requires topology { (E.question inner).topology ≡ topology.now }
        requires copied { (E.question inner).spec ≡ copied_spec spec.now }
        requires spec { IsSpec topology.now.nodes spec.now }
        requires empty { E.entries inner ≡ [] }
        requires running { E.stopped inner ≡ None }
        ensures inner { IfOk result (λ e. e.inner ≡ inner) }
        ensures sets { IfOk result (λ e. e.sets ≡ sets) }
        ensures entries { IfOk result (λ e. ⟦<CutEngine<E> as EngineView>⟧.entries e ≡ []) }
        ensures stopped { IfOk result (λ e. ⟦<CutEngine<E> as EngineView>⟧.stopped e ≡ None) }
        ensures log { IfOk result (λ e. ⟦<CutEngine<E> as EngineView>⟧.log_lines e ≡ E.log_lines inner) }
        ensures same { IfOk result (IsSameSearch E.EngineView inner ⟦<CutEngine<E> as EngineView>⟧) }
    {
        let table = CutTable::new(alloc, topology, spec, sets)?;
        Ok(CutEngine {
            inner,
            sets,
            table,
            tried: Record::new(alloc),
        })
    }
}

impl<E: EngineView> CutEngine<E> {
    /// The other engine, whose record is the same without what a cut refutes, and which failed at
    /// most where this one did, at a candidate that no cut refutes. What it is asked, its formulas,
    /// what it promises of a schedule and its log are this one's. What a cut refutes is recorded as
    /// refuted.
    pub fn inner(&self) -> &E
        ensures inner { result.now ≡ self.now.inner }
        ensures kept { E.entries self.now.inner ≡ uncut_entries self.now.sets (E.question self.now.inner) (⟦<CutEngine<E> as EngineView>⟧.entries self.now) }
        ensures refuted { (x : Candidate) (kind : Settled) → Contains (⟦<CutEngine<E> as EngineView>⟧.entries self.now) (x, kind) → is_cut self.now.sets (E.question self.now.inner) x ≡ true → kind ≡ Settled.Refuted }
        ensures stopped { (x : Candidate) → E.stopped self.now.inner ≡ Some x → ⟦<CutEngine<E> as EngineView>⟧.stopped self.now ≡ Some x }
        ensures uncut { (x : Candidate) → E.stopped self.now.inner ≡ Some x → is_cut self.now.sets (E.question self.now.inner) x ≡ false }
        ensures within { (x : Candidate) (kind : Settled) → Contains (⟦<CutEngine<E> as EngineView>⟧.entries self.now) (x, kind) → IsWithin (E.question self.now.inner) x }
        ensures same { IsSameSearch ⟦<CutEngine<E> as EngineView>⟧ self.now E.EngineView result.now }
        ensures log { E.log_lines result.now ≡ ⟦<CutEngine<E> as EngineView>⟧.log_lines self.now }
    {
        &self.inner
    }

    /// Whether one of the sets of nodes refutes a candidate. It costs a comparison.
    pub fn refutes(&self, candidate: Candidate) -> bool
        requires { IsWithin (E.question self.now.inner) candidate }
        ensures { result ≡ is_cut self.now.sets (E.question self.now.inner) candidate }
    {
        self.table.refutes(candidate.c, candidate.r)
    }

    /// The first cut of a candidate, if one of the sets of nodes refutes it. The only error is
    /// `OutOfMemory`.
    pub fn first_cut(&self, candidate: Candidate) -> Result<Option<Cut>, OutOfMemory>
        requires { IsWithin (E.question self.now.inner) candidate }
        ensures { IfOk result (λ cut. cut ≡ cut_for self.now.sets (E.question self.now.inner) candidate) }
    {
        self.table.first_cut(candidate.c, candidate.r)
    }

    /// The floor of the question: how many rounds each schedule has at least for its chunk count.
    pub fn floor(&self) -> Floor
        ensures { result ≡ floor_of self.now.sets (E.question self.now.inner).topology (E.question self.now.inner).spec }
    {
        self.table.floor()
    }
}

impl<E: EngineView> EngineView for CutEngine<E> {
    ghost use Rattle.cut_bounds.specs.Laws.{exhausted_by, right_by};

    ghost question = { λ e. E.question e.inner };

    ghost entries = { λ e. e.tried.entries };

    ghost stopped = { λ e. e.tried.stopped };

    ghost log_lines = { λ e. E.log_lines e.inner };

    ghost formula = { λ e x. E.formula e.inner x };

    ghost suits = { λ e x schedule. E.suits e.inner x schedule };

    fn log(&self) -> &LineLog {
        self.inner.log()
    }

    ghost copies = { λ e. E.copies e.inner };

    ghost exact = { λ e x within. E.exact e.inner x within };

    ghost right = { λ e x refuted. right_by e.sets (E.question e.inner) e.tried.entries (E.entries e.inner) e.kept (E.copies e.inner) (E.right e.inner) x refuted };

    ghost exhausted = { λ e x unknown. exhausted_by e.sets (E.question e.inner) e.tried.entries (E.entries e.inner) e.kept (E.formula e.inner) e.refutes (E.exhausted e.inner) x unknown };
}

impl<T, E: Engine<T>> Engine<T> for CutEngine<E> {
    ghost use Rattle.std.proofs.Common.{refl, ◌∙◌};

    ghost faults = { λ e store. E.faults e.inner store };

    ghost agrees = { λ e store. E.agrees e.inner store };

    ghost moves = { λ a r b s. E.moves a.inner r b.inner s × (b.sets ≡ a.sets) };

    fn settle(&mut self, store: &mut T, candidate: Candidate) -> Result<Outcome, EngineFault> {
        let cut = self.refutes(candidate);
        self.tried.prepare(candidate)?;
        if cut {
            self.tried.note(candidate, Settled::Refuted);
            return Ok(Outcome::Refuted);
        }
        match self.inner.settle(store, candidate) {
            Ok(outcome) => {
                self.tried.note(candidate, Settled::of(&outcome));
                Ok(outcome)
            }
            Err(fault) => {
                self.tried.stop(candidate);
                Err(fault)
            }
        }
    }

    ghost moves_refl = { λ e store. (E.moves_refl e.inner store, refl) };

    ghost moves_trans = { λ a r b s c t first second. (E.moves_trans a.inner r b.inner s c.inner t first.0 second.0, second.1 ∙ first.1) };
}
