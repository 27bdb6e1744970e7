//! The search with an engine, and the inversion of what it found for a reduction.

ghost use Rattle.std.specs.{Prelude.{◌≡◌, [], None, IfOk, OnOk}, List.Sorted.IsPermutation};
ghost use Rattle.outer_ports.specs.Port.{HasCause};
ghost use Rattle.engine_rules.specs.Searches.{CanGoOn, IsSameSearch};
ghost use Rattle.collective_spec.specs.Collectives.{IsSpec};
ghost use Rattle.pareto_search.specs.Recorded.{StaysWithin, entries_of};
ghost use Rattle.candidate_formula.specs.Searched.{searched_question};
ghost use Rattle.engine_search.specs.{Searched.asked_frontier, Found.IsFoundBy};

use crate::OutOfMemory;
use candidate_formula::allowed_counts;
use candidate_order::{Frontier, Limits};
use collective_spec::Spec;
use engine_rules::{Engine, EngineFault};
use inversion::invert_frontier;
use pareto_search::search;
use schedule::Topology;
use std::alloc::Global;

/// The frontier of a collective over these links, by a search with the engine beside its store (Cai
/// et al., PPoPP 2021, Pareto-optimal schedules). For a reduction the engine searches what copies
/// over the links turned round, and each schedule that it found is inverted.
///
/// The engine is new, and made for the links of [`links_to_search`](crate::links_to_search), the
/// collective and the limits: so for no allreduce, since an engine's question copies. Its record
/// then holds the candidates of the frontier, each with its outcome. [`EngineFault::ShelfFailed`]
/// comes only where the engine's count of faults rose.
pub fn frontier_by<T, E: Engine<T>>(
    alloc: Global,
    engine: &mut E,
    store: &mut T,
    topology: &Topology,
    spec: &Spec,
    limits: Limits,
) -> Result<Frontier, EngineFault>
    requires spec { IsSpec topology.now.nodes spec.now }
    requires question { E.question engine.old ≡ searched_question (record { topology = topology.now; spec = spec.now; limits = limits }) }
    requires empty { E.entries engine.old ≡ [] }
    requires running { E.stopped engine.old ≡ None }
    requires agrees { E.agrees engine.old store.old }
    ensures found { IfOk result (IsFoundBy (record { topology = topology.now; spec = spec.now; limits = limits }) (E.formula engine.new) (E.suits engine.new)) }
    ensures recorded { IfOk result (λ f. IsPermutation (E.entries engine.new) (entries_of f)) }
    ensures within { StaysWithin (E.question engine.old) (E.entries engine.new) (E.stopped engine.new) }
    ensures same { IsSameSearch E.EngineView engine.old E.EngineView engine.new }
    ensures moves { E.moves engine.old store.old engine.new store.new }
    ensures goes_on { OnOk result (CanGoOn (E.stopped engine.new) (E.agrees engine.new store.new)) }
    ensures cause { HasCause EngineFault.ShelfFailed (E.faults engine.old store.old) (E.faults engine.new store.new) result }
{
    let allowed = allowed_counts(alloc, topology.nodes(), spec.kind(), &limits)?;
    let copied = search(alloc, engine, store, &limits, &allowed)?;
    let frontier = asked_frontier(alloc, spec, copied)?;
    Ok(frontier)
}

/// The frontier of a collective, made of that of what was searched in its place: for a reduction
/// each schedule is inverted.
fn asked_frontier(alloc: Global, spec: &Spec, copied: Frontier) -> Result<Frontier, OutOfMemory>
    ensures { IfOk result (λ f. f ≡ asked_frontier spec.now copied) }
{
    if spec.adds_up() {
        return invert_frontier(alloc, &copied);
    }
    Ok(copied)
}
