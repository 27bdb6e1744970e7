//! The search, in the order of steps and costs (Cai et al., PPoPP 2021, Pareto-optimal schedules).

ghost use Rattle.std.specs.{Prelude.{◌≡◌, [], None, All, IfOk, OnOk}, List.Sorted.{IsPermutation, IsStrictlyIncreasing}};
ghost use Rattle.outer_ports.specs.Port.{HasCause};
ghost use Rattle.engine_rules.specs.Searches.{CanGoOn, IsSameSearch};
ghost use Rattle.collective_spec.specs.Collectives.{kind_in};
ghost use Rattle.candidate_order.specs.{Listed.AreAllowed, Frontiers.{RightFrontier, Searched}};
ghost use Rattle.pareto_search.specs.Recorded.{StaysWithin, entries_of};

use crate::findings::Findings;
use crate::trying::try_step;
use candidate_order::{Candidate, Frontier, Limits};
use engine_rules::{Engine, EngineFault};
use std::alloc::Global;

/// Settles the candidates within the limits in the order of the search, each that no point found
/// before settles, and gives the frontier: its points, each `Optimal` exactly where every better
/// candidate within the limits was refuted, and the candidates that were refuted or given up.
///
/// The limits are the engine's, and `allowed` holds the chunk counts that they and the engine's
/// collective allow, which ascend. The engine is new: its record is empty.
/// [`EngineFault::ShelfFailed`] comes only where the engine's count of faults rose.
pub fn search<T, E: Engine<T>>(
    alloc: Global,
    engine: &mut E,
    store: &mut T,
    limits: &Limits,
    allowed: &[u8],
) -> Result<Frontier, EngineFault>
    requires limits { (E.question engine.old).limits ≡ limits.now }
    requires ascending { IsStrictlyIncreasing allowed.now }
    requires allowed { AreAllowed limits.now (kind_in (E.question engine.old).spec) (E.question engine.old).topology.nodes allowed.now }
    requires empty { E.entries engine.old ≡ [] }
    requires running { E.stopped engine.old ≡ None }
    requires agrees { E.agrees engine.old store.old }
    ensures right { IfOk result (λ f. RightFrontier (E.question engine.old) f) }
    ensures searched { IfOk result (λ f. Searched (E.question engine.old) f) }
    ensures suits { IfOk result (λ f. All (λ p. E.suits engine.new p.candidate p.schedule) f.points) }
    ensures entries { IfOk result (λ f. IsPermutation (E.entries engine.new) (entries_of f)) }
    ensures within { StaysWithin (E.question engine.old) (E.entries engine.new) (E.stopped engine.new) }
    ensures same { IsSameSearch E.EngineView engine.old E.EngineView engine.new }
    ensures moves { E.moves engine.old store.old engine.new store.new }
    ensures goes_on { OnOk result (CanGoOn (E.stopped engine.new) (E.agrees engine.new store.new)) }
    ensures cause { HasCause EngineFault.ShelfFailed (E.faults engine.old store.old) (E.faults engine.new store.new) result }
{
    let mut findings = Findings::new(alloc);
    for step in 1..limits.max_s() + 1 {
        try_step(alloc, engine, store, &mut findings, limits, allowed, step)?;
    }
    Ok(findings.into_frontier())
}
