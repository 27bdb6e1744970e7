//! The candidates that a search tries, one after the other.

ghost use Rattle.std.specs.{Prelude.{◌≡◌, ◌+◌, ◌≤◌, None, OnOk}, List.Sorted.IsStrictlyIncreasing};
ghost use Rattle.outer_ports.specs.Port.{HasCause};
ghost use Rattle.engine_rules.specs.Searches.{CanGoOn, IsSameSearch};
ghost use Rattle.collective_spec.specs.Collectives.{kind_in};
ghost use Rattle.candidate_order.specs.{Listed.AreAllowed, Frontiers.IsWithin};
ghost use Rattle.pareto_search.specs.{inner.Passing.{HasFewerSteps, IsBefore, IsUpTo, HasPassed}, Recorded.StaysWithin};

use crate::findings::Findings;
use candidate_order::{Candidate, Limits, list};
use engine_rules::{Engine, EngineFault};
use std::alloc::Global;

/// Passes a candidate, after all that come before it: settles it, unless a point found so far is no
/// worse.
pub(crate) fn try_candidate<T, E: Engine<T>>(
    engine: &mut E,
    store: &mut T,
    findings: &mut Findings,
    candidate: Candidate,
) -> Result<(), EngineFault>
    requires within { IsWithin (E.question engine.old) candidate }
    requires passed { HasPassed (E.question engine.old) (E.suits engine.old) (IsBefore (E.question engine.old) candidate) (E.entries engine.old) findings.old }
    requires running { E.stopped engine.old ≡ None }
    requires agrees { E.agrees engine.old store.old }
    ensures passed { OnOk result (HasPassed (E.question engine.new) (E.suits engine.new) (IsUpTo (E.question engine.new) candidate) (E.entries engine.new) findings.new) }
    ensures within { StaysWithin (E.question engine.old) (E.entries engine.new) (E.stopped engine.new) }
    ensures same { IsSameSearch E.EngineView engine.old E.EngineView engine.new }
    ensures moves { E.moves engine.old store.old engine.new store.new }
    ensures goes_on { OnOk result (CanGoOn (E.stopped engine.new) (E.agrees engine.new store.new)) }
    ensures cause { HasCause EngineFault.ShelfFailed (E.faults engine.old store.old) (E.faults engine.new store.new) result }
{
    if findings.settles(candidate) {
        return Ok(());
    }
    let outcome = engine.settle(store, candidate)?;
    findings.add(candidate, outcome)?;
    Ok(())
}

/// Passes the candidates of `step` steps, after all that have fewer.
pub(crate) fn try_step<T, E: Engine<T>>(
    alloc: Global,
    engine: &mut E,
    store: &mut T,
    findings: &mut Findings,
    limits: &Limits,
    allowed: &[u8],
    step: u8,
) -> Result<(), EngineFault>
    requires limits { (E.question engine.old).limits ≡ limits.now }
    requires ascending { IsStrictlyIncreasing allowed.now }
    requires allowed { AreAllowed limits.now (kind_in (E.question engine.old).spec) (E.question engine.old).topology.nodes allowed.now }
    requires some_step { 1 ≤ step }
    requires step { step ≤ limits.now.max_s }
    requires passed { HasPassed (E.question engine.old) (E.suits engine.old) (HasFewerSteps (E.question engine.old) step) (E.entries engine.old) findings.old }
    requires running { E.stopped engine.old ≡ None }
    requires agrees { E.agrees engine.old store.old }
    ensures passed { OnOk result (HasPassed (E.question engine.new) (E.suits engine.new) (HasFewerSteps (E.question engine.new) (step + 1)) (E.entries engine.new) findings.new) }
    ensures within { StaysWithin (E.question engine.old) (E.entries engine.new) (E.stopped engine.new) }
    ensures same { IsSameSearch E.EngineView engine.old E.EngineView engine.new }
    ensures moves { E.moves engine.old store.old engine.new store.new }
    ensures goes_on { OnOk result (CanGoOn (E.stopped engine.new) (E.agrees engine.new store.new)) }
    ensures cause { HasCause EngineFault.ShelfFailed (E.faults engine.old store.old) (E.faults engine.new store.new) result }
{
    let candidates = list(alloc, limits, step, allowed)?;
    for candidate in &candidates {
        try_candidate(engine, store, findings, *candidate)?;
    }
    Ok(())
}
