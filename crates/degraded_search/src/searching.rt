//! The search over the links that a fault left.

ghost use Rattle.std.specs.{Prelude.{◌≡◌, ◌≢◌, ◌<◌, ◌≤◌, false, length, All, IfOk}, List.Sorted.IsPermutation};
ghost use Rattle.schedule.specs.Judging.{group_at};
ghost use Rattle.collective_spec.specs.Collectives.{IsSpec, kind_in};
ghost use Rattle.round_encoding.specs.Candidates.{size_limit};
ghost use Rattle.candidate_formula.specs.Sizes.{size_of};
ghost use Rattle.pareto_search.specs.Recorded.{entries_of};
ghost use Rattle.node_cuts.specs.Cutting.{is_cut};
ghost use Rattle.link_faults.specs.{Narrowed.narrowed, Carrying.{IsOldRefuted, is_carried, narrowed_question}};
ghost use Rattle.degraded_search.specs.inner.After.{IsFoundAfter};

use crate::OutOfMemory;
use crate::empty_shelf::EmptyShelf;
use crate::fault::LinkFault;
use crate::found::Found;
use candidate_formula::own_links_to_search;
use candidate_order::{Candidate, Frontier, Limits};
use candidate_solver::SatEngine;
use collective_spec::{Kind, Spec};
use cut_bounds::{CutEngine, Sets};
use degraded_links::{CarryEngine, EngineFault, EngineView, carried_is_refuted};
use engine_search::{frontier_by, links_to_search};
use outer_ports::Part;
use schedule::Topology;
use std::alloc::Global;

/// After a whole search no point and no unknown candidate is one that an old one carries, and no
/// unknown candidate is one that a set of nodes refutes. This does nothing.
fn nothing_is_left_open(engine: &CarryEngine<CutEngine<SatEngine>>, frontier: &Frontier)
    requires { IsPermutation (⟦<CarryEngine<CutEngine<SatEngine>> as EngineView>⟧.entries engine.now) (entries_of frontier.now) }
    ensures points { All (λ p. is_carried engine.now.old.items p.candidate ≡ false) frontier.now.points }
    ensures unknown { All (λ u. is_carried engine.now.old.items u.candidate ≡ false) frontier.now.unknown }
    ensures uncut { All (λ u. is_cut engine.now.inner.sets (⟦<CarryEngine<CutEngine<SatEngine>> as EngineView>⟧.question engine.now) u.candidate ≡ false) frontier.now.unknown }
{
    carried_is_refuted(engine, frontier);
    let _within = engine.inner().inner();
}

/// The frontier of a collective over the links that a fault left of the given ones, and which of
/// its refuted candidates the old ones carry; these are refuted without a search, and so are those
/// that a set of nodes refutes over the links that are left, where the limits have cuts made. Of
/// the others no proof is kept. The old candidates had no schedule over the given links. The only
/// error is `OutOfMemory`.
pub(crate) fn search_left(
    alloc: Global,
    given: &Topology,
    left: &Topology,
    spec: &Spec,
    limits: Limits,
    fault: LinkFault,
    old: Vec<Candidate>,
) -> Result<Found, OutOfMemory>
    requires group { fault.group < length given.now.groups }
    requires width { fault.width < (group_at given.now fault.group).width }
    requires left { left.now ≡ narrowed given.now fault.group fault.width }
    requires spec { IsSpec given.now.nodes spec.now }
    requires single { kind_in spec.now ≢ Kind.Allreduce }
    requires small { size_of (record { topology = given.now; spec = spec.now; limits = limits }) ≤ size_limit }
    requires old { All (IsOldRefuted (record { topology = given.now; spec = spec.now; limits = limits })) old.items }
    ensures { IfOk result (IsFoundAfter (narrowed_question (record { topology = given.now; spec = spec.now; limits = limits }) fault.group fault.width) old.items) }
{
    let before = own_links_to_search(given, spec)?;
    let links = links_to_search(left, spec)?;
    let inner = SatEngine::new(alloc, &links, spec, limits, Part::Whole, false)?;
    let cuts = CutEngine::new(alloc, inner, &links, spec, Sets::of(limits.pruning()))?;
    let mut engine = CarryEngine::new(alloc, cuts, before, fault.group, fault.width, old);
    match frontier_by(alloc, &mut engine, &mut EmptyShelf, left, spec, limits) {
        Ok(frontier) => {
            // This says that no unknown candidate is carried or cut, and no point is carried.
            nothing_is_left_open(&engine, &frontier);
            Found::new(alloc, engine.old(), frontier)
        }
        Err(EngineFault::OutOfMemory) => Err(OutOfMemory),
        Err(EngineFault::ShelfFailed) => unreachable!(),
    }
}
