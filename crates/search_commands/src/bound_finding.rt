//! The frontier of one collective, and what cuts say of it.

ghost use Rattle.std.specs.Prelude.{◌≡◌, ◌≢◌, ◌≤◌, IfOk, IsTrue};
ghost use Rattle.outer_ports.specs.{Port.{HasCause, Tells}, declared.part.Part.TheVariants.Whole};
ghost use Rattle.collective_spec.specs.Collectives.{IsSpec, kind_in};
ghost use Rattle.candidate_order.specs.Ranges.{unpruned};
ghost use Rattle.round_encoding.specs.Candidates.{size_limit};
ghost use Rattle.candidate_formula.specs.{Sizes.size_of, Searched.searched_question};
ghost use Rattle.cut_bounds.specs.Parting.{without_cuts};
ghost use Rattle.report_search.specs.Shelved.{IsShelved, MayHaveBegun};
ghost use Rattle.search_commands.specs.Bounded.{AreBounds};

use crate::bounds::Bounds;
use candidate_order::Limits;
use candidate_solver::SatEngine;
use collective_spec::{Kind, Spec};
use cut_bounds::{CutEngine, Sets, cuts_are_refuted, part_refuted};
use engine_rules::EngineFault;
use engine_search::{frontier_by, links_to_search};
use outer_ports::{Part, Shelf};
use schedule::Topology;
use std::alloc::Global;

/// The frontier of a collective over these links, and what the cuts of these sets of nodes say of
/// it: of a reduction they are those over the links turned round. What no cut refutes is searched, and its formulas and proofs
/// are kept on the shelf as files of the one part.
pub(crate) fn find_bounds<H: Shelf>(
    alloc: Global,
    topology: &Topology,
    spec: &Spec,
    limits: Limits,
    sets: Sets,
    shelf: &mut H,
) -> Result<Bounds, EngineFault>
    requires spec { IsSpec topology.now.nodes spec.now }
    requires single { kind_in spec.now ≢ Kind.Allreduce }
    requires plain { limits.pruning ≡ unpruned }
    requires small { size_of (record { topology = topology.now; spec = spec.now; limits = limits }) ≤ size_limit }
    ensures bounds { IfOk result (AreBounds sets (record { topology = topology.now; spec = spec.now; limits = limits })) }
    ensures told { Tells (H.tells shelf.old) (H.tells shelf.new) }
    ensures shelved { IsTrue (H.tells shelf.new) → IfOk result (λ b. IsShelved Whole (record { topology = topology.now; spec = spec.now; limits = limits }) (without_cuts sets (searched_question (record { topology = topology.now; spec = spec.now; limits = limits })) b.frontier) (H.file shelf.old) (H.file shelf.new)) }
    ensures begun { IsTrue (H.tells shelf.new) → MayHaveBegun Whole (record { topology = topology.now; spec = spec.now; limits = limits }) (H.file shelf.old) (H.file shelf.new) }
    ensures cause { HasCause EngineFault.ShelfFailed (H.faults shelf.old) (H.faults shelf.new) result }
{
    let links = links_to_search(topology, spec)?;
    let inner = SatEngine::new(alloc, &links, spec, limits, Part::Whole, false)?;
    let mut engine = CutEngine::new(alloc, inner, &links, spec, sets)?;
    let frontier = frontier_by(alloc, &mut engine, shelf, topology, spec, limits)?;
    // This says that no point and no unknown candidate is cut, and what the engine below has
    // settled.
    cuts_are_refuted(&engine, &frontier);
    let refuted = part_refuted(alloc, &engine, &frontier)?;
    Ok(Bounds {
        frontier,
        refuted,
        floor: engine.floor(),
    })
}
