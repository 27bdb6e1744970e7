//! The frontier of one collective, with its files.

ghost use Rattle.std.specs.Prelude.{◌≡◌, ◌≢◌, ◌≤◌, true, IfOk, IsTrue};
ghost use Rattle.outer_ports.specs.Port.{HasCause, Tells};
ghost use Rattle.collective_spec.specs.Collectives.{IsSpec, kind_in};
ghost use Rattle.round_encoding.specs.Candidates.{size_limit};
ghost use Rattle.candidate_formula.specs.Sizes.{size_of};
ghost use Rattle.proof_audit.specs.Kept.{KeepsEach};
ghost use Rattle.frontier_audit.specs.Parts.{TakesUpPart};
ghost use Rattle.engine_search.specs.Found.{IsFound};
ghost use Rattle.report_search.specs.Shelved.{IsShelved, IsUncut, MayHaveBegun};

use candidate_order::{Frontier, Limits};
use collective_spec::{Kind, Spec};
use cut_bounds::{CutEngine, Sets, cuts_are_refuted};
use engine_rules::EngineFault;
use engine_search::{frontier_by, links_to_search};
use kept_proofs::KeptEngine;
use outer_ports::{Part, Shelf};
use schedule::Topology;
use std::alloc::Global;

/// The frontier of a collective over these links. The formulas and the proofs are kept on the shelf
/// as files of the part. What is cut away is refuted without them; with `kept` a candidate that its
/// files refute already is not searched, and these stay, also where the search breaks off.
pub(crate) fn single_frontier<H: Shelf>(
    alloc: Global,
    topology: &Topology,
    spec: &Spec,
    limits: Limits,
    part: Part,
    checked: bool,
    kept: bool,
    shelf: &mut H,
) -> Result<Frontier, EngineFault>
    requires spec { IsSpec topology.now.nodes spec.now }
    requires single { kind_in spec.now ≢ Kind.Allreduce }
    requires part { part ≢ Part.Joined }
    requires small { size_of (record { topology = topology.now; spec = spec.now; limits = limits }) ≤ size_limit }
    ensures found { IfOk result (λ f. IsFound (record { topology = topology.now; spec = spec.now; limits = limits }) f) }
    ensures uncut { IfOk result (IsUncut (record { topology = topology.now; spec = spec.now; limits = limits })) }
    ensures told { Tells (H.tells shelf.old) (H.tells shelf.new) }
    ensures shelved { IsTrue (H.tells shelf.new) → IfOk result (λ f. IsShelved part (record { topology = topology.now; spec = spec.now; limits = limits }) f (H.file shelf.old) (H.file shelf.new)) }
    ensures takes { kept ≡ true → IsTrue (H.tells shelf.new) → IfOk result (λ f. TakesUpPart part (record { topology = topology.now; spec = spec.now; limits = limits }) f (H.file shelf.old)) }
    ensures keeps { kept ≡ true → IsTrue (H.tells shelf.new) → KeepsEach part (record { topology = topology.now; spec = spec.now; limits = limits }) (H.file shelf.old) (H.file shelf.new) }
    ensures begun { IsTrue (H.tells shelf.new) → MayHaveBegun part (record { topology = topology.now; spec = spec.now; limits = limits }) (H.file shelf.old) (H.file shelf.new) }
    ensures cause { HasCause EngineFault.ShelfFailed (H.faults shelf.old) (H.faults shelf.new) result }
{
    let links = links_to_search(topology, spec)?;
    let inner = KeptEngine::new(alloc, &links, spec, limits, part, checked, kept)?;
    let sets = Sets::of(limits.pruning());
    let mut engine = CutEngine::new(alloc, inner, &links, spec, sets)?;
    match frontier_by(alloc, &mut engine, shelf, topology, spec, limits) {
        Ok(frontier) => {
            // This says that no point and no unknown candidate is cut, and what the engine below
            // has settled.
            cuts_are_refuted(&engine, &frontier);
            Ok(frontier)
        }
        Err(fault) => Err(fault),
    }
}
