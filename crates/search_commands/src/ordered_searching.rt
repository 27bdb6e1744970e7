//! The frontier of a search for ordered schedules.

ghost use Rattle.std.specs.Prelude.{◌≢◌, ◌≤◌, IfOk};
ghost use Rattle.outer_ports.specs.declared.part.Part.TheVariants.{Whole};
ghost use Rattle.collective_spec.specs.Collectives.{IsSpec, kind_in};
ghost use Rattle.round_encoding.specs.Candidates.{size_limit};
ghost use Rattle.candidate_formula.specs.Sizes.{size_of};
ghost use Rattle.report_form.specs.Reports.{question_of};
ghost use Rattle.frontier_audit.specs.Searches.{IsAsked};
ghost use Rattle.run_rules.specs.Orders.{IsFoundInOrder};

use crate::OutOfMemory;
use candidate_order::{Frontier, Limits};
use chunk_symmetry::OrderedEngine;
use collective_spec::{Kind, Spec};
use engine_search::{EngineFault, frontier_by, links_to_search};
use outer_ports::Part;
use report_form::{Words, spec_of_part};
use schedule::Topology;
use std::alloc::Global;
use topology_text::NamedTopology;

/// The frontier of a collective over these links. No file is written: each proof is checked as it
/// is made.
fn find_ordered(
    alloc: Global,
    topology: &Topology,
    spec: &Spec,
    limits: Limits,
) -> Result<Frontier, OutOfMemory>
    requires spec { IsSpec topology.now.nodes spec.now }
    requires single { kind_in spec.now ≢ Kind.Allreduce }
    requires small { size_of (record { topology = topology.now; spec = spec.now; limits = limits }) ≤ size_limit }
    ensures { IfOk result (IsFoundInOrder (record { topology = topology.now; spec = spec.now; limits = limits })) }
{
    let links = links_to_search(topology, spec)?;
    let mut engine = OrderedEngine::new(alloc, &links, spec, limits)?;
    match frontier_by(alloc, &mut engine, &mut (), topology, spec, limits) {
        Ok(frontier) => Ok(frontier),
        Err(EngineFault::OutOfMemory) => Err(OutOfMemory),
        Err(EngineFault::ShelfFailed) => unreachable!(),
    }
}

/// The frontier of what the words ask for on the topology, by schedules in which chunks that are
/// alike come in the order of their numbers.
pub(crate) fn search_ordered(
    alloc: Global,
    words: Words,
    topology: &NamedTopology,
) -> Result<Frontier, OutOfMemory>
    requires asked { IsAsked words topology.now }
    requires single { words.collective.kind ≢ Kind.Allreduce }
    ensures { IfOk result (IsFoundInOrder (question_of words topology.now Whole)) }
{
    let spec = spec_of_part(words, topology, Part::Whole)?;
    find_ordered(alloc, topology.topology(), &spec, words.limits())
}
