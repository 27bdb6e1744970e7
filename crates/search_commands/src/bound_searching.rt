//! The search of what words ask for, and what cuts say of it.

ghost use Rattle.std.specs.Prelude.{◌≡◌, ◌≢◌, IfOk, IsTrue};
ghost use Rattle.outer_ports.specs.{Port.{HasCause, Tells}, declared.part.Part.TheVariants.Whole};
ghost use Rattle.candidate_order.specs.Ranges.{unpruned};
ghost use Rattle.report_form.specs.Reports.{question_of, whole_report};
ghost use Rattle.frontier_audit.specs.{OwedFiles.{BreaksOff, Proves}, Searches.IsAsked};
ghost use Rattle.cut_bounds.specs.Parting.{without_cuts};
ghost use Rattle.candidate_formula.specs.Searched.{searched_question};
ghost use Rattle.search_commands.specs.Bounded.{AreBounds};

use crate::bound_finding::find_bounds;
use crate::bounds::Bounds;
use collective_spec::Kind;
use cut_bounds::Sets;
use engine_rules::EngineFault;
use outer_ports::{Part, Shelf};
use report_form::{Words, spec_of_part};
use std::alloc::Global;
use topology_text::NamedTopology;

/// The frontier of what the words ask for on the topology, and what cuts say of it. Each candidate
/// that one of these sets of nodes refutes is refuted without a search, and has no file.
///
/// The files that prove the rest stand on the shelf then, and no other has changed. Where the
/// search breaks off, it has begun some. [`EngineFault::ShelfFailed`] comes only where the shelf's
/// count of faults rose.
pub fn search_bounds<H: Shelf>(
    alloc: Global,
    words: Words,
    topology: &NamedTopology,
    sets: Sets,
    shelf: &mut H,
) -> Result<Bounds, EngineFault>
    requires asked { IsAsked words topology.now }
    requires plain { words.limits.pruning ≡ unpruned }
    requires single { words.collective.kind ≢ Kind.Allreduce }
    ensures bounds { IfOk result (AreBounds sets (question_of words topology.now Whole)) }
    ensures told { Tells (H.tells shelf.old) (H.tells shelf.new) }
    ensures proves { IsTrue (H.tells shelf.new) → IfOk result (λ b. Proves (whole_report words topology.now (without_cuts sets (searched_question (question_of words topology.now Whole)) b.frontier)) (H.file shelf.old) (H.file shelf.new)) }
    ensures begun { IsTrue (H.tells shelf.new) → BreaksOff words topology.now (H.file shelf.old) (H.file shelf.new) }
    ensures cause { HasCause EngineFault.ShelfFailed (H.faults shelf.old) (H.faults shelf.new) result }
{
    let spec = spec_of_part(words, topology, Part::Whole)?;
    let links = topology.topology();
    find_bounds(alloc, links, &spec, words.limits(), sets, shelf)
}
