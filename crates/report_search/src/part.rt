//! The frontier of a part of a report.

ghost use Rattle.std.specs.Prelude.{◌≡◌, true, Contains, IfOk, IsTrue};
ghost use Rattle.outer_ports.specs.Port.{HasCause, Tells};
ghost use Rattle.report_form.specs.Reports.{parts_of, question_of};
ghost use Rattle.frontier_audit.specs.{OwedFiles.{BreaksOff, KeepsProofs}, Parts.TakesUpPart, Searches.IsAsked};
ghost use Rattle.engine_search.specs.Found.{IsFound};
ghost use Rattle.report_search.specs.Shelved.{IsShelved, IsUncut};

use crate::single::single_frontier;
use candidate_order::Frontier;
use engine_rules::EngineFault;
use outer_ports::{Part, Shelf};
use report_form::{Words, spec_of_part};
use std::alloc::Global;
use topology_text::NamedTopology;

/// The frontier of a part of what the words ask, with its files on the shelf. Where the search
/// breaks off, it has begun some; with `kept` none of those that refuted a candidate before.
pub(crate) fn part_frontier<H: Shelf>(
    alloc: Global,
    words: Words,
    topology: &NamedTopology,
    part: Part,
    checked: bool,
    kept: bool,
    shelf: &mut H,
) -> Result<Frontier, EngineFault>
    requires asked { IsAsked words topology.now }
    requires part { Contains (parts_of words.collective.kind) part }
    ensures found { IfOk result (λ f. IsFound (question_of words topology.now part) f) }
    ensures uncut { IfOk result (IsUncut (question_of words topology.now part)) }
    ensures told { Tells (H.tells shelf.old) (H.tells shelf.new) }
    ensures shelved { IsTrue (H.tells shelf.new) → IfOk result (λ f. IsShelved part (question_of words topology.now part) f (H.file shelf.old) (H.file shelf.new)) }
    ensures takes { kept ≡ true → IsTrue (H.tells shelf.new) → IfOk result (λ f. TakesUpPart part (question_of words topology.now part) f (H.file shelf.old)) }
    ensures keeps { kept ≡ true → IsTrue (H.tells shelf.new) → KeepsProofs words topology.now (H.file shelf.old) (H.file shelf.new) }
    ensures begun { IsTrue (H.tells shelf.new) → BreaksOff words topology.now (H.file shelf.old) (H.file shelf.new) }
    ensures cause { HasCause EngineFault.ShelfFailed (H.faults shelf.old) (H.faults shelf.new) result }
{
    let spec = spec_of_part(words, topology, part)?;
    let links = topology.topology();
    single_frontier(
        alloc,
        links,
        &spec,
        words.limits(),
        part,
        checked,
        kept,
        shelf,
    )
}
