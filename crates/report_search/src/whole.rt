//! The report of a collective that is searched in one part.

ghost use Rattle.std.specs.Prelude.{◌≡◌, ◌≢◌, true, IfOk, IsTrue};
ghost use Rattle.outer_ports.specs.Port.{HasCause, Tells};
ghost use Rattle.report_form.specs.Reports.{question_of, whole_report};
ghost use Rattle.frontier_audit.specs.{OwedFiles.{BreaksOff, KeepsProofs, Proves, TakesUpProofs}, Rights.{IsRight, IsSearched}, Searches.IsAsked};
ghost use Rattle.engine_search.specs.Found.{IsFound};

use crate::OutOfMemory;
use crate::part::part_frontier;
use candidate_order::Frontier;
use collective_spec::Kind;
use engine_rules::EngineFault;
use outer_ports::{Part, Shelf};
use report_form::{Report, Words};
use std::alloc::Global;
use topology_text::NamedTopology;

/// The report of what was found in the one part.
fn report_of(
    alloc: Global,
    words: Words,
    topology: NamedTopology,
    frontier: Frontier,
) -> Result<Report, OutOfMemory>
    requires asked { IsAsked words topology }
    requires single { words.collective.kind ≢ Kind.Allreduce }
    requires found { IsFound (question_of words topology Part.Whole) frontier }
    ensures { IfOk result (λ r. r ≡ whole_report words topology frontier) }
{
    let frontiers = vec![in alloc; (Part::Whole, frontier)]?;
    Ok(Report::new(words, topology, frontiers, Vec::new(alloc)))
}

/// The report of a search in one part, with its files on the shelf. Where the search breaks off, it
/// has begun some; with `kept` none of those that refuted a candidate before.
pub(crate) fn search_whole<H: Shelf>(
    alloc: Global,
    words: Words,
    topology: NamedTopology,
    checked: bool,
    kept: bool,
    shelf: &mut H,
) -> Result<Report, EngineFault>
    requires asked { IsAsked words topology }
    requires single { words.collective.kind ≢ Kind.Allreduce }
    ensures words { IfOk result (λ r. r.words ≡ words) }
    ensures topology { IfOk result (λ r. r.topology ≡ topology) }
    ensures right { IfOk result IsRight }
    ensures searched { IfOk result IsSearched }
    ensures told { Tells (H.tells shelf.old) (H.tells shelf.new) }
    ensures proves { IsTrue (H.tells shelf.new) → IfOk result (λ r. Proves r (H.file shelf.old) (H.file shelf.new)) }
    ensures takes { kept ≡ true → IsTrue (H.tells shelf.new) → IfOk result (λ r. TakesUpProofs r (H.file shelf.old)) }
    ensures keeps { kept ≡ true → IsTrue (H.tells shelf.new) → KeepsProofs words topology (H.file shelf.old) (H.file shelf.new) }
    ensures begun { IsTrue (H.tells shelf.new) → BreaksOff words topology (H.file shelf.old) (H.file shelf.new) }
    ensures cause { HasCause EngineFault.ShelfFailed (H.faults shelf.old) (H.faults shelf.new) result }
{
    let frontier = part_frontier(alloc, words, &topology, Part::Whole, checked, kept, shelf)?;
    let report = report_of(alloc, words, topology, frontier)?;
    Ok(report)
}
