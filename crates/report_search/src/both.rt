//! The report of an allreduce: a part that reduces, a part that gathers, and the joins of their
//! points.

ghost use Rattle.std.specs.Prelude.{◌≡◌, true, IfOk, IsTrue};
ghost use Rattle.outer_ports.specs.Port.{HasCause, Tells};
ghost use Rattle.report_form.specs.Reports.{question_of};
ghost use Rattle.frontier_audit.specs.{OwedFiles.{BreaksOff, KeepsProofs, Proves, TakesUpProofs}, Rights.{IsRight, IsSearched}, Searches.IsAsked};
ghost use Rattle.engine_search.specs.Found.{IsFound};
ghost use Rattle.report_search.specs.inner.Reporting.{both_report};

use crate::OutOfMemory;
use crate::joining::joins;
use crate::part::part_frontier;
use candidate_order::Frontier;
use collective_spec::Kind;
use engine_rules::EngineFault;
use outer_ports::{Part, Shelf};
use report_form::{Report, Words};
use std::alloc::Global;
use topology_text::NamedTopology;

/// The report of what was found in the two parts, with the joins of their points.
fn report_of(
    alloc: Global,
    words: Words,
    topology: NamedTopology,
    reduce: Frontier,
    gather: Frontier,
) -> Result<Report, OutOfMemory>
    requires asked { IsAsked words topology }
    requires kind { words.collective.kind ≡ Kind.Allreduce }
    requires reduce { IsFound (question_of words topology Part.Reduce) reduce }
    requires gather { IsFound (question_of words topology Part.Gather) gather }
    ensures { IfOk result (λ r. r ≡ both_report words topology reduce gather) }
{
    let joined = joins(alloc, reduce.points(), gather.points())?;
    let frontiers = vec![in alloc; (Part::Reduce, reduce), (Part::Gather, gather)]?;
    Ok(Report::new(words, topology, frontiers, joined))
}

/// The report of the search of an allreduce, with the files of its two parts on the shelf. Where
/// the search breaks off, it has begun some; with `kept` none of those that refuted a candidate
/// before.
pub(crate) fn search_both<H: Shelf>(
    alloc: Global,
    words: Words,
    topology: NamedTopology,
    checked: bool,
    kept: bool,
    shelf: &mut H,
) -> Result<Report, EngineFault>
    requires asked { IsAsked words topology }
    requires kind { words.collective.kind ≡ Kind.Allreduce }
    ensures words { IfOk result (λ r. r.words ≡ words) }
    ensures topology { IfOk result (λ r. r.topology ≡ topology) }
    ensures right { IfOk result IsRight }
    ensures searched { IfOk result IsSearched }
    ensures told { Tells (H.tells shelf.old) (H.tells shelf.new) }
    ensures proves { IsTrue (H.tells shelf.new) → IfOk result (λ r. Proves r (H.file shelf.old) (H.file shelf.new)) }
    ensures takes { kept ≡ true → IsTrue (H.tells shelf.new) → IfOk result (λ r. TakesUpProofs r (H.file shelf.old)) }
    ensures keeps { kept ≡ true → IsTrue (H.tells shelf.new) → KeepsProofs words topology (H.file shelf.old) (H.file shelf.new) }
    ensures begun { IsTrue (H.tells shelf.new) → BreaksOff words topology (H.file shelf.old) (H.file shelf.new) }
    ensures cause { HasCause EngineFault.ShelfFailed (H.faults shelf.old) (H.faults shelf.new) result }
{
    let reduce = part_frontier(alloc, words, &topology, Part::Reduce, checked, kept, shelf)?;
    let gather = part_frontier(alloc, words, &topology, Part::Gather, checked, kept, shelf)?;
    let report = report_of(alloc, words, topology, reduce, gather)?;
    Ok(report)
}
