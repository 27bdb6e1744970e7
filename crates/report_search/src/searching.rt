//! The search of a whole report.

ghost use Rattle.std.specs.Prelude.{◌≡◌, true, IfOk, IsTrue};
ghost use Rattle.outer_ports.specs.Port.{HasCause, Tells};
ghost use Rattle.frontier_audit.specs.{OwedFiles.{BreaksOff, KeepsProofs, Proves, TakesUpProofs}, Rights.{IsRight, IsSearched}, Searches.IsAsked};

use crate::both::search_both;
use crate::whole::search_whole;
use collective_spec::Kind;
use engine_rules::EngineFault;
use outer_ports::Shelf;
use report_form::{Report, Words};
use std::alloc::Global;
use topology_text::NamedTopology;

/// The report of what the words ask on the topology: a frontier for each part of the collective,
/// and for an allreduce the joins of its two parts. Where the limits allow no chunk count, a
/// frontier is empty. With `checked` a checker sees each proof line before it is kept. What the words
/// ask to be cut away is refuted without a file; with `kept` a candidate that its files refute
/// already is not searched, and these files stay.
///
/// The files that prove the report stand on the shelf then, and no other has changed. Where the
/// search breaks off, it has begun some; with `kept` none of those that refuted a candidate before.
/// [`EngineFault::ShelfFailed`] comes only where the shelf's count of faults rose.
pub fn search_report<H: Shelf>(
    alloc: Global,
    words: Words,
    topology: NamedTopology,
    checked: bool,
    kept: bool,
    shelf: &mut H,
) -> Result<Report, EngineFault>
    requires { IsAsked words topology }
    ensures words { IfOk result (λ r. r.words ≡ words) }
    ensures topology { IfOk result (λ r. r.topology ≡ topology) }
    ensures right { IfOk result IsRight }
    ensures searched { IfOk result IsSearched }
    ensures told { Tells (H.tells shelf.old) (H.tells shelf.new) }
    ensures proves { IsTrue (H.tells shelf.new) → IfOk result (λ r. Proves r (H.file shelf.old) (H.file shelf.new)) }
    ensures takes { kept ≡ true → IsTrue (H.tells shelf.new) → IfOk result (λ r. TakesUpProofs r (H.file shelf.old)) }
    ensures keeps { kept ≡ true → IsTrue (H.tells shelf.new) → KeepsProofs words topology (H.file shelf.old) (H.file shelf.new) }
    ensures begun { IsTrue (H.tells shelf.new) → BreaksOff words topology (H.file shelf.old) (H.file shelf.new) }
    ensures cause { HasCause EngineFault.ShelfFailed (H.faults shelf.old) (H.faults shelf.new) result }
{
    if words.collective().kind == Kind::Allreduce {
        return search_both(alloc, words, topology, checked, kept, shelf);
    }
    search_whole(alloc, words, topology, checked, kept, shelf)
}
