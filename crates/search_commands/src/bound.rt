//! Searches that tell their cuts, and the files that prove what no cut refutes.

ghost use Rattle.std.specs.Prelude.{◌≡◌, ◌≢◌, ◌≤◌, length, IfOk, IsTrue, OnErr, Err};
ghost use Rattle.outer_ports.specs.Port.{HasCause, Tells};
ghost use Rattle.command_words.specs.Commands.{AreSearchWords};
ghost use Rattle.candidate_order.specs.Ranges.{unpruned};
ghost use Rattle.frontier_audit.specs.{OwedFiles.BreaksOff, Searches.IsAsked};
ghost use Rattle.run_rules.specs.{Answers.{IsAnswer, LeavesOff}, Bounds.IsBoundAnswer, Commands.IsRefusal, Refusals.Refusal, Tasks.{given_sets, limit}, Steps.bound_asked};

use crate::bound_printing::print_bounds;
use crate::bound_searching::search_bounds;
use collective_spec::Kind;
use command_words::SearchWords;
use cut_bounds::Sets;
use outer_ports::Shelf;
use run_rules::{Answer, Halt, Search, SearchText, Status, search_of_text};
use std::alloc::Global;

/// Every set of nodes, or the listed ones.
fn sets_given(all_sets: bool) -> Sets
    ensures { result ≡ given_sets all_sets }
{
    if all_sets { Sets::All } else { Sets::Listed }
}

/// Searches, and answers the frontier with its cuts and its floor. The files that prove what no cut
/// refutes stand on the shelf then; where the search breaks off, it has begun some.
fn search_answer<H: Shelf>(
    alloc: Global,
    search: Search,
    sets: Sets,
    shelf: &mut H,
) -> Result<Answer, Halt>
    requires asked { IsAsked search.words search.topology }
    requires plain { search.words.limits.pruning ≡ unpruned }
    requires single { search.words.collective.kind ≢ Kind.Allreduce }
    ensures answers { IfOk result (λ a. IsBoundAnswer search.words search.topology sets (record { told = H.tells shelf.new; before = H.file shelf.old; after = H.file shelf.new }) a.status a.text.items) }
    ensures begun { IsTrue (H.tells shelf.new) → BreaksOff search.words search.topology (H.file shelf.old) (H.file shelf.new) }
    ensures done { IfOk result (λ a. a.status ≡ Status.Done) }
    ensures source { result ≢ Err Halt.Source }
    ensures told { Tells (H.tells shelf.old) (H.tells shelf.new) }
    ensures cause { HasCause Halt.Shelf (H.faults shelf.old) (H.faults shelf.new) result }
{
    let bounds = search_bounds(alloc, search.words, &search.topology, sets, shelf)?;
    let text = print_bounds(alloc, search.words, &search.topology, sets, &bounds)?;
    Ok(Answer {
        status: Status::Done,
        text,
    })
}

/// The answer to the words of a search over a text that came whole: the frontier, the cut that
/// refutes each candidate which one refutes, and how many rounds any schedule has at least for its
/// chunk count, by the listed sets of nodes, or with `all_sets` by every set; or the refusal of the
/// text, the root, the size or the chunk counts. The shelf is not looked at before the last of
/// these; where there is no answer, a search has begun some of its files at most.
///
/// [`Halt::Shelf`] comes only where the shelf's count of faults rose, and [`Halt::Source`] never.
pub fn bound_answer<H: Shelf>(
    alloc: Global,
    asked: SearchWords,
    all_sets: bool,
    bytes: &[u8],
    shelf: &mut H,
) -> Result<Answer, Halt>
    requires short { length bytes.now ≤ limit }
    requires proper { AreSearchWords asked }
    requires plain { asked.limits.pruning ≡ unpruned }
    requires single { asked.kind ≢ Kind.Allreduce }
    ensures answers { IfOk result (λ a. IsAnswer (bound_asked asked all_sets bytes.now) (record { told = H.tells shelf.new; before = H.file shelf.old; after = H.file shelf.new }) a.status a.text.items) }
    ensures leaves { IsTrue (H.tells shelf.new) → OnErr result (LeavesOff (bound_asked asked all_sets bytes.now) (H.file shelf.old) (H.file shelf.new)) }
    ensures untouched { IfOk result (λ a. IsRefusal a.status → shelf.new ≡ shelf.old) }
    ensures last { result ≡ Err Halt.Shelf → (r : Refusal) → bound_asked asked all_sets bytes.now ≡ Err r → ⊥ }
    ensures source { result ≢ Err Halt.Source }
    ensures told { Tells (H.tells shelf.old) (H.tells shelf.new) }
    ensures cause { HasCause Halt.Shelf (H.faults shelf.old) (H.faults shelf.new) result }
{
    match search_of_text(alloc, asked, bytes)? {
        SearchText::Asked(search) => search_answer(alloc, search, sets_given(all_sets), shelf),
        SearchText::Refused(answer) => Ok(answer),
    }
}
