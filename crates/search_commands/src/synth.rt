//! Searches, their reports, and the files that prove them.

ghost use Rattle.std.specs.Prelude.{◌≡◌, ◌≢◌, ◌≤◌, length, IfOk, IsTrue, OnErr, Ok, Err};
ghost use Rattle.outer_ports.specs.Port.{HasCause, Tells};
ghost use Rattle.command_words.specs.Commands.{AreSearchWords};
ghost use Rattle.frontier_audit.specs.Searches.{IsAsked};
ghost use Rattle.run_rules.specs.{Answers.{IsAnswer, IsSearch, LeavesOff}, Commands.IsRefusal, Refusals.Refusal, Tasks.{Synthesise, limit}, Steps.synthesis_asked};

use command_words::SearchWords;
use outer_ports::Shelf;
use report_printing::print_report;
use report_search::search_report;
use run_rules::{Answer, Halt, Search, SearchText, Status, search_of_text};
use std::alloc::Global;

/// Searches, and answers the report. The files that prove it stand on the shelf then; where the
/// search breaks off, it has begun some. With `kept` a candidate that its files refute is not
/// searched, and these files stay, also where it breaks off.
fn search_answer<H: Shelf>(
    alloc: Global,
    search: Search,
    kept: bool,
    shelf: &mut H,
) -> Result<Answer, Halt>
    requires { IsAsked search.words search.topology }
    ensures answers { IfOk result (λ a. IsSearch search.words search.topology kept (record { told = H.tells shelf.new; before = H.file shelf.old; after = H.file shelf.new }) a.status a.text.items) }
    ensures leaves { IsTrue (H.tells shelf.new) → LeavesOff (Ok (Synthesise search.words search.topology kept)) (H.file shelf.old) (H.file shelf.new) }
    ensures done { IfOk result (λ a. a.status ≡ Status.Done) }
    ensures source { result ≢ Err Halt.Source }
    ensures told { Tells (H.tells shelf.old) (H.tells shelf.new) }
    ensures cause { HasCause Halt.Shelf (H.faults shelf.old) (H.faults shelf.new) result }
{
    let report = search_report(alloc, search.words, search.topology, false, kept, shelf)?;
    let text = print_report(alloc, &report)?;
    Ok(Answer {
        status: Status::Done,
        text,
    })
}

/// The answer to the words of a search over a text that came whole: the report, or the refusal of
/// the text, the root, the size or the chunk counts. The shelf is not looked at before the last of
/// these; where there is no answer, a search has begun some of its files at most. With `kept` a
/// candidate that its files refute is not searched, and these files stay, also where there is no
/// answer.
///
/// [`Halt::Shelf`] comes only where the shelf's count of faults rose, and [`Halt::Source`] never.
pub fn synth_answer<H: Shelf>(
    alloc: Global,
    asked: SearchWords,
    kept: bool,
    bytes: &[u8],
    shelf: &mut H,
) -> Result<Answer, Halt>
    requires short { length bytes.now ≤ limit }
    requires proper { AreSearchWords asked }
    ensures answers { IfOk result (λ a. IsAnswer (synthesis_asked asked kept bytes.now) (record { told = H.tells shelf.new; before = H.file shelf.old; after = H.file shelf.new }) a.status a.text.items) }
    ensures leaves { IsTrue (H.tells shelf.new) → OnErr result (LeavesOff (synthesis_asked asked kept bytes.now) (H.file shelf.old) (H.file shelf.new)) }
    ensures untouched { IfOk result (λ a. IsRefusal a.status → shelf.new ≡ shelf.old) }
    ensures last { result ≡ Err Halt.Shelf → (r : Refusal) → synthesis_asked asked kept bytes.now ≡ Err r → ⊥ }
    ensures source { result ≢ Err Halt.Source }
    ensures told { Tells (H.tells shelf.old) (H.tells shelf.new) }
    ensures cause { HasCause Halt.Shelf (H.faults shelf.old) (H.faults shelf.new) result }
{
    match search_of_text(alloc, asked, bytes)? {
        SearchText::Asked(search) => search_answer(alloc, search, kept, shelf),
        SearchText::Refused(answer) => Ok(answer),
    }
}
