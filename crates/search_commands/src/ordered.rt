//! The answer of a search for ordered schedules.

ghost use Rattle.std.specs.Prelude.{◌≡◌, ◌≢◌, ◌≤◌, length, IfOk};
ghost use Rattle.candidate_order.specs.Ranges.{unpruned};
ghost use Rattle.command_words.specs.Commands.{AreSearchWords};
ghost use Rattle.frontier_audit.specs.Searches.{IsAsked};
ghost use Rattle.run_rules.specs.{Answers.{FilesValue, IsAnswerAlone, Stay}, Orders.IsOrderedAnswer, Tasks.limit, Steps.order_asked};

use crate::OutOfMemory;
use crate::ordered_printing::print_ordered;
use crate::ordered_searching::search_ordered;
use collective_spec::Kind;
use command_words::SearchWords;
use run_rules::{Answer, Search, SearchText, Status, search_of_text};
use std::alloc::Global;

/// Searches, and answers the frontier.
fn search_answer(alloc: Global, search: &Search) -> Result<Answer, OutOfMemory>
    requires asked { IsAsked search.now.words search.now.topology }
    requires single { search.now.words.collective.kind ≢ Kind.Allreduce }
    ensures { IfOk result (λ a. (files : FilesValue) → Stay files → IsOrderedAnswer search.now.words search.now.topology files a.status a.text.items) }
{
    let frontier = search_ordered(alloc, search.words, &search.topology)?;
    let text = print_ordered(alloc, search.words, &search.topology, &frontier)?;
    Ok(Answer {
        status: Status::Done,
        text,
    })
}

/// The answer to the words of a search over a text that came whole: the frontier, with schedules in
/// which chunks that are alike come in the order of their numbers; or the refusal of the text, the
/// root, the size or the chunk counts.
///
/// The words leave nothing out: every search of this command is in order. The proofs are checked as
/// they are made, and none is kept. The only error is `OutOfMemory`.
pub fn ordered_answer(
    alloc: Global,
    asked: SearchWords,
    bytes: &[u8],
) -> Result<Answer, OutOfMemory>
    requires short { length bytes.now ≤ limit }
    requires proper { AreSearchWords asked }
    requires single { asked.kind ≢ Kind.Allreduce }
    requires plain { asked.limits.pruning ≡ unpruned }
    ensures { IfOk result (λ a. IsAnswerAlone (order_asked asked bytes.now) a.status a.text.items) }
{
    match search_of_text(alloc, asked, bytes)? {
        SearchText::Asked(search) => search_answer(alloc, &search),
        SearchText::Refused(answer) => Ok(answer),
    }
}
