//! Searches that are too large, or that have no candidate.

ghost use Rattle.std.specs.Prelude.{◌≡◌, ◌==◌, length, true, IfOk};
ghost use Rattle.collective_spec.specs.Collectives.{fits_kind};
ghost use Rattle.candidate_formula.specs.{Counts.chunk_counts, Sizes.size_of};
ghost use Rattle.run_rules.specs.{Tasks.searchable, Steps.whole_question, Read.IsSearchableAs};

use crate::OutOfMemory;
use crate::answer::{Answer, refusal};
use crate::status::Status;
use candidate_formula::{allowed_counts, size_number};
use outer_ports::Part;
use report_form::{Words, spec_of_part};
use std::alloc::Global;
use topology_text::NamedTopology;

/// The greatest size of a search.
const SIZE_LIMIT: u64 = 2_000_000;

/// The size of a search of these words over the topology.
fn size_of_search(words: Words, topology: &NamedTopology) -> Result<u64, OutOfMemory>
    ensures { IfOk result (λ size. size ≡ size_of (whole_question words topology.now)) }
{
    let spec = spec_of_part(words, topology, Part::Whole)?;
    size_number(topology.topology(), &spec, &words.limits())
}

/// Whether no chunk count is allowed in a search of these words over the topology.
fn has_no_count(alloc: Global, words: Words, topology: &NamedTopology) -> Result<bool, OutOfMemory>
    requires { fits_kind words.collective.kind topology.now.custom ≡ true }
    ensures { IfOk result (λ none. none ≡ (length (chunk_counts (whole_question words topology.now)) == 0)) }
{
    let nodes = topology.topology().nodes();
    let counts = allowed_counts(alloc, nodes, words.collective().kind, &words.limits())?;
    Ok(counts.is_empty())
}

/// The answer that refuses a search of these words over the topology: it is too large, or no chunk
/// count is allowed. `None` where it can be done.
pub fn search_refusal(
    alloc: Global,
    words: Words,
    topology: &NamedTopology,
) -> Result<Option<Answer>, OutOfMemory>
    requires { fits_kind words.collective.kind topology.now.custom ≡ true }
    ensures { IfOk result (IsSearchableAs (searchable (whole_question words topology.now))) }
{
    let size = size_of_search(words, topology)?;
    if size > SIZE_LIMIT {
        return Ok(Some(refusal(alloc, Status::TooLarge, 0, size)?));
    }
    if has_no_count(alloc, words, topology)? {
        return Ok(Some(refusal(alloc, Status::NoCandidate, 0, 0)?));
    }
    Ok(None)
}
