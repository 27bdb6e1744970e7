//! One try at a candidate.

ghost use Rattle.std.specs.Prelude.{IfOk};
ghost use Rattle.candidate_order.specs.Frontiers.{IsWithin};
ghost use Rattle.candidate_solver.specs.Questions.{asked};
ghost use Rattle.chunk_symmetry.specs.Trying.{IsOrderedOutcome};

use crate::searching::search;
use candidate_formula::encode_candidate;
use candidate_order::{Candidate, Pruning};
use candidate_solver::{Attempt, Found, Question, outcome_of};
use cnf_formula::OutOfMemory;
use std::alloc::Global;

/// Searches for an ordered schedule of a candidate, and gives what came of it with the lines of the
/// search.
pub(crate) fn try_candidate(
    alloc: Global,
    question: &Question,
    candidate: Candidate,
) -> Result<Attempt, OutOfMemory>
    requires { IsWithin (asked question.now) candidate }
    ensures { IfOk result (λ attempt. IsOrderedOutcome (asked question.now) candidate attempt.lines attempt.outcome) }
{
    let order = Pruning {
        cuts: false,
        ordered: true,
    };
    let encoded = encode_candidate(alloc, &question.topology, &question.spec, order, candidate)?;
    let formula = encoded.formula();
    let limit = question.limits.conflicts();
    let Found { answer, lines } = search(alloc, formula, limit)?;
    let outcome = outcome_of(alloc, &encoded.encoding, answer, limit)?;
    Ok(Attempt { outcome, lines })
}
