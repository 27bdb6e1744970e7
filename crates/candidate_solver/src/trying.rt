//! One try at a candidate.

ghost use Rattle.std.specs.Prelude.{◌≢◌, IsTrue, IfOk};
ghost use Rattle.outer_ports.specs.Port.{HasCause, Tells};
ghost use Rattle.candidate_order.specs.Frontiers.{IsWithin};
ghost use Rattle.candidate_formula.specs.Formulas.{formula_for};
ghost use Rattle.candidate_solver.specs.{Questions.asked, Kept.HasFiles, Trying.{BeginsOwn, IsOutcome}};
ghost use Rattle.engine_rules.specs.Outcomes.{kind_of};

use crate::attempt::{Attempt, Found, outcome_of};
use crate::files::tidy;
use crate::question::Question;
use crate::searching::search;
use candidate_formula::encode_candidate;
use candidate_order::Candidate;
use engine_rules::{EngineFault, Settled};
use outer_ports::{Part, Shelf};
use std::alloc::Global;

/// Searches for a schedule of a candidate, and keeps its formula and the lines that prove the
/// outcome on the shelf. No file but those of the candidate is changed.
pub(crate) fn try_candidate<H: Shelf>(
    alloc: Global,
    question: &Question,
    part: Part,
    checked: bool,
    store: &mut H,
    candidate: Candidate,
) -> Result<Attempt, EngineFault>
    requires part { part ≢ Part.Joined }
    requires within { IsWithin (asked question.now) candidate }
    ensures told { Tells (H.tells store.old) (H.tells store.new) }
    ensures begins { IsTrue (H.tells store.new) → BeginsOwn (formula_for (asked question.now) candidate) part candidate (H.file store.old) (H.file store.new) }
    ensures files { IsTrue (H.tells store.new) → IfOk result (λ attempt. HasFiles part (asked question.now) (H.file store.new) (candidate, kind_of attempt.outcome)) }
    ensures outcome { IfOk result (λ attempt. IsOutcome (asked question.now) candidate (formula_for (asked question.now) candidate) attempt.lines attempt.outcome) }
    ensures cause { HasCause EngineFault.ShelfFailed (H.faults store.old) (H.faults store.new) result }
{
    let pruning = question.limits.pruning();
    let encoded = encode_candidate(
        alloc,
        &question.topology,
        &question.spec,
        pruning,
        candidate,
    )?;
    let formula = encoded.formula();
    let limit = question.limits.conflicts();
    let Found { answer, lines } = search(alloc, formula, limit, checked, store, part, candidate)?;
    let outcome = outcome_of(alloc, &encoded.encoding, answer, limit)?;
    tidy(store, part, candidate, Settled::of(&outcome), &lines)?;
    Ok(Attempt { outcome, lines })
}
