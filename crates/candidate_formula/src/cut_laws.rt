//! Laws of candidates that are cut away.

ghost use Rattle.std.specs.Prelude.{◌≡◌, ◌≢◌, true, false};
ghost use Rattle.collective_spec.specs.Collectives.{adds_up, kind_in};
ghost use Rattle.candidate_order.specs.{Copied.copied_question, Frontiers.{QuestionValue, IsSolvable}};
ghost use Rattle.node_cuts.specs.Cutting.{is_cut, sets_for};
ghost use Rattle.candidate_formula.specs.Pruned.{is_cut_away};

use candidate_order::Candidate;
use collective_spec::Kind;
use node_cuts::laws::cuts_refute;

/// No schedule solves a candidate that is cut away, where what is asked for copies.
#[tactic(auto, using(candidate_order::proofs::Achieved::achieved, crate::proofs::CutAway::copied_cut))]
pub fn what_is_cut_away_has_no_schedule()
    ensures { (q : QuestionValue) (x : Candidate) → adds_up q.spec ≡ false → is_cut_away q x ≡ true → IsSolvable q x → ⊥ }
{
    cuts_refute();
}

/// Nothing is cut away where the question has no cuts made. What copies has its candidates cut over
/// its own links, and a reduction has those of the copying collective of which it is the inverse.
#[tactic(auto, using(crate::proofs::CutAway::never_cut_away, crate::proofs::CutAway::copied_cut, crate::proofs::CutAway::reduced_cut))]
pub fn what_is_searched_is_cut()
    ensures unasked { (q : QuestionValue) (x : Candidate) → q.limits.pruning.cuts ≡ false → is_cut_away q x ≡ false }
    ensures copies { (q : QuestionValue) (x : Candidate) → adds_up q.spec ≡ false → is_cut_away q x ≡ is_cut (sets_for q.limits.pruning) q x }
    ensures reduction { (q : QuestionValue) (x : Candidate) → adds_up q.spec ≡ true → kind_in q.spec ≢ Kind.Allreduce → is_cut_away (copied_question q) x ≡ is_cut_away q x }
{}
