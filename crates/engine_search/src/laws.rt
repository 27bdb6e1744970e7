//! What is searched in place of a collective.

ghost use Rattle.std.specs.Prelude.{◌≡◌, ◌≢◌, ◌↔◌, false};
ghost use Rattle.collective_spec.specs.Collectives.{adds_up, kind_in};
ghost use Rattle.candidate_order.specs.Frontiers.{QuestionValue, IsWithin};
ghost use Rattle.candidate_formula.specs.{Formulas.formula_for, Sizes.size_of, Searched.searched_question};

use candidate_order::Candidate;
use collective_spec::Kind;

/// What is searched in place of a collective copies, is as large, and has the same candidates and
/// formulas.
pub fn a_search_asks_for_the_same_candidates()
    ensures copies { (q : QuestionValue) → kind_in q.spec ≢ Kind.Allreduce → adds_up (searched_question q).spec ≡ false }
    ensures size { (q : QuestionValue) → size_of (searched_question q) ≡ size_of q }
    ensures within { (q : QuestionValue) (x : Candidate) → IsWithin (searched_question q) x ↔ IsWithin q x }
    ensures formula { (q : QuestionValue) (x : Candidate) → kind_in q.spec ≢ Kind.Allreduce → formula_for (searched_question q) x ≡ formula_for q x }
{}
