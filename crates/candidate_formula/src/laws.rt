//! Laws of the formula of a candidate.

ghost use Rattle.std.specs.Prelude.{◌≡◌, ◌≢◌, ◌≤◌, ◌↔◌, true, false};
ghost use Rattle.schedule.specs.{Links.{TopologyValue, IsTopology}, Sends.ScheduleValue};
ghost use Rattle.collective_spec.specs.{declared.spec.Spec.Spec, Collectives.{IsSpec, adds_up, kind_in}};
ghost use Rattle.candidate_order.specs.{Ranges.{LimitsValue, IsLimits}, Copied.{copied_spec, copied_question}, Frontiers.{QuestionValue, IsWithin, IsSolvable, IsSolvedBy, instance_for}};
ghost use Rattle.cnf_formula.specs.Formulas.{Satisfiable};
ghost use Rattle.round_encoding.specs.Candidates.{IsCandidate, IsTightSolution, size_of as candidate_size, size_limit};
ghost use Rattle.candidate_formula.specs.{Formulas.{formula_for, ordered_formula_for, HasSuited, Suits}, Sizes.size_of, Questions.{IsSmallQuestion, copying_question}};

use candidate_order::Candidate;
use collective_spec::Kind;

/// The formula of a candidate within the limits of a small question is satisfiable exactly where
/// some schedule solves the candidate, whether or not only ordered schedules are sought.
#[tactic(auto, using(crate::proofs::Exact::formula_exact))]
pub fn formulas_are_exact()
    ensures { (q : QuestionValue) (x : Candidate) → IsSmallQuestion q → IsWithin q x → Satisfiable (formula_for q x) ↔ IsSolvable q x }
{}

/// So is the formula with the clauses of the order, whatever the question has sought.
#[tactic(auto, using(crate::proofs::Exact::ordered_exact))]
pub fn questions_have_exact_ordered_formulas()
    ensures { (q : QuestionValue) (x : Candidate) → IsSmallQuestion q → IsWithin q x → Satisfiable (ordered_formula_for q x) ↔ IsSolvable q x }
{}

/// A candidate within the limits of a small question that some schedule solves is solved by one
/// that has what the question asks beside solving.
#[tactic(auto, using(crate::proofs::Suited::suited_suffice))]
pub fn suited_schedules_suffice()
    ensures { (q : QuestionValue) (x : Candidate) → IsSmallQuestion q → IsWithin q x → IsSolvable q x ↔ HasSuited q x }
{}

/// A candidate within the limits of a small question is a candidate for the question's instance,
/// and no larger than the question.
#[tactic(auto, using(crate::proofs::Sought::candidate_is, crate::proofs::Bounded::candidate_small))]
pub fn candidates_are_small()
    ensures candidate { (q : QuestionValue) (x : Candidate) → IsSmallQuestion q → IsWithin q x → IsCandidate q.topology (instance_for q x).pre (instance_for q x).post x.s x.r }
    ensures size { (q : QuestionValue) (x : Candidate) → IsSmallQuestion q → IsWithin q x → candidate_size q.topology (instance_for q x).pre x.s x.r ≤ size_limit }
{}

/// A schedule that solves the instance of a candidate and wastes no send solves the candidate.
#[tactic(auto, using(crate::proofs::Exact::tight_solves))]
pub fn tight_solutions_solve()
    ensures { (q : QuestionValue) (x : Candidate) (schedule : ScheduleValue) → adds_up q.spec ≡ false
        → IsTightSolution q.topology (instance_for q x).pre (instance_for q x).post schedule x.s x.r → IsSolvedBy q x schedule }
{}

/// Every collective but allreduce may be sought by one that copies: over the links as they are
/// where it copies itself, and over the links turned round where it is a reduction. The question
/// that copies is as large, has the same candidates and the same formulas, and asks the same of
/// schedules beside solving.
pub fn reductions_are_sought_by_copying()
    ensures small { (t : TopologyValue) (s : Spec) (limits : LimitsValue) → IsTopology t → IsSpec t.nodes s → kind_in s ≢ Kind.Allreduce → IsLimits limits
        → size_of (record { topology = t; spec = s; limits = limits }) ≤ size_limit → IsSmallQuestion (copying_question t s limits) }
    ensures within { (q : QuestionValue) (x : Candidate) → IsWithin (copying_question q.topology q.spec q.limits) x ↔ IsWithin q x }
    ensures formula { (q : QuestionValue) (x : Candidate) → adds_up q.spec ≡ true → kind_in q.spec ≢ Kind.Allreduce → formula_for (copied_question q) x ≡ formula_for q x }
    ensures suits { (q : QuestionValue) (x : Candidate) (schedule : ScheduleValue) → Suits (copied_question q) x schedule ↔ Suits q x schedule }
    ensures size { (q : QuestionValue) → size_of (copied_question q) ≡ size_of q }
    ensures stays { (s : Spec) → adds_up s ≡ false → copied_spec s ≡ s }
{}
