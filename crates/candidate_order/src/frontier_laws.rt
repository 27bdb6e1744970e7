//! What a right frontier says.

ghost use Rattle.std.specs.Prelude.{◌≡◌, true, false, [], All, Contains};
ghost use Rattle.schedule.specs.{Solving.Solves, Summing.Sums};
ghost use Rattle.collective_spec.specs.Collectives.{adds_up, spec_demand, spec_instance};
ghost use Rattle.candidate_order.specs.{Costs.{NoWorse, Better, Before}, Frontiers.{QuestionValue, PointValue, FrontierValue, solved, IsWithin, RightFrontier, Searched}};

use crate::candidate::Candidate;
use crate::mark::Mark;

/// A frontier that says nothing is right only where no candidate is within the limits.
#[tactic(auto, using(crate::proofs::Frontiers::bare_right))]
pub fn nothing_said_is_right_only_of_nothing()
    ensures { (q : QuestionValue) (f : FrontierValue) → RightFrontier q f → f.points ≡ [] → f.refuted ≡ [] → f.unknown ≡ [] → (x : Candidate) → IsWithin q x → ⊥ }
{}

/// Every candidate within the limits that is better than an optimal point is refuted.
#[tactic(auto, using(crate::proofs::Frontiers::better_refuted))]
pub fn better_than_optimal_is_refuted()
    ensures { (q : QuestionValue) (f : FrontierValue) → RightFrontier q f → (p : PointValue) → Contains f.points p → p.mark ≡ Mark.Optimal → (x : Candidate) → IsWithin q x → Better x p.candidate → Contains f.refuted x }
{}

/// No point of a searched frontier is no worse than a later one.
#[tactic(auto, using(crate::proofs::Frontiers::points_differ))]
pub fn no_point_settles_a_later_one()
    ensures { (q : QuestionValue) (f : FrontierValue) → RightFrontier q f → Searched q f → (p : PointValue) → Contains f.points p → (x : Candidate) → Contains (solved f) x → Before x p.candidate → NoWorse x p.candidate → ⊥ }
{}

/// No point of a searched frontier is no worse than another, so none is dominated, and none stands
/// there twice.
pub fn no_point_is_dominated()
    ensures { (q : QuestionValue) (f : FrontierValue) → RightFrontier q f → Searched q f → (a b : PointValue) → Contains f.points a → Contains f.points b → NoWorse a.candidate b.candidate → a ≡ b }
{}

/// No candidate of a right frontier is both a point and refuted.
pub fn no_point_is_refuted()
    ensures { (q : QuestionValue) (f : FrontierValue) → RightFrontier q f → (p : PointValue) → Contains f.points p → Contains f.refuted p.candidate → ⊥ }
{}

/// The schedule of each point of a right frontier does what its collective asks, in the point's
/// steps and rounds.
#[tactic(auto, using(crate::proofs::Frontiers::point_sums, crate::proofs::Frontiers::point_solves))]
pub fn each_point_does_what_is_asked()
    ensures copies { (q : QuestionValue) (f : FrontierValue) → RightFrontier q f → (p : PointValue) → Contains f.points p → adds_up q.spec ≡ false → Solves q.topology (spec_instance q.spec q.topology.nodes p.candidate.c).pre (spec_instance q.spec q.topology.nodes p.candidate.c).post p.schedule p.candidate.s p.candidate.r }
    ensures adds { (q : QuestionValue) (f : FrontierValue) → RightFrontier q f → (p : PointValue) → Contains f.points p → adds_up q.spec ≡ true → Sums q.topology (spec_demand q.spec q.topology.nodes p.candidate.c) p.schedule p.candidate.s p.candidate.r }
{}

/// A point of a right frontier is not left open where every better candidate within the limits is
/// refuted.
#[tactic(auto, using(crate::proofs::Frontiers::open_not_all))]
pub fn open_points_may_be_bettered()
    ensures { (q : QuestionValue) (f : FrontierValue) → RightFrontier q f → (p : PointValue) → Contains f.points p → p.mark ≡ Mark.Open → ((x : Candidate) → IsWithin q x → Better x p.candidate → Contains f.refuted x) → ⊥ }
{}

/// Two right frontiers of one question that were searched in order and leave nothing unknown have
/// points of the same candidates, and the same refuted candidates where these are within the
/// limits. How many points and how many refuted candidates there are then depends on the question
/// alone; the schedules of the points may differ.
pub fn settled_frontiers_agree()
    ensures points { (q : QuestionValue) (f g : FrontierValue) → RightFrontier q f → Searched q f → RightFrontier q g → Searched q g
        → f.unknown ≡ [] → g.unknown ≡ [] → solved f ≡ solved g }
    ensures refuted { (q : QuestionValue) (f g : FrontierValue) → RightFrontier q f → Searched q f → RightFrontier q g → Searched q g
        → All (IsWithin q) f.refuted → All (IsWithin q) g.refuted → f.unknown ≡ [] → g.unknown ≡ [] → f.refuted ≡ g.refuted }
{}
