//! What joins are, and what the verdict on one says.

ghost use Rattle.std.specs.Prelude.{◌≡◌, ◌↔◌, ℕ, List, Contains};
ghost use Rattle.schedule.specs.{Links.TopologyValue, Sends.{ScheduleValue, IsSchedule, IsInRange}, JoinedRuns.AllSummed};
ghost use Rattle.candidate_order.specs.Frontiers.{PointValue};
ghost use Rattle.allreduce_join.specs.{Joins.{IsJoinedPoint, Joins, join_of}, Judging.joined_verdict_of};

use inversion::SumVerdict;

/// No join of two points of one chunk count is left out.
pub fn no_join_is_left_out()
    ensures { (t : TopologyValue) (reduce gather joined : List PointValue) → Joins t reduce gather joined
        → (p q : PointValue) → Contains reduce p → Contains gather q → q.candidate.c ≡ p.candidate.c → Contains joined (join_of p q) }
{}

/// Each joined point is the join of two points of one chunk count, and sums every chunk at every
/// node.
pub fn each_joined_point_joins_two()
    ensures { (t : TopologyValue) (reduce gather joined : List PointValue) → Joins t reduce gather joined
        → (p : PointValue) → Contains joined p → IsJoinedPoint t reduce gather p }
{}

/// The verdict is `Sums` exactly where the schedule fits, never clashes, and sums every chunk at
/// every node.
#[tactic(auto, using(crate::proofs::Told::all_summed_exactly))]
pub fn joined_sums_are_told_exactly()
    ensures { (t : TopologyValue) (chunks : ℕ) (s : ScheduleValue) (adding : ℕ) → IsSchedule s → IsInRange chunks t.nodes s
        → (joined_verdict_of t chunks s adding ≡ SumVerdict.Sums) ↔ AllSummed t chunks s adding }
{}
