//! What makes a join sum everything everywhere.

ghost use Rattle.std.specs.Prelude.{◌≡◌, ℕ, ◌+◌, ◌<◌, ◌≤◌, map, length, sum};
ghost use Rattle.schedule.specs.{Links.{TopologyValue, reversed_of}, Placed.PlacementValue, Sends.{ScheduleValue, IsSchedule, IsInRange}, Summing.Sums, Solving.{Solves, Tight}, JoinedRuns.AllSummed, Rows.everywhere};
ghost use Rattle.collective_spec.specs.Collectives.{chunks_of};
ghost use Rattle.candidate_order.specs.{Ranges.LimitsValue, Frontiers.{FrontierValue, IsSolvedBy, PointValue, RightFrontier, Searched, instance_for}};
ghost use Rattle.inversion.specs.Inverted.{inverted_frontier};
ghost use Rattle.allreduce_join.specs.{Joins.{Joins, join_of, one_after, pairs_of}, Parts.{gather_part, reduce_part}};

use collective_spec::Kind;

/// A schedule that adds each chunk up where it is demanded, and then one that brings it from there
/// to every node and wastes no send: the one after the other sums every chunk at every node, on the
/// topology as it is.
pub fn one_after_the_other_sums_everything()
    ensures { (t : TopologyValue) (demand : PlacementValue) (p q : ScheduleValue) (steps rounds count all_rounds : ℕ) → 0 < t.nodes → demand.nodes ≡ t.nodes
        → IsSchedule p → Sums t demand p steps rounds
        → IsSchedule q → IsInRange demand.chunks demand.nodes q → Tight demand q → Solves t demand (everywhere demand.chunks demand.nodes) q count all_rounds
        → AllSummed t demand.chunks (one_after steps p q) steps }
{}

/// One valid schedule after another is valid, where there are at most 16 steps in all, and has the
/// steps and the rounds of both.
pub fn one_after_the_other_is_a_schedule()
    ensures valid { (p q : ScheduleValue) → IsSchedule p → IsSchedule q → length p.rounds + length q.rounds ≤ 16 → IsSchedule (one_after (length p.rounds) p q) }
    ensures in_range { (chunks nodes steps : ℕ) (p q : ScheduleValue) → IsInRange chunks nodes p → IsInRange chunks nodes q → IsInRange chunks nodes (one_after steps p q) }
    ensures sizes { (steps : ℕ) (p q : ScheduleValue) → (length (one_after steps p q).rounds ≡ length p.rounds + length q.rounds) × (sum (one_after steps p q).rounds ≡ sum p.rounds + sum q.rounds) }
{}

/// A point that adds each chunk up at its node, and one that brings it from there everywhere and
/// wastes no send, have their join.
pub fn two_points_have_their_join()
    ensures { (root : ℕ) (t : TopologyValue) (limits : LimitsValue) (a b : PointValue) → 0 < t.nodes
        → IsSolvedBy (reduce_part root t limits) a.candidate a.schedule → IsSolvedBy (gather_part root t limits) b.candidate b.schedule
        → Tight (instance_for (gather_part root t limits) b.candidate).pre b.schedule → b.candidate.c ≡ a.candidate.c
        → AllSummed t (chunks_of Kind.Allreduce t.nodes a.candidate.c) (join_of a b).schedule a.candidate.s }
{}

/// The points of right frontiers of the two parts of an allreduce, of which the second wastes no
/// send, have all their joins.
pub fn right_frontiers_have_their_joins()
    ensures { (root : ℕ) (t : TopologyValue) (limits : LimitsValue) (f g : FrontierValue) → 0 < t.nodes
        → RightFrontier (reduce_part root t limits) f → RightFrontier (gather_part root t limits) g → Searched (gather_part root t limits) g
        → Joins t f.points g.points (map (λ pair. join_of pair.0 pair.1) (pairs_of f.points g.points)) }
{}

/// So an allreduce is had from two right and searched frontiers of an allgather: that over the
/// links turned round, inverted, and that over the links as they are.
pub fn an_allreduce_is_had_from_two_allgathers()
    ensures right { (root : ℕ) (t : TopologyValue) (limits : LimitsValue) (f : FrontierValue) → root < t.nodes
        → RightFrontier (gather_part root (reversed_of t) limits) f → Searched (gather_part root (reversed_of t) limits) f → RightFrontier (reduce_part root t limits) (inverted_frontier f) }
    ensures searched { (root : ℕ) (t : TopologyValue) (limits : LimitsValue) (f : FrontierValue) → root < t.nodes
        → RightFrontier (gather_part root (reversed_of t) limits) f → Searched (gather_part root (reversed_of t) limits) f → Searched (reduce_part root t limits) (inverted_frontier f) }
    ensures joins { (root : ℕ) (t : TopologyValue) (limits : LimitsValue) (f g : FrontierValue) → root < t.nodes
        → RightFrontier (gather_part root (reversed_of t) limits) f → Searched (gather_part root (reversed_of t) limits) f
        → RightFrontier (gather_part root t limits) g → Searched (gather_part root t limits) g
        → Joins t (inverted_frontier f).points g.points (map (λ pair. join_of pair.0 pair.1) (pairs_of (inverted_frontier f).points g.points)) }
{}
