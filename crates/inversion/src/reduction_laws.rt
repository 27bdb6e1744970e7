//! When sums can be had: where the chunks can be brought back over the links turned round.

ghost use Rattle.std.specs.Prelude.{◌≡◌, ◌↔◌, ℕ};
ghost use Rattle.schedule.specs.{Links.{TopologyValue, reversed_of}, Placed.{PlacementValue, HeldByOne, IsPlacement}, Solving.{Solvable, Solves, Tight}};
ghost use Rattle.schedule.specs.{Sends.{ScheduleValue, IsSchedule, IsInRange}, Summing.{SummedSolvable, Sums}, Inverse.inverse_of, Rows.everywhere};
ghost use Rattle.inversion.specs.Reductions.{HeldBySome, tightened};

/// A schedule that adds each chunk up where it is demanded: its inverse brings each chunk from
/// there to every node, over the links turned round.
pub fn an_inverse_of_a_sum_solves()
    ensures { (t : TopologyValue) (demand : PlacementValue) (s : ScheduleValue) (steps rounds : ℕ) → demand.nodes ≡ t.nodes → HeldBySome demand
        → IsSchedule s → IsInRange demand.chunks demand.nodes s → Sums t demand s steps rounds
        → Solves (reversed_of t) demand (everywhere demand.chunks demand.nodes) (inverse_of s) steps rounds }
{}

/// Without the sends that are wasted a valid schedule is valid, wastes none, and solves what it
/// solved.
pub fn a_tightened_schedule_solves_the_same()
    ensures valid { (pre : PlacementValue) (s : ScheduleValue) → IsSchedule s → IsSchedule (tightened pre s) }
    ensures in_range { (pre : PlacementValue) (s : ScheduleValue) (chunks nodes : ℕ) → IsInRange chunks nodes s → IsInRange chunks nodes (tightened pre s) }
    ensures tight { (pre : PlacementValue) (s : ScheduleValue) → IsSchedule s → IsInRange pre.chunks pre.nodes s → Tight pre (tightened pre s) }
    ensures solves { (t : TopologyValue) (pre post : PlacementValue) (s : ScheduleValue) (steps rounds : ℕ) → IsSchedule s → IsInRange pre.chunks pre.nodes s
        → Solves t pre post s steps rounds → Solves t pre post (tightened pre s) steps rounds }
{}

/// Each chunk can be summed at the one node that demands it exactly where it can be brought from
/// there to every node, over the links turned round, in as many steps and rounds.
pub fn sums_are_had_where_chunks_are_brought_back()
    ensures { (t : TopologyValue) (demand : PlacementValue) (steps rounds : ℕ) → IsPlacement demand → demand.nodes ≡ t.nodes → HeldByOne demand → HeldBySome demand
        → SummedSolvable t demand steps rounds ↔ Solvable (reversed_of t) demand (everywhere demand.chunks demand.nodes) steps rounds }
{}
