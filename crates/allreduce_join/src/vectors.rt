//! Worked joins: what the definitions say of small points.

ghost use Rattle.std.specs.Prelude.{◌≡◌, [], ◌∷◌};
ghost use Rattle.schedule.specs.Rows.{line_of_2, plan, ring_of_4, met_from_both, pair_allreduce, send};
ghost use Rattle.collective_spec.specs.Layouts.{laid_out};
ghost use Rattle.allreduce_join.specs.{Joins.{Joins, join_of, pairs_of}, Judging.{joined_verdict_of, summed_verdict_of}, Rows.{pair_gather, pair_joined, pair_reduce, point}};

use candidate_order::Mark;
use collective_spec::Layout;
use inversion::SumVerdict;

/// On the line of 2 the one step that adds is joined to the one step that copies, and every chunk
/// is summed everywhere.
pub fn the_line_of_2_joins()
    ensures join { join_of pair_reduce pair_gather ≡ pair_joined }
    ensures verdict { joined_verdict_of line_of_2 2 pair_allreduce 1 ≡ SumVerdict.Sums }
    ensures joins { Joins line_of_2 (pair_reduce ∷ []) (pair_gather ∷ []) (pair_joined ∷ []) }
{}

/// Points are paired where they have one chunk count.
pub fn points_of_one_chunk_count_are_paired()
    ensures { pairs_of (pair_reduce ∷ point 2 3 2 Mark.Open pair_allreduce ∷ []) (point 1 2 2 Mark.Open pair_allreduce ∷ pair_gather ∷ [])
        ≡ (pair_reduce, pair_gather) ∷ (point 2 3 2 Mark.Open pair_allreduce, point 1 2 2 Mark.Open pair_allreduce) ∷ [] }
{}

/// Where both steps copy, no contribution is added; where both add, some count twice.
pub fn the_number_of_adding_steps_counts()
    ensures none { joined_verdict_of line_of_2 2 pair_allreduce 0 ≡ SumVerdict.Missing 0 0 0 }
    ensures both { joined_verdict_of line_of_2 1 (plan (1 ∷ 1 ∷ []) (send 0 1 0 1 ∷ send 0 1 0 2 ∷ [])) 2 ≡ SumVerdict.Twice 0 0 1 }
{}

/// The step that adds sums each chunk at one node, and only both steps sum it at each.
pub fn the_demand_counts()
    ensures scattered { summed_verdict_of line_of_2 (laid_out Layout.Scattered 2 2) pair_reduce.schedule 1 ≡ SumVerdict.Sums }
    ensures early { summed_verdict_of line_of_2 (laid_out Layout.All 2 2) pair_reduce.schedule 1 ≡ SumVerdict.Missing 0 1 0 }
    ensures all { summed_verdict_of line_of_2 (laid_out Layout.All 2 2) pair_allreduce 1 ≡ SumVerdict.Sums }
{}

/// A chunk that comes from both sides in one step clashes where the step copies.
pub fn a_chunk_from_both_sides_clashes()
    ensures copying { joined_verdict_of ring_of_4 1 met_from_both 0 ≡ SumVerdict.Clash 0 0 1 }
    ensures adding { joined_verdict_of ring_of_4 1 met_from_both 1 ≡ SumVerdict.Missing 0 0 2 }
{}
