//! Costs of small candidates, and small frontiers that are right and are those of a search.

ghost use Rattle.std.specs.Prelude.{AllPairs, [], ◌∷◌};
ghost use Rattle.schedule.specs.Rows.{line_of_2, plan, send, two_alone, one_node};
ghost use Rattle.candidate_order.specs.{Costs.{Before, Better, NoWorse}, Frontiers.{RightFrontier, Searched}, Rows.{all_refuted, asked, asked_to_move, at, solved_by}};

use collective_spec::Kind;

/// Candidates by their steps, rounds and chunks: costs are compared as rounds for each chunk.
pub fn costs_of_candidates()
    ensures cheaper { Better (at 2 3 6) (at 3 4 4) }
    ensures fewer_steps { Better (at 2 2 2) (at 3 3 3) }
    ensures fewer_rounds { Better (at 2 3 2) (at 2 5 3) }
    ensures alike { NoWorse (at 1 1 1) (at 1 2 2) }
    ensures not_better { ¬ Better (at 1 1 1) (at 1 2 2) }
    ensures more_steps { ¬ NoWorse (at 3 3 3) (at 2 2 2) }
    ensures dearer { ¬ NoWorse (at 1 3 1) (at 2 2 1) }
{}

/// The candidates of one step, two rounds and two chunks at the most, in the order of a search, and
/// those of two steps of an all-to-all on four nodes.
pub fn candidates_in_order()
    ensures one_step { AllPairs Before (at 1 1 2 ∷ at 1 1 1 ∷ at 1 2 2 ∷ at 1 2 1 ∷ []) }
    ensures alltoall { AllPairs Before (at 2 2 8 ∷ at 2 2 4 ∷ []) }
{}

/// A node that is alone has gathered its one chunk in a step without sends.
pub fn one_node_has_gathered()
    ensures right { RightFrontier (asked one_node Kind.Allgather) (solved_by (plan (1 ∷ []) [])) }
    ensures searched { Searched (asked one_node Kind.Allgather) (solved_by (plan (1 ∷ []) [])) }
{}

/// On the line of 2 one send brings the chunk of node 0 to node 1.
pub fn one_send_broadcasts()
    ensures right { RightFrontier (asked line_of_2 Kind.Broadcast) (solved_by (plan (1 ∷ []) (send 0 0 1 1 ∷ []))) }
    ensures searched { Searched (asked line_of_2 Kind.Broadcast) (solved_by (plan (1 ∷ []) (send 0 0 1 1 ∷ []))) }
{}

/// On the line of 2 one send brings a chunk to where users want it.
pub fn one_send_moves_a_given_chunk()
    ensures right { RightFrontier (asked_to_move line_of_2) (solved_by (plan (1 ∷ []) (send 0 0 1 1 ∷ []))) }
    ensures searched { Searched (asked_to_move line_of_2) (solved_by (plan (1 ∷ []) (send 0 0 1 1 ∷ []))) }
{}

/// On the line of 2 the send back adds the chunk of node 1 to that of node 0.
pub fn one_send_reduces()
    ensures right { RightFrontier (asked line_of_2 Kind.Reduce) (solved_by (plan (1 ∷ []) (send 0 1 0 1 ∷ []))) }
    ensures searched { Searched (asked line_of_2 Kind.Reduce) (solved_by (plan (1 ∷ []) (send 0 1 0 1 ∷ []))) }
{}

/// Between two nodes without a link the one candidate is refuted, for a broadcast and for a sum.
pub fn two_nodes_alone_do_nothing()
    ensures broadcast { RightFrontier (asked two_alone Kind.Broadcast) all_refuted }
    ensures broadcast_searched { Searched (asked two_alone Kind.Broadcast) all_refuted }
    ensures reduce { RightFrontier (asked two_alone Kind.Reduce) all_refuted }
    ensures reduce_searched { Searched (asked two_alone Kind.Reduce) all_refuted }
{}
