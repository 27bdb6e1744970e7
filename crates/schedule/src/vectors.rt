//! Worked rows: what the definitions say of small schedules whose runs are known.

ghost use Rattle.std.specs.Prelude.{◌≡◌, [], ◌∷◌, Some, None, map};
ghost use Rattle.schedule.specs.{Links.{IsTopology, reversed_of}, Sends.IsSchedule, Placed.{HeldByOne, IsPlacement, empty_placement}, Running.run_of, Solving.{Solvable, Solves, Tight}, Bags.{contributions, held_at_2, listed, of_placement}};
ghost use Rattle.schedule.specs.{Inverse.inverse_of, Rows.{line_of_2, line_of_3, back_of_2, twice_grouped, only, at_root, everywhere, send, plan, broadcast, ring_broadcast, ring_of_4, ring_reduce, pair_allreduce, met_from_both}};
ghost use Rattle.schedule.specs.{Summing.{Sums, SummedSolvable, bags_after}, JoinedRuns.{AllSummed, Clashes, first_clash, joined_after, joined_run}};

use crate::verdict::Verdict;

/// One send brings the chunk of node 0 to node 1.
pub fn one_send_brings_its_chunk()
    ensures run { run_of (at_root 1 2) (plan (1 ∷ []) (send 0 0 1 1 ∷ []))
        ≡ at_root 1 2 ∷ everywhere 1 2 ∷ [] }
    ensures solves { broadcast line_of_2 1 (1 ∷ []) (send 0 0 1 1 ∷ []) ≡ Verdict.Solves }
{}

/// Without it, and with it turned round, node 1 lacks the chunk.
pub fn no_send_brings_nothing()
    ensures none { broadcast line_of_2 1 (1 ∷ []) [] ≡ Verdict.Lacking 0 1 }
    ensures turned { broadcast line_of_2 1 (1 ∷ []) (send 0 1 0 1 ∷ []) ≡ Verdict.Lacking 0 1 }
{}

/// A send needs a link, in its own direction.
pub fn a_send_needs_its_link()
    ensures { broadcast back_of_2 1 (1 ∷ []) (send 0 0 1 1 ∷ []) ≡ Verdict.NoLink (send 0 0 1 1) }
{}

/// Two chunks do not cross a link of width 1 in one round, but do in two.
pub fn a_link_carries_its_width_in_each_round()
    ensures one_round { broadcast line_of_2 2 (1 ∷ []) (send 0 0 1 1 ∷ send 1 0 1 1 ∷ [])
        ≡ Verdict.Overfull 1 0 2 }
    ensures two_rounds { broadcast line_of_2 2 (2 ∷ []) (send 0 0 1 1 ∷ send 1 0 1 1 ∷ [])
        ≡ Verdict.Solves }
{}

/// A link that stands in two groups is charged in each.
pub fn a_link_is_charged_in_each_group()
    ensures { broadcast twice_grouped 2 (1 ∷ []) (send 0 0 1 1 ∷ send 1 0 1 1 ∷ [])
        ≡ Verdict.Overfull 1 1 2 }
{}

/// A chunk is passed on in a later step than that in which it came, and not in the same.
pub fn a_chunk_is_passed_on_later()
    ensures later { broadcast line_of_3 1 (1 ∷ 1 ∷ []) (send 0 0 1 1 ∷ send 0 1 2 2 ∷ [])
        ≡ Verdict.Solves }
    ensures same { broadcast line_of_3 1 (1 ∷ []) (send 0 0 1 1 ∷ send 0 1 2 1 ∷ [])
        ≡ Verdict.Lacking 0 2 }
{}

/// The topology with its links turned round.
pub fn a_reversed_topology_has_its_links_turned()
    ensures { reversed_of back_of_2 ≡ record { nodes = 2; groups = only 0 1 1 ∷ [] } }
{}

/// The one send is tight, and it shows that the instance can be solved in one step of one round.
pub fn one_send_is_tight()
    ensures tight { Tight (at_root 1 2) (plan (1 ∷ []) (send 0 0 1 1 ∷ [])) }
    ensures solvable { Solvable line_of_2 (at_root 1 2) (everywhere 1 2) 1 1 }
{}

/// The limits of the types have values.
pub fn the_limits_can_be_met()
    ensures topology { IsTopology line_of_2 }
    ensures schedule { IsSchedule (plan (1 ∷ []) (send 0 0 1 1 ∷ [])) }
    ensures placement { IsPlacement (at_root 1 2) }
    ensures none { IsPlacement (empty_placement 1 2) }
{}

/// Where two nodes send each other their chunks twice over, they count twice.
pub fn bags_count_contributions()
    ensures held { listed 1 2 (of_placement (at_root 1 2)) ≡ (1 ∷ 0 ∷ []) ∷ (0 ∷ 0 ∷ []) ∷ [] }
    ensures at_2 { held_at_2 (0 ∷ 1 ∷ 2 ∷ 7 ∷ []) ≡ 0 ∷ 1 ∷ 2 ∷ 2 ∷ [] }
    ensures again { listed 1 2 (bags_after (contributions 2) (send 0 1 0 1 ∷ send 0 1 0 2 ∷ []) 2)
        ≡ (1 ∷ 2 ∷ []) ∷ (0 ∷ 1 ∷ []) ∷ [] }
    ensures same_step { listed 1 2 (bags_after (contributions 2) (send 0 0 1 1 ∷ send 0 1 0 1 ∷ []) 1)
        ≡ (1 ∷ 1 ∷ []) ∷ (1 ∷ 1 ∷ []) ∷ [] }
{}

/// Two nodes add up a chunk each, and then send each other the sums.
pub fn two_nodes_add_and_then_copy()
    ensures step_0 { listed 2 2 (joined_after (contributions 2) pair_allreduce 1 0)
        ≡ (1 ∷ 0 ∷ []) ∷ (0 ∷ 1 ∷ []) ∷ (1 ∷ 0 ∷ []) ∷ (0 ∷ 1 ∷ []) ∷ [] }
    ensures step_1 { listed 2 2 (joined_after (contributions 2) pair_allreduce 1 1)
        ≡ (1 ∷ 1 ∷ []) ∷ (0 ∷ 1 ∷ []) ∷ (1 ∷ 0 ∷ []) ∷ (1 ∷ 1 ∷ []) ∷ [] }
    ensures step_2 { listed 2 2 (joined_after (contributions 2) pair_allreduce 1 2)
        ≡ (1 ∷ 1 ∷ []) ∷ (1 ∷ 1 ∷ []) ∷ (1 ∷ 1 ∷ []) ∷ (1 ∷ 1 ∷ []) ∷ [] }
{}

/// What node 0 has in their run, and that both chunks are summed at both nodes.
pub fn two_nodes_sum_everything()
    ensures run { map (listed 2 1) (joined_run (contributions 2) pair_allreduce 1)
        ≡ ((1 ∷ 0 ∷ []) ∷ (1 ∷ 0 ∷ []) ∷ []) ∷ ((1 ∷ 1 ∷ []) ∷ (1 ∷ 0 ∷ []) ∷ []) ∷ ((1 ∷ 1 ∷ []) ∷ (1 ∷ 1 ∷ []) ∷ []) ∷ [] }
    ensures all { AllSummed line_of_2 2 pair_allreduce 1 }
{}

/// Of two senders the greater is copied, if its bag is not empty, and the two clash. Where the step
/// adds, they don't.
pub fn the_greatest_sender_is_copied()
    ensures copied { joined_after (contributions 4) met_from_both 0 1 (0, 0) ≡ 0 ∷ 0 ∷ 0 ∷ 1 ∷ [] }
    ensures filled { joined_after (of_placement (at_root 1 2)) (plan (1 ∷ []) (send 0 0 1 1 ∷ send 0 1 1 1 ∷ [])) 0 1 (0, 1)
        ≡ 1 ∷ 0 ∷ [] }
    ensures clashes { Clashes met_from_both 0 }
    ensures clash { first_clash 1 4 met_from_both 0 ≡ Some (1, 0, 0) }
    ensures adding { first_clash 1 4 met_from_both 1 ≡ None }
{}

/// The broadcast of two chunks on the ring of 4 is the inverse of their sum, and the other way
/// round.
pub fn a_broadcast_inverts_a_reduce()
    ensures forth { inverse_of ring_broadcast ≡ ring_reduce }
    ensures back { inverse_of (inverse_of ring_broadcast) ≡ ring_broadcast }
    ensures alone { HeldByOne (at_root 2 4) }
    ensures tight { Tight (at_root 2 4) ring_broadcast }
    ensures solves { Solves (reversed_of ring_of_4) (at_root 2 4) (everywhere 2 4) ring_broadcast 2 2 }
    ensures rounds { inverse_of (plan (2 ∷ 1 ∷ []) (send 0 0 1 1 ∷ send 0 1 2 2 ∷ []))
        ≡ plan (1 ∷ 2 ∷ []) (send 0 2 1 1 ∷ send 0 1 0 2 ∷ []) }
{}

/// One send adds the chunk of node 1 to that of node 0: so the sum at node 0 can be had in one step
/// of one round.
pub fn one_send_sums()
    ensures sums { Sums line_of_2 (at_root 1 2) (plan (1 ∷ []) (send 0 1 0 1 ∷ [])) 1 1 }
    ensures solvable { SummedSolvable line_of_2 (at_root 1 2) 1 1 }
{}
