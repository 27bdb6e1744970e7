//! What the definitions give on small questions.

ghost use Rattle.std.specs.Prelude.{◌≡◌, false, Some, [], ◌∷◌};
ghost use Rattle.schedule.specs.{Links.reversed_of, Rows.{back_of_2, ring_of_4}};
ghost use Rattle.candidate_order.specs.{Copied.copied_question, Rows.{asked, at}};
ghost use Rattle.node_cuts.specs.{Floors.floor_of, Cutting.{cut_for, is_cut}, Rows.cut};
ghost use Rattle.cut_bounds.specs.Parting.{cuts_among, uncut_among};

use collective_spec::Kind;
use node_cuts::Sets;

/// Of five candidates of an allgather on the ring of 4 that no schedule solves, node 0 says so of
/// four: three chunks of each node have to come in over two links. Two rounds would do for one
/// chunk, and are no cut's in one step.
pub fn four_of_five_are_cut_on_the_ring_of_4()
    ensures cuts { cuts_among Sets.Listed (asked ring_of_4 Kind.Allgather) (at 1 1 2 ∷ at 1 1 1 ∷ at 1 2 2 ∷ at 1 2 1 ∷ at 2 2 2 ∷ [])
        ≡ (at 1 1 2, cut 1 (2 ∷ 6 ∷ []) 6 2) ∷ (at 1 1 1, cut 1 (2 ∷ 6 ∷ []) 3 2) ∷ (at 1 2 2, cut 1 (2 ∷ 6 ∷ []) 6 2) ∷ (at 2 2 2, cut 1 (2 ∷ 6 ∷ []) 6 2) ∷ [] }
    ensures others { uncut_among Sets.Listed (asked ring_of_4 Kind.Allgather) (at 1 1 2 ∷ at 1 1 1 ∷ at 1 2 2 ∷ at 1 2 1 ∷ at 2 2 2 ∷ []) ≡ at 1 2 1 ∷ [] }
{}

/// A reduce over the link back alone brings its chunk back over the link turned round, and is not
/// cut; a reduce over the other link is, whichever sets are looked at.
pub fn a_reduce_is_cut_over_the_links_turned_round()
    ensures reaches { is_cut Sets.Listed (copied_question (asked back_of_2 Kind.Reduce)) (at 1 1 1) ≡ false }
    ensures cut { cut_for Sets.Listed (copied_question (asked (reversed_of back_of_2) Kind.Reduce)) (at 1 1 1) ≡ Some (cut 2 [] 1 0) }
    ensures all { cut_for Sets.All (copied_question (asked (reversed_of back_of_2) Kind.Reduce)) (at 1 1 1) ≡ Some (cut 2 [] 1 0) }
    ensures floor { floor_of Sets.Listed (reversed_of back_of_2) (asked back_of_2 Kind.Reduce).spec ≡ record { above = 1; below = 1; nodes = 2 } }
{}
