//! Small questions, and what is searched in their place.

ghost use Rattle.std.specs.Prelude.{◌≡◌, [], ◌∷◌};
ghost use Rattle.schedule.specs.Rows.{back_of_2, only, ring_broadcast, ring_reduce};
ghost use Rattle.candidate_order.specs.Rows.{asked, solved_by};
ghost use Rattle.candidate_formula.specs.Searched.{copying_schedule, searched_question};
ghost use Rattle.engine_search.specs.Searched.{asked_frontier};

use collective_spec::Kind;

/// A sum at node 0 over the link from 1 to 0 is searched as a broadcast from 0 over the link from 0
/// to 1, and the schedule that was found for a sum is seen as the broadcast of which it is the
/// inverse.
pub fn a_sum_is_searched_as_its_inverse()
    ensures question { searched_question (asked back_of_2 Kind.Reduce) ≡ asked (record { nodes = 2; groups = only 0 1 1 ∷ [] }) Kind.Broadcast }
    ensures schedule { copying_schedule (asked back_of_2 Kind.Reduce).spec ring_reduce ≡ ring_broadcast }
    ensures frontier { asked_frontier (asked back_of_2 Kind.Reduce).spec (solved_by ring_broadcast) ≡ solved_by ring_reduce }
{}

/// A broadcast is searched as it is.
pub fn a_copy_is_searched_as_it_is()
    ensures question { searched_question (asked back_of_2 Kind.Broadcast) ≡ asked back_of_2 Kind.Broadcast }
    ensures schedule { copying_schedule (asked back_of_2 Kind.Broadcast).spec ring_broadcast ≡ ring_broadcast }
    ensures frontier { asked_frontier (asked back_of_2 Kind.Broadcast).spec (solved_by ring_broadcast) ≡ solved_by ring_broadcast }
{}
