//! Laws of placements, runs and topologies, for those who build on the definitions.

ghost use Rattle.std.specs.Prelude.{◌≡◌, ◌↔◌, ◌<◌, ◌≤◌, ◌||◌, ℕ, Bool, List, None, length, sum, slice_index_or};
ghost use Rattle.schedule.specs.{Links.{TopologyValue, reversed_of}, Placed.{PlacementValue, HeldByOne, IsPlacement, holds, placed, same_pair, with_pair}, Running.{after, run_of}, Sends.{ScheduleValue, IsSchedule, IsInRange}, Fitting.Fits};
ghost use Rattle.schedule.specs.{Judging.{first_unlinked, first_overfull}, Solving.{Solvable, Solves, Tight}, Bags.contributions, Summing.{SummedSolvable, Sums, bags_after}, Inverse.inverse_of};
ghost use Rattle.schedule.specs.{JoinedRuns.{Clashes, first_clash, joined_after}, Rows.{at_root, everywhere, two_alone}};

use crate::hop::Hop;

/// The placement of a test holds the pairs in range that pass it.
pub fn a_test_gives_a_placement()
    ensures held { (chunks nodes : ℕ) (test : ℕ × ℕ → Bool) (pair : ℕ × ℕ) → pair.0 < chunks → pair.1 < nodes
        → holds (placed chunks nodes test) pair ≡ test pair }
    ensures placement { (chunks nodes : ℕ) (test : ℕ × ℕ → Bool) → IsPlacement (placed chunks nodes test) }
{}

/// A pair that was added is held, and every other as before.
pub fn an_added_pair_is_held()
    ensures held { (p : PlacementValue) (added pair : ℕ × ℕ) → pair.0 < p.chunks → pair.1 < p.nodes
        → holds (with_pair p added) pair ≡ (same_pair added pair || holds p pair) }
    ensures placement { (p : PlacementValue) (added : ℕ × ℕ) → IsPlacement (with_pair p added) }
{}

/// Placements of one size that hold the same pairs are the same.
#[tactic(auto, using(crate::proofs::Placing::same_placement))]
pub fn placements_are_sets()
    ensures { (p q : PlacementValue) → IsPlacement p → IsPlacement q → p.chunks ≡ q.chunks → p.nodes ≡ q.nodes
        → ((pair : ℕ × ℕ) → pair.0 < p.chunks → pair.1 < p.nodes → holds p pair ≡ holds q pair) → p ≡ q }
{}

/// Each placement of a run is what is held after its step, and has the size of the first.
pub fn a_run_keeps_the_size()
    ensures each { (pre last : PlacementValue) (s : ScheduleValue) (n : ℕ) → n ≤ length s.rounds
        → slice_index_or (run_of pre s) n last ≡ after pre s n }
    ensures chunks { (pre : PlacementValue) (s : ScheduleValue) (n : ℕ) → (after pre s n).chunks ≡ pre.chunks }
    ensures nodes { (pre : PlacementValue) (s : ScheduleValue) (n : ℕ) → (after pre s n).nodes ≡ pre.nodes }
    ensures placement { (pre : PlacementValue) (s : ScheduleValue) (n : ℕ) → IsPlacement pre
        → IsPlacement (after pre s n) }
{}

/// Turning each link round twice gives the topology back.
#[tactic(auto, using(crate::proofs::Reversing::reversed_twice))]
pub fn reversing_twice_changes_nothing()
    ensures { (t : TopologyValue) → reversed_of (reversed_of t) ≡ t }
{}

/// A schedule fits exactly where no send lacks its link, and no group is over its bandwidth.
pub fn a_schedule_fits_where_nothing_fails()
    ensures { (t : TopologyValue) (s : ScheduleValue) → Fits t s ↔ ((first_unlinked t s ≡ None) × (first_overfull t s ≡ None)) }
{}

/// A bag always has a count for each node.
#[tactic(auto, using(crate::proofs::Bagging::counted_after, crate::proofs::Bagging::counted_run))]
pub fn a_bag_counts_each_node()
    ensures adding { (nodes : ℕ) (sends : List Hop) (n : ℕ) (pair : ℕ × ℕ) → length (bags_after (contributions nodes) sends n pair) ≡ nodes }
    ensures joined { (nodes : ℕ) (s : ScheduleValue) (adding n : ℕ) (pair : ℕ × ℕ) → length (joined_after (contributions nodes) s adding n pair) ≡ nodes }
{}

/// Between two nodes without a link no chunk is brought and no sum is had, however many steps and
/// rounds there are.
pub fn nothing_is_done_without_links()
    ensures brought { (steps rounds : ℕ) → Solvable two_alone (at_root 1 2) (everywhere 1 2) steps rounds → ⊥ }
    ensures summed { (steps rounds : ℕ) → SummedSolvable two_alone (at_root 1 2) steps rounds → ⊥ }
{}

/// The first clash is found exactly where there is one.
#[tactic(auto, using(crate::proofs::Clashing::no_clash_from_none, crate::proofs::Clashing::none_from_no_clash))]
pub fn a_clash_is_found()
    ensures { (chunks nodes : ℕ) (s : ScheduleValue) (adding : ℕ) → IsSchedule s → IsInRange chunks nodes s
        → (first_clash chunks nodes s adding ≡ None) ↔ (Clashes s adding → ⊥) }
{}

/// The inverse of a schedule has as many steps and rounds, and the same chunks and nodes. That of a
/// valid one is valid.
pub fn an_inverse_is_a_schedule()
    ensures steps { (s : ScheduleValue) → length (inverse_of s).rounds ≡ length s.rounds }
    ensures rounds { (s : ScheduleValue) → sum (inverse_of s).rounds ≡ sum s.rounds }
    ensures in_range { (chunks nodes : ℕ) (s : ScheduleValue) → IsInRange chunks nodes s → IsInRange chunks nodes (inverse_of s) }
    ensures valid { (s : ScheduleValue) → IsSchedule s → IsSchedule (inverse_of s) }
{}

/// The inverse of the inverse of a valid schedule is the schedule.
#[tactic(auto, using(crate::proofs::Inverting::inverse_inverse))]
pub fn inverting_twice_changes_nothing()
    ensures { (s : ScheduleValue) → IsSchedule s → inverse_of (inverse_of s) ≡ s }
{}

/// A valid schedule fits the links turned round exactly where its inverse fits the links as they
/// are.
pub fn an_inverse_fits_the_links_turned_round()
    ensures { (t : TopologyValue) (s : ScheduleValue) → IsSchedule s → Fits (reversed_of t) s ↔ Fits t (inverse_of s) }
{}

/// A schedule that wastes no send and brings each chunk from its one holder to every node, over the
/// links turned round: its inverse adds each chunk up at its holder, over the links as they are.
pub fn an_inverse_sums()
    ensures { (t : TopologyValue) (pre : PlacementValue) (s : ScheduleValue) (steps rounds : ℕ) → IsPlacement pre → pre.nodes ≡ t.nodes → HeldByOne pre
        → IsSchedule s → IsInRange pre.chunks pre.nodes s → Tight pre s → Solves (reversed_of t) pre (everywhere pre.chunks pre.nodes) s steps rounds
        → Sums t pre (inverse_of s) steps rounds }
{}
