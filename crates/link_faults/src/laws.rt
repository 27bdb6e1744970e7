//! What a fault takes away and what it leaves standing.

ghost use Rattle.std.specs.Prelude.{◌≡◌, ◌≢◌, ◌↔◌, ◌<◌, ◌≤◌, ℕ, true, List, length, All, Any};
ghost use Rattle.schedule.specs.{Links.{TopologyValue, IsTopology, reversed_group, reversed_of}, Placed.PlacementValue, Judging.group_at, Sends.ScheduleValue, Fitting.Fits, Solving.Solvable, Summing.SummedSolvable};
ghost use Rattle.collective_spec.specs.Collectives.{IsSpec, adds_up, kind_in};
ghost use Rattle.candidate_order.specs.{declared.candidate.Candidate.Candidate, Copied.copied_question, Frontiers.{QuestionValue, IsSolvable, IsWithin}};
ghost use Rattle.candidate_formula.specs.{Questions.IsSmallQuestion, Sizes.size_of};
ghost use Rattle.link_faults.specs.{Narrowed.narrowed, Carrying.{Carries, HasFewRounds, IsOldRefuted, is_carried, is_carrier, narrowed_question}};

use collective_spec::Kind;

/// What a fault leaves is a topology, where the group was wider.
pub fn a_fault_leaves_a_topology()
    ensures { (t : TopologyValue) (group width : ℕ) → IsTopology t → group < length t.groups → width < (group_at t group).width → IsTopology (narrowed t group width) }
{}

/// A schedule that fits after a fault fits the topology as it was.
pub fn what_fits_after_a_fault_did_before()
    ensures { (t : TopologyValue) (group width : ℕ) (s : ScheduleValue) → width ≤ (group_at t group).width → Fits (narrowed t group width) s → Fits t s }
{}

/// So what is solvable or summed after a fault was so before, in as many steps and rounds.
pub fn what_is_solvable_after_a_fault_was_before()
    ensures solvable { (t : TopologyValue) (group width : ℕ) (pre post : PlacementValue) (steps rounds : ℕ) → width ≤ (group_at t group).width
        → Solvable (narrowed t group width) pre post steps rounds → Solvable t pre post steps rounds }
    ensures summed { (t : TopologyValue) (group width : ℕ) (demand : PlacementValue) (steps rounds : ℕ) → width ≤ (group_at t group).width
        → SummedSolvable (narrowed t group width) demand steps rounds → SummedSolvable t demand steps rounds }
{}

/// A candidate with few rounds that carries another is solvable before a fault where the other is
/// after it. So where it is refuted before, the other is after it.
pub fn refutations_carry_over_a_fault()
    ensures solvable { (q : QuestionValue) (group width : ℕ) (a b : Candidate) → width ≤ (group_at q.topology group).width → HasFewRounds a → Carries a b
        → IsSolvable (narrowed_question q group width) b → IsSolvable q a }
    ensures refuted { (q : QuestionValue) (group width : ℕ) (a b : Candidate) → width ≤ (group_at q.topology group).width → HasFewRounds a → Carries a b
        → (IsSolvable q a → ⊥) → IsSolvable (narrowed_question q group width) b → ⊥ }
{}

/// Narrowing a topology and turning its links round, in either order, is the same, and the groups
/// keep their numbers and widths. So the collective that copies in place of a reduction is asked
/// for over the narrowed links turned round.
pub fn a_fault_turns_round()
    ensures topology { (t : TopologyValue) (group width : ℕ) → narrowed (reversed_of t) group width ≡ reversed_of (narrowed t group width) }
    ensures question { (q : QuestionValue) (group width : ℕ) → narrowed_question (copied_question q) group width ≡ copied_question (narrowed_question q group width) }
    ensures groups { (t : TopologyValue) → length (reversed_of t).groups ≡ length t.groups }
    ensures group { (t : TopologyValue) (group : ℕ) → group_at (reversed_of t) group ≡ reversed_group (group_at t group) }
{}

/// Old candidates that no schedule sums have none that copies over the links turned round.
pub fn old_refutations_turn_round()
    ensures { (q : QuestionValue) (old : List Candidate) → adds_up q.spec ≡ true → kind_in q.spec ≢ Kind.Allreduce → IsSpec q.topology.nodes q.spec
        → All (IsOldRefuted q) old → All (IsOldRefuted (copied_question q)) old }
{}

/// Where each old candidate has few rounds and no schedule before a fault, no candidate that one of
/// them carries has one after it.
pub fn what_is_carried_has_no_schedule()
    ensures { (q : QuestionValue) (group width : ℕ) (old : List Candidate) → width ≤ (group_at q.topology group).width → All (IsOldRefuted q) old
        → (x : Candidate) → is_carried old x ≡ true → IsSolvable (narrowed_question q group width) x → ⊥ }
{}

/// The tests of carrying tell it exactly, by one candidate and by some of several.
pub fn carriers_are_told_exactly()
    ensures one { (a b : Candidate) → (is_carrier a b ≡ true) ↔ Carries a b }
    ensures some { (old : List Candidate) (x : Candidate) → (is_carried old x ≡ true) ↔ Any (λ a. Carries a x) old }
{}

/// Each candidate carries itself, and where one carries a second and the second a third, it carries
/// the third.
pub fn carrying_is_an_order()
    ensures itself { (a : Candidate) → Carries a a }
    ensures both { (a b c : Candidate) → Carries a b → Carries b c → Carries a c }
{}

/// A search over the links that a fault left has the same candidates within its limits, and is no
/// larger. So where the given one may be searched, this one may.
pub fn a_fault_makes_no_search_larger()
    ensures within { (q : QuestionValue) (group width : ℕ) (x : Candidate) → IsWithin (narrowed_question q group width) x ↔ IsWithin q x }
    ensures size { (q : QuestionValue) (group width : ℕ) → width ≤ (group_at q.topology group).width → size_of (narrowed_question q group width) ≤ size_of q }
    ensures small { (q : QuestionValue) (group width : ℕ) → IsSmallQuestion q → group < length q.topology.groups → width < (group_at q.topology group).width
        → IsSmallQuestion (narrowed_question q group width) }
{}
