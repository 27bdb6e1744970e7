//! Ordered schedules suffice, and the clauses of the order say them.

ghost use Rattle.std.specs.Prelude.{◌≡◌, ◌↔◌, ◌<◌, ℕ, Bool, true, List};
ghost use Rattle.schedule.specs.{Links.TopologyValue, Placed.{PlacementValue, holds}, Sends.{ScheduleValue, IsSchedule, IsInRange}, Solving.{Solvable, Solves}};
ghost use Rattle.cnf_formula.specs.Formulas.{Satisfies, Satisfiable};
ghost use Rattle.send_encoding.specs.{Variables.map_of, Agreeing.SatisfiesAs};
ghost use Rattle.round_encoding.specs.{Frames.frame_of, Decoding.decoded, Candidates.IsCandidate};
ghost use Rattle.chunk_order.specs.{Alike.{Ordered, is_alike, watch_node}, Ordering.ordered_formula_of, Solutions.{IsOrderedSolution, HasOrderedSolution}};

/// Two chunks are alike exactly where they are at the same nodes before, and have to be at the same
/// nodes after.
pub fn chunks_are_alike_exactly()
    ensures { (pre post : PlacementValue) (c d : ℕ) → (is_alike pre post c d ≡ true)
        ↔ (((n : ℕ) → n < pre.nodes → holds pre (c, n) ≡ holds pre (d, n)) × ((n : ℕ) → n < post.nodes → holds post (c, n) ≡ holds post (d, n))) }
{}

/// Chunks that are alike have the same watch node, or none.
pub fn alike_chunks_have_one_watch_node()
    ensures { (pre post : PlacementValue) (c d : ℕ) → post.nodes ≡ pre.nodes → is_alike pre post c d ≡ true → watch_node pre post c ≡ watch_node pre post d }
{}

/// A candidate is solvable exactly where some schedule that wastes no send and is ordered solves
/// it.
pub fn ordered_schedules_suffice()
    ensures { (t : TopologyValue) (pre post : PlacementValue) (steps rounds : ℕ) → IsCandidate t pre post steps rounds
        → Solvable t pre post steps rounds ↔ HasOrderedSolution t pre post steps rounds }
{}

/// The formula with the clauses of the order is satisfiable exactly where the candidate is
/// solvable. So where it is refuted, no schedule solves the candidate.
pub fn ordered_formulas_are_exact()
    ensures { (t : TopologyValue) (pre post : PlacementValue) (steps rounds : ℕ) → IsCandidate t pre post steps rounds
        → Satisfiable (ordered_formula_of t pre post steps rounds) ↔ Solvable t pre post steps rounds }
{}

/// An assignment that satisfies it says a schedule that solves the candidate, wastes no send and is
/// ordered; and each ordered schedule that solves is met by one whose arrivals are its placements.
pub fn ordered_formulas_say_ordered_schedules()
    ensures says { (t : TopologyValue) (pre post : PlacementValue) (steps rounds : ℕ) → IsCandidate t pre post steps rounds → (values : List Bool)
        → Satisfies values (ordered_formula_of t pre post steps rounds) → IsOrderedSolution t pre post (decoded (frame_of t pre steps rounds) values) steps rounds }
    ensures met { (t : TopologyValue) (pre post : PlacementValue) (steps rounds : ℕ) → IsCandidate t pre post steps rounds → (s : ScheduleValue) → IsSchedule s → IsInRange pre.chunks pre.nodes s
        → Solves t pre post s steps rounds → Ordered pre post s → SatisfiesAs (map_of t pre steps) pre s (ordered_formula_of t pre post steps rounds) }
{}
