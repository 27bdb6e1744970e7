//! What the cuts and the floor say of candidates, and of sums; and what an engine over another does
//! beside a store.

ghost use Rattle.std.specs.Prelude.{◌≡◌, ◌≢◌, ◌↔◌, ◌*◌, ◌≤◌, ℕ, true, false};
ghost use Rattle.schedule.specs.{Links.{TopologyValue, reversed_of}, Placed.PlacementValue, Sends.ScheduleValue, Summing.Sums, Rows.everywhere};
ghost use Rattle.collective_spec.specs.{declared.spec.Spec.Spec, Kinds.allows, Collectives.{IsSpec, adds_up, kind_in, spec_demand}};
ghost use Rattle.candidate_order.specs.{Copied.{copied_question, copied_spec}, Frontiers.{QuestionValue, IsSolvable}};
ghost use Rattle.engine_rules.specs.Outcomes.{RecordValue};
ghost use Rattle.inversion.specs.Reductions.{HeldBySome};
ghost use Rattle.node_cuts.specs.{Sides.NodeSet, Cuts.{need_of, width_by}, Cutting.{cut_in, is_cut}, Floors.floor_of, Tables.{TableValue, IsTableOf}};
ghost use Rattle.cut_bounds.specs.{declared.engine.CutEngine.CutEngine, Cutting.uncut_entries};

use crate::engine::CutEngine;
use candidate_order::Candidate;
use collective_spec::Kind;
use engine_rules::{Engine, EngineView};
use inversion::frontier_laws::a_reduction_is_solvable_where_its_copy_is;
use node_cuts::Sets;
pub use node_cuts::laws::{
    bits_are_members, cuts_refute, floors_bound, least_counts_are_least, needs_are_proportional,
};

/// A candidate that one of the sets of nodes refutes has no schedule: of a collective that copies
/// over its links, and of a reduction over the links turned round.
pub fn cut_candidates_have_no_schedule()
    ensures copies { (sets : Sets) (q : QuestionValue) (x : Candidate) → adds_up q.spec ≡ false → is_cut sets q x ≡ true → IsSolvable q x → ⊥ }
    ensures sums { (sets : Sets) (q : QuestionValue) (x : Candidate) → adds_up q.spec ≡ true → kind_in q.spec ≢ Kind.Allreduce → IsSpec q.topology.nodes q.spec
        → is_cut sets (copied_question q) x ≡ true → IsSolvable q x → ⊥ }
{
    cuts_refute();
    a_reduction_is_solvable_where_its_copy_is();
}

/// What has to come into a set of nodes, when each chunk goes back from where its sum is demanded
/// to every node over the links turned round, is at most what can in the rounds of a schedule that
/// sums, whatever its steps and whichever groups cover the links into the set.
pub fn sums_bring_in_what_is_needed()
    ensures { (sets : Sets) (u : NodeSet) (t : TopologyValue) (demand : PlacementValue) (s : ScheduleValue) (steps rounds : ℕ) → demand.nodes ≡ t.nodes → HeldBySome demand
        → Sums t demand s steps rounds → need_of u demand (everywhere demand.chunks demand.nodes) ≤ width_by sets u (reversed_of t) * rounds }
{}

/// A reduction has no schedule of fewer rounds for its chunk count than the floor over the links
/// turned round says, whatever its steps and its chunk count: of all schedules that sum, of however
/// many steps of however many rounds.
pub fn floors_bound_sums()
    ensures schedules { (sets : Sets) (t : TopologyValue) (spec : Spec) (s : ScheduleValue) (steps rounds c : ℕ) → adds_up spec ≡ true → kind_in spec ≢ Kind.Allreduce → IsSpec t.nodes spec
        → allows (kind_in spec) t.nodes c ≡ true → Sums t (spec_demand spec t.nodes c) s steps rounds
        → (floor_of sets (reversed_of t) spec).above * c ≤ rounds * (floor_of sets (reversed_of t) spec).below }
    ensures solvable { (sets : Sets) (q : QuestionValue) (x : Candidate) → adds_up q.spec ≡ true → kind_in q.spec ≢ Kind.Allreduce → IsSpec q.topology.nodes q.spec
        → allows (kind_in q.spec) q.topology.nodes x.c ≡ true → IsSolvable q x
        → (floor_of sets (reversed_of q.topology) q.spec).above * x.c ≤ x.r * (floor_of sets (reversed_of q.topology) q.spec).below }
{}

/// A reduction has the cuts, the floor and the table of the collective of which it is the inverse.
pub fn a_reduction_has_the_cuts_of_its_copy()
    ensures cut { (sets : Sets) (t : TopologyValue) (spec : Spec) (x : Candidate) → cut_in sets t (copied_spec spec) x ≡ cut_in sets t spec x }
    ensures floor { (sets : Sets) (t : TopologyValue) (spec : Spec) → floor_of sets t (copied_spec spec) ≡ floor_of sets t spec }
    ensures table { (sets : Sets) (t : TopologyValue) (spec : Spec) (table : TableValue) → IsTableOf sets t spec table → IsTableOf sets t (copied_spec spec) table }
{}

/// Where no set of nodes is looked at, no candidate is cut: all are left to the other engine.
pub fn nothing_is_cut_by_no_set()
    ensures cut { (q : QuestionValue) (x : Candidate) → is_cut Sets.Nothing q x ≡ false }
    ensures left { (q : QuestionValue) (entries : RecordValue) → uncut_entries Sets.Nothing q entries ≡ entries }
{}

/// Beside a store the engine counts the faults of the engine within, agrees with what that agrees
/// with, and changes what that changes. It looks at the same sets of nodes all along.
pub fn the_store_is_that_of_the_engine_within<T, E: Engine<T>>()
    ensures faults { (e : CutEngine E ⟦<E as EngineView>⟧) (store : T) → ⟦<CutEngine<E> as Engine<T>>⟧.faults e store ≡ E.faults e.inner store }
    ensures agrees { (e : CutEngine E ⟦<E as EngineView>⟧) (store : T) → ⟦<CutEngine<E> as Engine<T>>⟧.agrees e store ↔ E.agrees e.inner store }
    ensures moves { (a : CutEngine E ⟦<E as EngineView>⟧) (before : T) (b : CutEngine E ⟦<E as EngineView>⟧) (now : T) → ⟦<CutEngine<E> as Engine<T>>⟧.moves a before b now ↔ (E.moves a.inner before b.inner now × (b.sets ≡ a.sets)) }
{}
