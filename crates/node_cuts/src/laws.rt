//! What the cuts and the floor mean.

ghost use Rattle.std.specs.{Prelude.{◌≡◌, ◌*◌, ◌/◌, ◌<◌, ◌≤◌, ◌&&◌, ℕ, true, nat_lt}, Option.is_some};
ghost use Rattle.schedule.specs.{Links.TopologyValue, Placed.PlacementValue, Sends.ScheduleValue, Solving.Solves};
ghost use Rattle.collective_spec.specs.{declared.{kind.Kind.Kind, spec.Spec.Spec}, Kinds.allows, Collectives.{kind_in, spec_instance}};
ghost use Rattle.node_cuts.specs.{declared.sets.Sets.Sets, Sides.{NodeSet, has_bit, mask_of}, Cuts.{first_cut_of, need_of, width_by}, Floors.{floor_of, least_count}};

/// What has to come into a set of nodes is at most what can in the rounds of a schedule that
/// solves, whatever its steps and whichever groups cover the links into the set. So where a set of
/// nodes refutes so many rounds, no schedule of so many solves.
pub fn cuts_refute()
    ensures needed { (sets : Sets) (u : NodeSet) (t : TopologyValue) (pre post : PlacementValue) (s : ScheduleValue) (steps rounds : ℕ) → Solves t pre post s steps rounds
        → need_of u pre post ≤ width_by sets u t * rounds }
    ensures refuted { (sets : Sets) (u : NodeSet) (t : TopologyValue) (pre post : PlacementValue) (s : ScheduleValue) (steps rounds : ℕ) → width_by sets u t * rounds < need_of u pre post
        → Solves t pre post s steps rounds → ⊥ }
    ensures first { (sets : Sets) (t : TopologyValue) (pre post : PlacementValue) (s : ScheduleValue) (steps rounds : ℕ) → is_some (first_cut_of sets t pre post rounds) ≡ true
        → Solves t pre post s steps rounds → ⊥ }
{}

/// No schedule that solves has fewer rounds for its chunk count than the floor says, whatever its
/// steps and its chunk count.
pub fn floors_bound()
    ensures { (sets : Sets) (t : TopologyValue) (spec : Spec) (s : ScheduleValue) (steps rounds c : ℕ) → 0 < t.nodes → allows (kind_in spec) t.nodes c ≡ true
        → Solves t (spec_instance spec t.nodes c).pre (spec_instance spec t.nodes c).post s steps rounds
        → (floor_of sets t spec).above * c ≤ rounds * (floor_of sets t spec).below }
{}

/// The chunk count of the floor is one that the collective may have, and no other is less.
pub fn least_counts_are_least()
    ensures allowed { (kind : Kind) (nodes : ℕ) → 0 < nodes → allows kind nodes (least_count kind nodes) ≡ true }
    ensures least { (kind : Kind) (nodes c : ℕ) → allows kind nodes c ≡ true → least_count kind nodes ≤ c }
{}

/// The bits of a set of nodes are its members, and no bit stands for anything else.
#[tactic(auto, using(crate::proofs::Masks::bit_is_member))]
pub fn bits_are_members()
    ensures { (u : NodeSet) (nodes n : ℕ) → has_bit (mask_of nodes u) n ≡ (nat_lt n nodes && u n) }
{}

/// At each chunk count that the collective may have, what has to come into a set of nodes is what
/// has to at the least count, as many times over.
pub fn needs_are_proportional()
    ensures { (u : NodeSet) (spec : Spec) (nodes c : ℕ) → 0 < nodes → allows (kind_in spec) nodes c ≡ true
        → need_of u (spec_instance spec nodes c).pre (spec_instance spec nodes c).post
        ≡ need_of u (spec_instance spec nodes (least_count (kind_in spec) nodes)).pre (spec_instance spec nodes (least_count (kind_in spec) nodes)).post * (c / least_count (kind_in spec) nodes) }
{}
