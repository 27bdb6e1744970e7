ghost use Rattle.std.specs.Prelude.{◌≡◌, ◌≤◌, ◌⊎◌, ◌↔◌};
ghost use Rattle.candidate_order.specs.{Costs.{NoWorse, Better, Before}, Listed.{Within, IsListed, AreAllowed}};

use crate::candidate::Candidate;
use crate::limits::Limits;
use collective_spec::Kind;

/// No candidate comes before itself.
pub fn before_is_irreflexive(a: Candidate)
    ensures { ¬ Before a a }
{}

/// What comes before a candidate comes before all that it comes before.
pub fn before_is_transitive(a: Candidate, b: Candidate, c: Candidate)
    requires chunks { (1 ≤ a.c) × (1 ≤ b.c) × (1 ≤ c.c) }
    requires first { Before a b }
    requires second { Before b c }
    ensures { Before a c }
{}

/// Of two candidates with chunks, one comes before the other, unless they are the same.
pub fn before_is_total(a: Candidate, b: Candidate)
    requires chunks { (1 ≤ a.c) × (1 ≤ b.c) }
    ensures { Before a b ⊎ ((a ≡ b) ⊎ Before b a) }
{}

/// A candidate is no worse than itself.
pub fn no_worse_is_reflexive(a: Candidate)
    ensures { NoWorse a a }
{}

/// What is no worse than a candidate is no worse than all that it is no worse than.
pub fn no_worse_is_transitive(a: Candidate, b: Candidate, c: Candidate)
    requires chunks { 1 ≤ b.c }
    requires first { NoWorse a b }
    requires second { NoWorse b c }
    ensures { NoWorse a c }
{}

/// A better candidate comes first.
pub fn better_comes_before(a: Candidate, b: Candidate)
    requires { Better a b }
    ensures { Before a b }
{}

/// Where the chunk counts are those that the limits and the kind allow, the candidates that are
/// listed for a step are those within the limits.
pub fn listed_are_within(limits: &Limits, kind: Kind, nodes: u8, step: u8, allowed: &[u8])
    requires some_step { 1 ≤ step }
    requires step { step ≤ limits.now.max_s }
    requires allowed { AreAllowed limits.now kind nodes allowed.now }
    ensures { (x : Candidate) → IsListed limits.now.k step allowed.now x ↔ ((x.s ≡ step) × Within limits.now kind nodes x) }
{}
