//! What the record of an engine that takes over old refutations says of the frontier that its
//! search gave.

ghost use Rattle.std.specs.{Prelude.{◌≡◌, true, false, All, Contains}, List.Sorted.IsPermutation};
ghost use Rattle.candidate_order.specs.{declared.candidate.Candidate.Candidate, Frontiers.IsTried};
ghost use Rattle.engine_rules.specs.declared.settled.Settled.{Settled};
ghost use Rattle.engine_rules.specs.declared.settled.Settled.TheVariants as settled;
ghost use Rattle.pareto_search.specs.Recorded.{entries_of};
ghost use Rattle.link_faults.specs.Carrying.{is_carried};

use crate::engine::CarryEngine;
use candidate_order::Frontier;
use engine_rules::EngineView;

/// Where the record of an engine has the candidates of a frontier, each candidate of it that an old
/// one carries is refuted, and no point and no unknown candidate is carried. So of those that were
/// tried the carried ones are those of the refuted list that an old one carries; the others of that
/// list were refuted by the engine within, which was asked for none that is carried. This does
/// nothing.
pub fn carried_is_refuted<E: EngineView>(engine: &CarryEngine<E>, frontier: &Frontier)
    requires { IsPermutation (⟦<CarryEngine<E> as EngineView>⟧.entries engine.now) (entries_of frontier.now) }
    ensures refuted { (x : Candidate) → IsTried frontier.now x → is_carried engine.now.old.items x ≡ true → Contains frontier.now.refuted x }
    ensures points { All (λ p. is_carried engine.now.old.items p.candidate ≡ false) frontier.now.points }
    ensures unknown { All (λ u. is_carried engine.now.old.items u.candidate ≡ false) frontier.now.unknown }
    ensures searched { (x : Candidate) → Contains frontier.now.refuted x → is_carried engine.now.old.items x ≡ false → Contains (E.entries engine.now.inner) (x, settled.Refuted) }
    ensures passed { (x : Candidate) (kind : Settled) → Contains (E.entries engine.now.inner) (x, kind) → is_carried engine.now.old.items x ≡ false }
{
    let _inner = engine.inner();
}
