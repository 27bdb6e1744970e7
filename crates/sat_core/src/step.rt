//! Unit propagation, and then a decision.

ghost use Rattle.std.specs.Prelude.{◌≡◌, ℕ, ◌<◌, ◌≤◌, length};
ghost use Rattle.conflict_analysis.specs.Conflicts.{IsConflict};
ghost use Rattle.sat_core.specs.inner.Totals.{IsTotal};

use decision_order::Decider;
use trail_core::{ClauseId, Core};

/// What a step of the search came to.
#[derive(Drop)]
pub enum Step {
    Conflict(ClauseId),
    Decided,
    Total,
}

/// Propagates, and decides a variable where no clause is falsified.
#[tactic(auto, using(trail_core::proofs::Keeping::implied_longer, std::proofs::lemmas::List::length_push))]
pub fn advance(core: &mut Core, decider: &mut Decider) -> Step
    requires { decider.old ≡ core.old.vars }
    ensures decider { decider.new ≡ decider.old }
    ensures vars { core.new.vars ≡ core.old.vars }
    ensures clauses { core.new.clauses ≡ core.old.clauses }
    ensures conflict { (id : ℕ) → result ≡ Step.Conflict id → IsConflict core.new id }
    ensures longer { result ≡ Step.Decided → length core.old.trail < length core.new.trail }
    ensures few { result ≡ Step.Decided → length core.new.trail ≤ core.new.vars }
    ensures total { result ≡ Step.Total → IsTotal core.new }
{
    match core.propagate() {
        Some(conflict) => {
            let _known = core.trail();
            Step::Conflict(conflict)
        }
        None => match decider.choose(core) {
            Some(lit) => {
                core.assume(lit);
                let _known = core.trail();
                Step::Decided
            }
            None => {
                let _known = core.trail();
                Step::Total
            }
        },
    }
}
