//! Clauses that slept are added to the core again.

ghost use Rattle.std.specs.Prelude.{◌≡◌, ◌+◌, ◌<◌, true, false, All, List, [], ◌∷◌, length, get_or, slice_index, slice_set, take, Ok, MatchOption, OnOk};
ghost use Rattle.cnf_formula.specs.{Literals.LitValue, Formulas.IsAbout};
ghost use Rattle.sleeping_clauses.specs.{Sleeping.{IsAsleep, sleeping}, Naming.IsListed};
ghost use Rattle.sat_core.specs.inner.Going.{StaysReady};
ghost use Rattle.trail_core.specs.Meaning.{trues, IsClosed};

use crate::backjump::go_to_bottom;
use cnf_formula::{Lit, OutOfMemory};
use decision_order::Decider;
use sleeping_clauses::{Awake, Sleepers, Usage};
use trail_core::Core;

/// Goes back to level 0, and adds a clause that sleeps there.
pub fn wake(
    core: &mut Core,
    decider: &mut Decider,
    awake: &mut Awake,
    sleepers: &mut Sleepers,
    place: usize,
) -> Result<(), OutOfMemory>
    requires within { place < length sleepers.old.clauses }
    requires asleep { get_or sleepers.old.asleep place false ≡ true }
    requires decider { decider.old ≡ core.old.vars }
    requires vars { sleepers.old.vars ≡ core.old.vars }
    requires listed { IsListed core.old.clauses awake.old }
    ensures decider { decider.new ≡ decider.old }
    ensures vars { core.new.vars ≡ core.old.vars }
    ensures same { sleepers.new.vars ≡ sleepers.old.vars }
    ensures listed { OnOk result (IsListed core.new.clauses awake.new) }
    ensures ready { OnOk result (StaysReady core.old awake.old sleepers.old core.new awake.new sleepers.new) }
    ensures len { length sleepers.new.clauses ≡ length sleepers.old.clauses }
    ensures woken { OnOk result (sleepers.new.asleep ≡ slice_set sleepers.old.asleep place false) }
    ensures fewer { OnOk result (sleeping sleepers.new + 1 ≡ sleeping sleepers.old) }
{
    go_to_bottom(core, decider)?;
    let id = core.add_clause(sleepers.clause(place))?;
    // Use alone keeps it awake, and not its levels.
    let usage = Usage {
        levels: u32::MAX,
        last: awake.held,
    };
    awake.note(id, sleepers.number(place), usage)?;
    sleepers.wake(place);
    Ok(())
}

/// Whether a clause lets nothing follow by unit propagation: one of its literals is true, or two are
/// open.
fn rests(core: &Core, lits: &[Lit]) -> bool
    requires { All (IsAbout core.now.vars) lits.now }
    ensures { result ≡ true → IsClosed (trues core.now) (lits.now ∷ []) }
{
    let _known = core.trail();
    let mut open = None;
    for lit in lits {
        match core.value(*lit) {
            Some(true) => return true,
            Some(false) => {}
            None => match open {
                Some(other) => {
                    if other != *lit {
                        return true;
                    }
                }
                None => open = Some(*lit),
            },
        }
    }
    false
}

/// The place of a clause that sleeps and by which something may follow.
fn due(core: &Core, sleepers: &Sleepers) -> Option<usize>
    requires { sleepers.now.vars ≡ core.now.vars }
    ensures { MatchOption result
        ((clause : List LitValue) → IsAsleep sleepers.now clause → IsClosed (trues core.now) (clause ∷ []))
        (λ place. (place < length sleepers.now.clauses) × (get_or sleepers.now.asleep place false ≡ true)) }
{
    for place in 0..sleepers.len() {
        if sleepers.is_asleep(place) && !rests(core, sleepers.clause(place)) {
            return Some(place);
        }
    }
    None
}

/// Goes back to level 0, and adds a clause that sleeps and by which something may follow there.
/// Whether there was one.
pub fn wake_due(
    core: &mut Core,
    decider: &mut Decider,
    awake: &mut Awake,
    sleepers: &mut Sleepers,
) -> Result<bool, OutOfMemory>
    requires above { 0 < length core.old.limits }
    requires decider { decider.old ≡ core.old.vars }
    requires vars { sleepers.old.vars ≡ core.old.vars }
    requires listed { IsListed core.old.clauses awake.old }
    ensures decider { decider.new ≡ decider.old }
    ensures vars { core.new.vars ≡ core.old.vars }
    ensures same { sleepers.new.vars ≡ sleepers.old.vars }
    ensures listed { result ≡ Ok true → IsListed core.new.clauses awake.new }
    ensures ready { result ≡ Ok true → StaysReady core.old awake.old sleepers.old core.new awake.new sleepers.new }
    ensures fewer { result ≡ Ok true → sleeping sleepers.new + 1 ≡ sleeping sleepers.old }
    ensures rest { result ≡ Ok false → (clause : List LitValue) → IsAsleep sleepers.old clause → IsClosed (take (slice_index core.old.limits 0) (trues core.old)) (clause ∷ []) }
{
    go_to_bottom(core, decider)?;
    match due(core, sleepers) {
        Some(place) => {
            wake(core, decider, awake, sleepers, place)?;
            Ok(true)
        }
        None => Ok(false),
    }
}
