//! The literals of conflicts and of reasons, as an analysis meets them.

ghost use Rattle.std.specs.Prelude.{◌↔◌, ◌⊎◌, ◌≡◌, ℕ, ◌+◌, ◌<◌, ◌≤◌, [], ◌∷◌, IsTrue, length, get_or, pos, Contains, IfSome, OnOk};
ghost use Rattle.cnf_formula.specs.Literals.{LitValue};
ghost use Rattle.trail_core.specs.{Assigned.IsFalse, Meaning.trues, Formed.IsTrail};
ghost use Rattle.conflict_analysis.specs.{PlaceSets.HasPlace, Met.{value_of, IsSeen, IsSorted, HasMet, IsPassed, lit_at, mark_of, waiting}, inner.Walks.{IsNext, IsStep, IsTaken}};

use crate::walk::{BOTTOM, KEPT, OPEN, RESOLVED, Walk};
use cnf_formula::{Lit, OutOfMemory};
use trail_core::{ClauseId, Core};

/// The hint that names a clause of the core: clauses are held under numbers from 1.
pub fn hint(id: ClauseId) -> i64
    ensures { result ≡ pos (id + 1) }
{
    i64::from(id.number()) + 1
}

/// Meets a false literal: it is kept where it became false between level 0 and the last level, and
/// else its step waits.
pub fn meet(core: &Core, walk: &mut Walk, lit: Lit) -> Result<(), OutOfMemory>
    requires formed { IsTrail core.now.vars core.now.trail core.now.limits }
    requires sorted { IsSorted core.now (value_of walk.old) }
    requires few { walk.old.stamp ≤ 251 }
    requires met { IsSeen (value_of walk.old) lit ⊎ IsFalse (trues core.now) lit }
    requires within { lit.var ≤ core.now.vars }
    ensures { OnOk result (HasMet core.now (lit ∷ []) (value_of walk.old) (value_of walk.new)) }
{
    let var = lit.var() as usize;
    if walk.marks[var] >= walk.stamp {
        return Ok(());
    }
    let this = lit.negated();
    let place = core.place(this);
    walk.met_places.insert(place)?;
    let level = core.level(this);
    if level == 0 {
        walk.marks[var] = walk.stamp + BOTTOM;
        walk.zeros += 1;
        return Ok(());
    }
    walk.met.push(lit)?;
    if level == core.depth() {
        walk.marks[var] = walk.stamp + OPEN;
        walk.open_ += 1;
        return Ok(());
    }
    walk.lits.push(lit)?;
    walk.marks[var] = walk.stamp + KEPT;
    Ok(())
}

/// Meets the literals of a clause.
pub fn meet_all(core: &Core, walk: &mut Walk, id: ClauseId) -> Result<(), OutOfMemory>
    requires formed { IsTrail core.now.vars core.now.trail core.now.limits }
    requires sorted { IsSorted core.now (value_of walk.old) }
    requires few { walk.old.stamp ≤ 251 }
    requires id { id < length core.now.clauses }
    requires met { (o : LitValue) → Contains (get_or core.now.clauses id []) o → IsSeen (value_of walk.old) o ⊎ IsFalse (trues core.now) o }
    requires within { (o : LitValue) → Contains (get_or core.now.clauses id []) o → o.var ≤ core.now.vars }
    ensures { OnOk result (HasMet core.now (get_or core.now.clauses id []) (value_of walk.old) (value_of walk.new)) }
{
    for lit in core.clause(id) {
        meet(core, walk, *lit)?;
    }
    Ok(())
}

/// Whether the literal at a place has such a mark: its step waits on the last level or on level 0,
/// or it is kept.
#[tactic(auto, using(std::proofs::lemmas::Bool::Decides::nat_tests, std::proofs::lemmas::Grind::common_steps, crate::proofs::Resolved::place_read, crate::proofs::Marked::lit_about, crate::proofs::Waiting::mark_read))]
pub fn is_waiting(core: &Core, walk: &Walk, place: usize, mark: u8) -> bool
    requires place { place < length core.now.trail }
    requires len { length walk.now.marks.items ≡ core.now.vars + 1 }
    requires few { walk.now.stamp ≤ 251 }
    requires small { mark < 4 }
    ensures { IsTrue result ↔ (mark_of (value_of walk.now) (lit_at core.now place) ≡ walk.now.stamp + mark) }
{
    let lit = core.trail()[place];
    walk.marks[lit.var() as usize] == walk.stamp + mark
}

/// The highest place below another whose literal was met; there is one.
pub fn met_below(walk: &Walk, place: usize) -> usize
    requires { (k : ℕ) × (k < place) × HasPlace walk.now.met_places k }
    ensures below { result < place }
    ensures met { HasPlace walk.now.met_places result }
    ensures highest { (k : ℕ) → result < k → k < place → HasPlace walk.now.met_places k → ⊥ }
{
    walk.met_places.between(0, place).unwrap()
}

/// The highest place below another whose step waits with such a mark; there is one.
#[tactic(auto, using(std::proofs::lemmas::Grind::common_steps, crate::proofs::Waiting::next_passed, crate::proofs::Waiting::passed_over))]
pub fn waiting_below(core: &Core, walk: &Walk, from: usize, mark: u8) -> usize
    requires sorted { IsSorted core.now (value_of walk.now) }
    requires few { walk.now.stamp ≤ 251 }
    requires small { mark < 4 }
    requires passed { IsPassed core.now mark (value_of walk.now) from }
    requires some { 0 < waiting (walk.now.stamp + mark) walk.now.marks.items }
    ensures below { result < from }
    ensures next { IsNext core.now mark (value_of walk.now) result }
{
    let mut place = from;
    loop {
        place = met_below(walk, place);
        if is_waiting(core, walk, place, mark) {
            return place;
        }
    }
}

/// The highest place below another whose literal was met, if it is no lower than a third.
pub fn met_between(walk: &Walk, from: usize, place: usize) -> Option<usize>
    ensures { IfSome result (λ next. (from ≤ next) × (next < place)) }
{
    walk.met_places.between(from, place)
}

/// Takes a step for its reason.
pub fn resolve(core: &Core, walk: &mut Walk, place: usize) -> Result<(), OutOfMemory>
    requires few { walk.old.stamp ≤ 251 }
    requires step { IsStep core.now (value_of walk.old) place }
    ensures { OnOk result (IsTaken core.now place (value_of walk.old) (value_of walk.new)) }
{
    let lit = core.trail()[place];
    let reason = core.reason(lit).unwrap();
    walk.hints.push(hint(reason))?;
    walk.marks[lit.var() as usize] = walk.stamp + RESOLVED;
    meet_all(core, walk, reason)
}
