//! What a clause needs when it is added: room in the lists of its literals, and two literals to
//! watch.

ghost use Rattle.std.specs.Prelude.{◌≡◌, ◌≢◌, ◌==◌, ℕ, ◌+◌, ◌*◌, ◌<◌, ◌≤◌, length, Contains, All, AllPairs, count_by, IfOk, OnErr, OnOk, slice_index, take, vec_len, vec_capacity};
ghost use Rattle.cnf_formula.specs.{Literals.{LitValue, code_of}, Formulas.IsAbout};
ghost use Rattle.trail_core.specs.{Assigned.{IsFalse, IsOpen}, Trails.lits_of, Watching.{AreLists, HasRoom}, Kept.{IsRecent, IsKept, IsHeld, CanAddTo}};

use crate::lists::WatchLists;
use crate::store::ClauseStore;
use crate::trail::Trail;
use crate::watch::Watch;
use cnf_formula::Lit;
use std::alloc::AllocError;

/// Makes room for a clause in the lists of its literals.
pub(crate) fn admit_all(lists: &mut WatchLists, lits: &[Lit], vars: u32) -> Result<(), AllocError>
    requires lists { AreLists vars lists.old }
    requires within { All (IsAbout vars) lits.now }
    requires room { HasRoom lists.old }
    ensures lists { lists.new.lists ≡ lists.old.lists }
    ensures watches { lists.new.watches ≡ lists.old.watches }
    ensures are_lists { AreLists vars lists.new }
    ensures room { HasRoom lists.new }
    ensures more { (k : ℕ) → slice_index lists.old.uses k ≤ slice_index lists.new.uses k }
    ensures ok { OnOk result ((k : ℕ) → slice_index lists.old.uses k + count_by (λ l. code_of l == k) lits.now ≤ slice_index lists.new.uses k) }
{
    for lit in lits {
        lists.admit(*lit)?;
    }
    Ok(())
}

/// The first literal that is open, or else the one given.
fn an_open(lits: &[Lit], trail: &Trail, other: Lit) -> Lit
    requires within { All (IsAbout trail.now.vars) lits.now }
    requires stands { Contains lits.now other }
    ensures stands { Contains lits.now result }
    ensures open { (l : LitValue) → Contains lits.now l → IsOpen (lits_of trail.now.steps) l → IsOpen (lits_of trail.now.steps) result }
{
    for lit in lits {
        if !trail.is_true(*lit) && !trail.is_false(*lit) {
            return *lit;
        }
    }
    other
}

/// The first literal that became false on the present level, or else the one given.
fn a_recent(lits: &[Lit], trail: &Trail, other: Lit) -> Lit
    requires within { All (IsAbout trail.now.vars) lits.now }
    requires stands { Contains lits.now other }
    ensures stands { Contains lits.now result }
    ensures recent { (l : LitValue) → Contains lits.now l → IsRecent trail.now l → IsRecent trail.now result }
{
    for lit in lits {
        if trail.is_false(*lit) && trail.level(lit.negated()) == trail.depth() {
            return *lit;
        }
    }
    other
}

/// The two literals that a new clause watches.
pub(crate) fn watches(lits: &[Lit], trail: &Trail) -> (Lit, Lit)
    requires within { All (IsAbout trail.now.vars) lits.now }
    requires once { AllPairs (λ a b. a ≢ b) lits.now }
    requires place { CanAddTo trail.now lits.now }
    ensures first { 1 < length lits.now → Contains lits.now result.0 }
    ensures second { 1 < length lits.now → Contains lits.now result.1 }
    ensures differ { 1 < length lits.now → result.0 ≢ result.1 }
    ensures above { 0 < length trail.now.limits → IsOpen (lits_of trail.now.steps) result.0 × IsRecent trail.now result.1 × (1 < length lits.now) }
{
    match lits {
        [first, second, ..] => {
            if trail.depth() == 0 {
                (*first, *second)
            } else {
                (an_open(lits, trail, *first), a_recent(lits, trail, *second))
            }
        }
        _ => (Lit::new(1, true), Lit::new(1, false)),
    }
}

/// Makes room for a clause among those of less than two literals, if it is one of them.
fn admit_short(short: &mut Vec<u32>, lits: &[Lit]) -> Result<(), AllocError>
    ensures items { short.new.items ≡ short.old.items }
    ensures ok { OnOk result (length lits.now ≤ 1 → vec_len short.new < vec_capacity short.new) }
{
    if lits.len() < 2 {
        short.reserve(1)?;
    }
    Ok(())
}

/// From where on the trail is to be propagated once a clause watches these two literals: from where
/// the present level begins if one of them is false, or else from where it was.
fn resumed(trail: &Trail, head: u32, first: Lit, second: Lit) -> u32
    requires first_within { IsAbout trail.now.vars first }
    requires second_within { IsAbout trail.now.vars second }
    requires head { (j : ℕ) → j < length trail.now.limits → slice_index trail.now.limits j ≤ head }
    requires place { 0 < length trail.now.limits → IsOpen (lits_of trail.now.steps) first × IsRecent trail.now second }
    ensures below { result ≤ head }
    ensures above { (j : ℕ) → j < length trail.now.limits → slice_index trail.now.limits j ≤ result }
    ensures first { IsFalse (take result (lits_of trail.now.steps)) first → ⊥ }
    ensures second { IsFalse (take result (lits_of trail.now.steps)) second → ⊥ }
{
    if trail.is_false(first) || trail.is_false(second) {
        trail.bottom()
    } else {
        head
    }
}

/// Holds a clause under the next number. Where it watches a false literal, what waits to be
/// propagated is put back to where the present level begins. `Err` comes only where memory runs out
/// or the numbers do, and then the clauses are as before.
pub(crate) fn hold(
    store: &mut ClauseStore,
    lists: &mut WatchLists,
    trail: &Trail,
    head: &mut u32,
    short: &mut Vec<u32>,
    lits: &[Lit],
) -> Result<u32, AllocError>
    requires kept { IsKept store.old lists.old trail.now head.old short.old.items }
    requires within { All (IsAbout trail.now.vars) lits.now }
    requires once { AllPairs (λ a b. a ≢ b) lits.now }
    requires place { CanAddTo trail.now lits.now }
    ensures kept { IsKept store.new lists.new trail.now head.new short.new.items }
    ensures ok { IfOk result (λ id. (id ≡ length store.old) × IsHeld store.old lits.now store.new) }
    ensures small { IfOk result (λ id. id ≤ 2147483647) }
    ensures err { OnErr result (store.new ≡ store.old) }
{
    admit_short(short, lits)?;
    admit_all(lists, lits, trail.vars())?;
    let (first, second) = watches(lits, trail);
    let number = store.push(lits, first, second)?;
    if lits.len() > 1 {
        let pair = lits.len() == 2;
        lists.add(first, Watch::new(number, pair, second));
        lists.add(second, Watch::new(number, pair, first));
        *head = resumed(trail, *head, first, second);
    } else {
        short.push_reserved(number);
    }
    Ok(number)
}
