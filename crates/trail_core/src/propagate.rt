//! Unit propagation by two watched literals, over the clauses that watch a literal which became
//! false.

ghost use Rattle.std.specs.Prelude.{false, ◌≡◌, ◌≢◌, ◌⊎◌, ℕ, ◌+◌, ◌*◌, ◌<◌, ◌≤◌, IsTrue, [], Option, Some, None, MatchOption, length, get_or, slice_index, Contains, All};
ghost use Rattle.cnf_formula.specs.{Literals.{LitValue, code_of}, Formulas.IsAbout};
ghost use Rattle.trail_core.specs.{Assigned.IsFalse, Trails.lits_of, Watching.{AreRows, watch_count, row_at, list_at}, Kept.{IsShort, IsDue, IsKept, IsDone}, Search.{CanScan, Scanned, IsSatisfied, IsFalsified, Implied, clauses_of}};

use crate::lists::WatchLists;
use crate::store::ClauseStore;
use crate::trail::Trail;
use crate::watch::Watch;
use cnf_formula::Lit;

/// A literal of a clause, and where among its literals it stands.
#[derive(Clone, Copy)]
struct Standing {
    lit: Lit,
    place: usize,
}

/// A literal of the clause, other than this one, that is not false and stands from one place on and
/// before another.
fn another_in(clause: &[Lit], trail: &Trail, this: Lit, from: usize, to: usize) -> Option<Standing>
    requires about { All (IsAbout trail.now.vars) clause.now }
    requires to { to ≤ length clause.now }
    ensures { MatchOption result
        ((k : ℕ) (d : LitValue) → from ≤ k → k < to → (get_or clause.now k d ≡ this) ⊎ IsFalse (lits_of trail.now.steps) (get_or clause.now k d))
        (λ found. Contains clause.now found.lit × (found.lit ≢ this) × (IsFalse (lits_of trail.now.steps) found.lit → ⊥) × (found.place < length clause.now)) }
{
    for place in from..to {
        let lit = clause[place];
        if !trail.is_false(lit) && lit != this {
            return Some(Standing { lit, place });
        }
    }
    None
}

/// A literal of the clause, other than this one, that is not false. The look for it goes round, from
/// a place on.
fn another(clause: &[Lit], trail: &Trail, this: Lit, from: usize) -> Option<Standing>
    requires { All (IsAbout trail.now.vars) clause.now }
    ensures { MatchOption result
        ((o : LitValue) → Contains clause.now o → (o ≡ this) ⊎ IsFalse (lits_of trail.now.steps) o)
        (λ found. Contains clause.now found.lit × (found.lit ≢ this) × (IsFalse (lits_of trail.now.steps) found.lit → ⊥) × (found.place < length clause.now)) }
{
    let from = from.min(clause.len());
    match another_in(clause, trail, this, from, clause.len()) {
        Some(found) => Some(found),
        None => another_in(clause, trail, this, 0, from),
    }
}

/// Visits a clause that watches a literal which is false, by its entry at a place of the literal's
/// list: watches another literal of it, or makes the only one that is left true, or returns the
/// clause, whose literals are all false.
fn visit_clause(
    store: &mut ClauseStore,
    lists: &mut WatchLists,
    trail: &mut Trail,
    falsified: Lit,
    place: usize,
    watch: Watch,
) -> Option<u32>
    requires can { CanScan store.old lists.old trail.old }
    requires of { IsAbout trail.old.vars falsified }
    requires is_false { IsFalse (lits_of trail.old.steps) falsified }
    requires within { place < length (list_at lists.old.lists (code_of falsified)) }
    requires is { watch.clause ≡ slice_index (list_at lists.old.lists (code_of falsified)) place }
    requires long { watch.pair ≡ false }
    ensures can { CanScan store.new lists.new trail.new }
    ensures scanned { Scanned falsified store.old trail.old store.new trail.new }
    ensures long { place ≤ length (list_at lists.new.lists (code_of falsified)) }
    ensures front { (j : ℕ) → j < place → slice_index (list_at lists.new.lists (code_of falsified)) j ≡ slice_index (list_at lists.old.lists (code_of falsified)) j }
    ensures handled { let id = slice_index (list_at lists.old.lists (code_of falsified)) place in MatchOption result
        (0 < watch_count (row_at store.new id) (code_of falsified) → IsSatisfied (lits_of trail.new.steps) (row_at store.new id).lits)
        (λ c. (c < length store.new) × IsFalsified (lits_of trail.new.steps) (row_at store.new c).lits) }
{
    let id = watch.clause();
    let (first, second) = store.watched(id);
    let other = if first == falsified { second } else { first };
    if trail.is_true(other) {
        lists.replace(falsified, place, watch.blocked_by(other));
        return None;
    }
    if let Some(found) = another(store.clause(id), trail, other, store.next(id)) {
        store.watch(id, other, found.lit, found.place as u32);
        lists.shift(falsified, place, found.lit, watch.blocked_by(other));
        return None;
    }
    if trail.is_false(other) {
        return Some(id);
    }
    trail.push(other, id);
    None
}

/// Visits the clause of the entry at a place of the list of a literal that is false: makes the only
/// literal that is left of it true, or watches another, or returns the clause, whose literals are
/// all false. A clause that is satisfied by its blocking literal is passed over, and one of two
/// literals is not read.
fn visit(
    store: &mut ClauseStore,
    lists: &mut WatchLists,
    trail: &mut Trail,
    falsified: Lit,
    place: usize,
) -> Option<u32>
    requires can { CanScan store.old lists.old trail.old }
    requires of { IsAbout trail.old.vars falsified }
    requires is_false { IsFalse (lits_of trail.old.steps) falsified }
    requires within { place < length (list_at lists.old.lists (code_of falsified)) }
    ensures can { CanScan store.new lists.new trail.new }
    ensures scanned { Scanned falsified store.old trail.old store.new trail.new }
    ensures long { place ≤ length (list_at lists.new.lists (code_of falsified)) }
    ensures front { (j : ℕ) → j < place → slice_index (list_at lists.new.lists (code_of falsified)) j ≡ slice_index (list_at lists.old.lists (code_of falsified)) j }
    ensures handled { let id = slice_index (list_at lists.old.lists (code_of falsified)) place in MatchOption result
        (0 < watch_count (row_at store.new id) (code_of falsified) → IsSatisfied (lits_of trail.new.steps) (row_at store.new id).lits)
        (λ c. (c < length store.new) × IsFalsified (lits_of trail.new.steps) (row_at store.new c).lits) }
{
    let watch = lists.entry(falsified, place);
    let (blocker, id) = (watch.blocker(), watch.clause());
    if trail.is_true(blocker) {
        return None;
    }
    if !watch.is_pair() {
        return visit_clause(store, lists, trail, falsified, place, watch);
    }
    if trail.is_false(blocker) {
        return Some(id);
    }
    let _count = store.len();
    trail.push(blocker, id);
    None
}

/// Visits all clauses that watch a literal that is false, up to one whose literals are all false.
#[tactic(auto, using(crate::proofs::Visits::scanned_same, crate::proofs::Watching::watch_entry))]
pub(crate) fn scan(
    store: &mut ClauseStore,
    lists: &mut WatchLists,
    trail: &mut Trail,
    falsified: Lit,
) -> Option<u32>
    requires can { CanScan store.old lists.old trail.old }
    requires of { IsAbout trail.old.vars falsified }
    requires is_false { IsFalse (lits_of trail.old.steps) falsified }
    ensures can { CanScan store.new lists.new trail.new }
    ensures scanned { Scanned falsified store.old trail.old store.new trail.new }
    ensures handled { MatchOption result
        ((e : ℕ) → 0 < watch_count (row_at store.new e) (code_of falsified) → IsSatisfied (lits_of trail.new.steps) (row_at store.new e).lits)
        (λ c. (c < length store.new) × IsFalsified (lits_of trail.new.steps) (row_at store.new c).lits) }
{
    let mut place = lists.count(falsified);
    while place > 0 {
        place -= 1;
        if let Some(conflict) = visit(store, lists, trail, falsified, place) {
            return Some(conflict);
        }
    }
    None
}

/// Makes the literal of a clause of less than two literals true; false where the clause is
/// falsified.
#[tactic(auto, using(crate::proofs::Visits::implied_same))]
fn settle(store: &ClauseStore, trail: &mut Trail, id: u32) -> bool
    requires rows { AreRows trail.old.vars store.now }
    requires short { IsShort store.now id }
    requires bottom { trail.old.limits ≡ [] }
    ensures implied { Implied (clauses_of store.now) (IsDue []) trail.old.steps trail.new.steps }
    ensures same { trail.new ≡ record trail.old { steps = trail.new.steps } }
    ensures settled { IsTrue result → IsSatisfied (lits_of trail.new.steps) (row_at store.now id).lits }
    ensures falsified { result ≡ false → IsFalsified (lits_of trail.new.steps) (row_at store.now id).lits }
{
    match store.clause(id) {
        [] => false,
        [lit, ..] => {
            let lit = *lit;
            if trail.is_true(lit) {
                return true;
            }
            if trail.is_false(lit) {
                return false;
            }
            trail.push(lit, id);
            true
        }
    }
}

/// Makes the literals of all clauses of less than two literals true, up to one that is falsified.
#[tactic(auto, using(crate::proofs::Scans::implied_trans))]
pub(crate) fn settle_all(store: &ClauseStore, trail: &mut Trail, short: &[u32]) -> Option<u32>
    requires rows { AreRows trail.old.vars store.now }
    requires short { All (IsShort store.now) short.now }
    requires bottom { trail.old.limits ≡ [] }
    ensures implied { Implied (clauses_of store.now) (IsDue []) trail.old.steps trail.new.steps }
    ensures same { trail.new ≡ record trail.old { steps = trail.new.steps } }
    ensures settled { MatchOption result
        (All (λ e. IsSatisfied (lits_of trail.new.steps) (row_at store.now e).lits) short.now)
        (λ c. (c < length store.now) × IsFalsified (lits_of trail.new.steps) (row_at store.now c).lits) }
{
    for id in short {
        if !settle(store, trail, *id) {
            return Some(*id);
        }
    }
    None
}

/// Propagates what waits on the trail, up to a clause that is falsified.
pub(crate) fn propagate_all(
    store: &mut ClauseStore,
    lists: &mut WatchLists,
    trail: &mut Trail,
    head: &mut u32,
    short: &[u32],
) -> Option<u32>
    requires { IsKept store.old lists.old trail.old head.old short.now }
    ensures kept { IsKept store.new lists.new trail.new head.new short.now }
    ensures vars { trail.new.vars ≡ trail.old.vars }
    ensures limits { trail.new.limits ≡ trail.old.limits }
    ensures same { clauses_of store.new ≡ clauses_of store.old }
    ensures implied { Implied (clauses_of store.old) (IsDue trail.old.limits) trail.old.steps trail.new.steps }
    ensures answer { MatchOption result
        (IsDone store.new trail.new head.new)
        (λ c. (c < length store.new) × IsFalsified (lits_of trail.new.steps) (row_at store.new c).lits) }
{
    if trail.depth() == 0 {
        if let Some(id) = settle_all(store, trail, short) {
            return Some(id);
        }
    }
    let mut at = *head;
    while (at as usize) < trail.len() {
        let falsified = trail.lit(at as usize).negated();
        if let Some(id) = scan(store, lists, trail, falsified) {
            *head = at;
            return Some(id);
        }
        at += 1;
    }
    *head = at;
    None
}
