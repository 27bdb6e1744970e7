//! Clauses by number, with lists of those in which a literal stands (occurrence lists), and of
//! those that it leads.

ghost use Rattle.std.specs.Prelude.{◌≡◌, ◌≢◌, ◌==◌, ℕ, ◌+◌, ◌<◌, ◌||◌, ◌&&◌, not, [], ◌∷◌, ◌++◌, Bool, false, List, length, map, filter, All, Contains, IfOk, IfSome, OnOk, OnErr, MatchOption, slice_index, slice_set, true, if◌then◌else◌, ◌≤◌};
ghost use Rattle.std.specs.{List.{list_any, list_all, enumerate_from}, Option.option_copied};
ghost use Rattle.cnf_formula.specs.{Literals.{LitValue, code_of, has_literal, is_superset}, Formulas.{IsAbout, IsClause}};
ghost use Rattle.proof_rules.specs.{Held.clause_at, Testing.{are_held, has_number_twice}, Accepting.{Group, is_made_true, without_negated}};
ghost use Rattle.lrat_checker.specs.{Stored.{TableValue, HasForgotten, Rises, list_at, is_live, kept_live, answers}, inner.Steps.Names};

use crate::leads::{LedClause, has_marked, lead_of, signature_of};
use crate::lists::{empty_lists, note};
use crate::marks::Marks;
use cnf_formula::{ClauseList, Formula, Lit, OutOfMemory};
use std::alloc::Global;
use std::collections::BTreeSet;
use std::marker::Model;

/// Clauses by ascending numbers, and whether each is held; one that is no longer held stays in its
/// place until it is forgotten. For each literal there are the places of the held clauses in which
/// it stands, and the clauses that it leads: one literal of a clause leads it. Of clauses that are
/// no longer held a list of the first kind keeps the places until it is walked, and one of the
/// second until they are forgotten.
#[derive(Drop)]
pub(crate) struct ClauseTable {
    vars: u32,
    ids: Vec<u64>,
    live: Vec<bool>,
    clauses: ClauseList,
    lists: Vec<Vec<usize>>,
    leads: Vec<Vec<LedClause>>,
}

impl Model for ClauseTable {
    ghost use Rattle.std.specs.Prelude.{map};
    ghost use Rattle.lrat_checker.specs.Stored.{TableValue, IsStored, held_of, last_of};

    ghost Value = { TableValue };

    ghost view = { λ t. record {
      vars = t.vars;
      clauses = t.clauses;
      held = held_of t.ids.items t.live.items t.clauses;
      last = last_of t.ids.items;
    } };

    ghost invariant = { λ t. IsStored t.vars t.ids.items t.live.items t.clauses (map (λ l. l.items) t.lists.items) (map (λ l. l.items) t.leads.items) };
}

/// The place of a number among ascending ones. Mostly they are 1, 2, 3 and so on, and it is found
/// at once.
fn place_of(ids: &[u64], id: u64) -> Option<usize>
    requires { Rises ids.now }
    ensures { MatchOption result (All (λ other. other ≢ id) ids.now) (λ place. (place < length ids.now) × (slice_index ids.now place ≡ id)) }
{
    let guess = id.saturating_sub(1) as usize;
    if guess < ids.len() && ids[guess] == id {
        return Some(guess);
    }
    match ids.binary_search(&id) {
        Ok(place) => Some(place),
        Err(_) => None,
    }
}

/// Holds the clauses of these numbers again.
fn restore(ids: &[u64], live: &mut [bool], gone: &[u64])
    requires rises { Rises ids.now }
    requires lives { length live.old ≡ length ids.now }
    ensures { (before : List Bool) → length before ≡ length ids.now → live.old ≡ kept_live ids.now before gone.now → All (λ id. is_live ids.now before id ≡ true) gone.now → live.new ≡ before }
{
    for id in gone {
        if let Some(place) = place_of(ids, *id) {
            live[place] = true;
        }
    }
}

/// Lets the clauses of these numbers go, if each is held and they differ. Otherwise nothing
/// changes.
fn let_go(ids: &[u64], live: &mut [bool], gone: &[u64]) -> bool
    requires rises { Rises ids.now }
    requires lives { length live.old ≡ length ids.now }
    ensures answer { result ≡ (list_all (λ id. is_live ids.now live.old id) gone.now && not (has_number_twice gone.now)) }
    ensures gone { result ≡ true → live.new ≡ kept_live ids.now live.old gone.now }
    ensures kept { result ≡ false → live.new ≡ live.old }
{
    for (taken, id) in gone.iter().enumerate() {
        match place_of(ids, *id) {
            Some(place) if live[place] => live[place] = false,
            _ => {
                restore(ids, live, &gone[..taken]);
                return false;
            }
        }
    }
    true
}

/// Whether another literal of the clause than the negated pivot is true.
fn has_other_true(clause: &[Lit], pivot: Lit, marks: &Marks) -> bool
    requires about { IsClause marks.now.vars clause.now }
    ensures { result ≡ list_any (is_made_true marks.now.falses) (without_negated pivot clause.now) }
{
    for lit in clause {
        if *lit != pivot.negated() && marks.is_true(*lit) {
            return true;
        }
    }
    false
}

/// Whether a held clause is answered: it lacks the negated pivot, has a group, or is true without
/// one.
fn is_answered(id: u64, clause: &[Lit], pivot: Lit, marks: &Marks, named: &BTreeSet<u64>) -> bool
    requires about { IsClause marks.now.vars clause.now }
    ensures { (groups : List Group) → Names named.now groups → result ≡ Rattle.proof_rules.specs.Accepting.is_answered pivot marks.now.falses groups (id, clause.now) }
{
    !has_negated(pivot, clause) || named.contains(&id) || has_other_true(clause, pivot, marks)
}

/// Puts a clause's place into the lists of its literals. An `Err` comes only where memory runs out.
fn note_literals(lists: &mut Vec<Vec<usize>>, lits: &[Lit], place: usize) -> Result<(), OutOfMemory>
    requires { All (λ l. code_of l < length lists.old.items) lits.now }
    ensures long { length lists.new.items ≡ length lists.old.items }
    ensures kept { (code k : ℕ) → Contains (list_at (map (λ l. l.items) lists.old.items) code) k → Contains (list_at (map (λ l. l.items) lists.new.items) code) k }
    ensures noted { OnOk result ((l : LitValue) → has_literal lits.now l ≡ true → Contains (list_at (map (λ l. l.items) lists.new.items) (code_of l)) place) }
{
    for lit in lits {
        note(lists, lit.code(), place)?;
    }
    Ok(())
}

/// Whether the clause at a place is held.
fn is_held(live: &[bool], place: usize) -> bool
    ensures { result ≡ Rattle.lrat_checker.specs.Stored.is_held live.now place }
{
    place < live.len() && live[place]
}

/// Drops the places whose clauses are no longer held from a list.
fn drop_gone(lists: &mut Vec<Vec<usize>>, code: usize, live: &[bool])
    requires { code < length lists.old.items }
    ensures { map (λ l. l.items) lists.new.items ≡ slice_set (map (λ l. l.items) lists.old.items) code (filter (Rattle.lrat_checker.specs.Stored.is_held live.now) (list_at (map (λ l. l.items) lists.old.items) code)) }
{
    let list = &mut lists[code];
    list.retain(|place| is_held(live, *place));
}

/// Whether each clause at these places has a group or is true without one.
fn are_answered(
    ids: &[u64],
    clauses: &ClauseList,
    list: &[usize],
    pivot: Lit,
    marks: &Marks,
    named: &BTreeSet<u64>,
) -> bool
    requires many { length clauses.now ≡ length ids.now }
    requires within { All (λ k. k < length ids.now) list.now }
    requires about { All (IsClause marks.now.vars) clauses.now }
    ensures { (groups : List Group) → Names named.now groups → result ≡ list_all (answers ids.now clauses.now pivot marks.now.falses groups) list.now }
{
    for place in list {
        let clause = clauses.clause(*place);
        if !is_answered(ids[*place], clause, pivot, marks, named) {
            return false;
        }
    }
    true
}

/// Whether the clause has the negation of the pivot.
pub(crate) fn has_negated(pivot: Lit, clause: &[Lit]) -> bool
    ensures { result ≡ Rattle.proof_rules.specs.Accepting.has_negated pivot clause.now }
{
    clause.iter().any(|lit| *lit == pivot.negated())
}

impl ClauseTable {
    /// No clause, over so many variables.
    fn empty(alloc: Global, vars: u32) -> Result<ClauseTable, OutOfMemory>
        ensures { IfOk result (λ t. t ≡ record { vars = vars; clauses = []; held = []; last = 0 }) }
    {
        let count = 2 * vars as usize + 2;
        Ok(ClauseTable {
            vars,
            ids: Vec::new(alloc),
            live: Vec::new(alloc),
            clauses: ClauseList::new(alloc),
            lists: empty_lists(alloc, count)?,
            leads: empty_lists(alloc, count)?,
        })
    }

    /// The clauses of a formula, numbered from 1.
    pub(crate) fn new(alloc: Global, formula: &Formula) -> Result<ClauseTable, OutOfMemory>
        ensures { IfOk result (λ t. t ≡ record { vars = formula.now.vars; clauses = formula.now.clauses; held = enumerate_from 1 formula.now.clauses; last = length formula.now.clauses }) }
    {
        let mut table = ClauseTable::empty(alloc, formula.vars())?;
        let clauses = formula.clauses();
        for place in 0..clauses.len() {
            table.push(place as u64 + 1, clauses.clause(place), true)?;
        }
        Ok(table)
    }

    /// How many variables there are.
    pub(crate) fn vars(&self) -> u32
        ensures { result ≡ self.now.vars }
    {
        self.vars
    }

    /// The clause that is held under a number.
    pub(crate) fn clause(&self, id: u64) -> Option<&[Lit]>
        ensures held { option_copied result ≡ clause_at self.now.held id }
        ensures about { IfSome result (λ clause. IsClause self.now.vars clause.now) }
    {
        let place = place_of(&self.ids, id)?;
        if self.live[place] {
            Some(self.clauses.clause(place))
        } else {
            None
        }
    }

    /// Puts a clause in under a number greater than all before, and says whether it is held. An
    /// `Err` comes only where memory runs out, and then nothing changes.
    pub(crate) fn push(&mut self, id: u64, lits: &[Lit], held: bool) -> Result<(), OutOfMemory>
        requires above { self.old.last < id }
        requires about { IsClause self.old.vars lits.now }
        ensures added { OnOk result (self.new ≡ record { vars = self.old.vars; clauses = self.old.clauses ++ lits.now ∷ []; held = self.old.held ++ (if held then (id, lits.now) ∷ [] else []); last = id }) }
        ensures kept { OnErr result (self.new ≡ self.old) }
    {
        self.ids.reserve(1)?;
        self.live.reserve(1)?;
        let place = self.ids.len();
        let lead = lead_of(&self.lists, lits);
        let signature = signature_of(lits);
        note_literals(&mut self.lists, lits, place)?;
        note(&mut self.leads, lead, LedClause { place, signature })?;
        self.clauses.push(lits)?;
        self.ids.push_reserved(id);
        self.live.push_reserved(held);
        Ok(())
    }

    /// Forgets the clauses that are no longer held, but for the first so many. An `Err` comes only
    /// where memory runs out, and then nothing changes.
    pub(crate) fn forget(&mut self, first: usize) -> Result<(), OutOfMemory>
        requires { first ≤ length self.old.clauses }
        ensures fewer { OnOk result (HasForgotten first self.old self.new) }
        ensures kept { OnErr result (self.new ≡ self.old) }
    {
        let mut table = ClauseTable::empty(*self.ids.allocator(), self.vars)?;
        for place in 0..self.ids.len() {
            let held = self.live[place];
            if held || place < first {
                table.push(self.ids[place], self.clauses.clause(place), held)?;
            }
        }
        *self = table;
        Ok(())
    }

    /// Lets the clauses of these numbers go, and says that it did: if each is held and they differ.
    /// Otherwise nothing changes.
    pub(crate) fn remove(&mut self, gone: &[u64]) -> bool
        ensures answer { result ≡ (are_held self.old.held gone.now && not (has_number_twice gone.now)) }
        ensures removed { result ≡ true → self.new ≡ record self.old { held = filter (λ entry. not (list_any (λ id. id == entry.0) gone.now)) self.old.held } }
        ensures kept { result ≡ false → self.new ≡ self.old }
    {
        let_go(&self.ids, &mut self.live, gone)
    }

    /// Whether each held clause with the negation of the pivot has a group or is true without one.
    /// It looks at no clause but those in the list of that literal, and first drops from it those
    /// that are no longer held, so that each of them costs once.
    pub(crate) fn all_answered(&mut self, pivot: Lit, marks: &Marks, named: &BTreeSet<u64>) -> bool
        requires pivot { IsAbout self.old.vars pivot }
        requires same { marks.now.vars ≡ self.old.vars }
        ensures answer { (groups : List Group) → Names named.now groups → result ≡ list_all (Rattle.proof_rules.specs.Accepting.is_answered pivot marks.now.falses groups) self.old.held }
        ensures table { self.new ≡ self.old }
    {
        let code = pivot.negated().code();
        drop_gone(&mut self.lists, code, &self.live);
        are_answered(
            &self.ids,
            &self.clauses,
            &self.lists[code],
            pivot,
            marks,
            named,
        )
    }

    /// Whether every literal of some held clause is marked, where just these literals are. It looks
    /// at no clause but those that these literals lead, and those without a literal, and of these
    /// at none whose signature has another bit.
    pub(crate) fn has_subset(&self, lits: &[Lit], marks: &Marks) -> bool
        requires about { IsClause self.now.vars lits.now }
        requires same { marks.now.vars ≡ self.now.vars }
        requires marked { marks.now.falses ≡ lits.now }
        ensures { result ≡ list_any (λ entry. is_superset lits.now entry.1) self.now.held }
    {
        let signature = signature_of(lits);
        let bare = &self.leads[0];
        if has_marked(&self.live, &self.clauses, bare, marks, signature) {
            return true;
        }
        for lit in lits {
            let list = &self.leads[lit.code()];
            if has_marked(&self.live, &self.clauses, list, marks, signature) {
                return true;
            }
        }
        false
    }
}
