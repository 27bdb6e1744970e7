//! The core of a search (CDCL): clauses, a trail with decision levels, and unit propagation by two
//! watched literals.

ghost use Rattle.std.specs.Prelude.{◌≡◌, ◌≢◌, ℕ, ◌+◌, ◌<◌, ◌≤◌, List, [], ◌∷◌, ◌++◌, Option, Some, None, MatchOption, length, get_or, map, slice_index, Contains, All, AllPairs, IfOk, OnErr, take};
ghost use Rattle.cnf_formula.specs.{Literals.LitValue, Formulas.{IsAbout, IsClause}};
ghost use Rattle.trail_core.specs.{Assigned.{IsOpen, IsValue, level_at}, Search.{IsFalsified, IsUnit, Implied}, Kept.{IsDue, AreGrounded, CanAdd}, Meaning.{CoreValue, trues, IsClosed, IsClosedBelow}, Formed.IsTrail};

use crate::adding::hold;
use crate::lists::WatchLists;
use crate::loading::watching;
use crate::propagate::propagate_all;
use crate::store::{ClauseStore, LAST};
use crate::trail::Trail;
use cnf_formula::{ClauseList, Lit};
use std::alloc::{AllocError, Global};
use std::marker::Model;

/// The number of a clause of a core.
#[derive(Clone, Copy, Debug, PartialEq, Eq)]
pub struct ClauseId {
    number: u32,
}

impl Model for ClauseId {
    ghost use Rattle.std.specs.Prelude.{ℕ};

    ghost Value = { ℕ };

    ghost view = { λ a. a.number };

    ghost inverse = { λ n. record { number = n } };
}

impl ClauseId {
    /// The clause that has this number.
    pub fn new(number: u32) -> ClauseId
        ensures { result ≡ number }
    {
        ClauseId { number }
    }

    /// The number of the clause, which is that of clauses added before it.
    pub fn number(self) -> u32
        ensures { result ≡ self }
    {
        self.number
    }
}

/// The clause database and the trail (the assignment with its decision levels and reasons) of a
/// CDCL solver. Which two literals each clause watches is no part of its value.
#[derive(Drop)]
pub struct Core {
    store: ClauseStore,
    lists: WatchLists,
    trail: Trail,
    /// How much of the trail was propagated.
    head: u32,
    /// The clauses of less than two literals.
    short: Vec<u32>,
}

impl Model for Core {
    ghost use Rattle.std.specs.Prelude.{map};
    ghost use Rattle.trail_core.specs.{Meaning.CoreValue, Kept.IsKept};

    ghost Value = { CoreValue };

    ghost view = { λ a. record { vars = a.trail.vars; clauses = map (λ r. r.lits) a.store; trail = a.trail.steps; limits = a.trail.limits } };

    ghost invariant = { λ a. IsKept a.store a.lists a.trail a.head a.short.items };
}

impl Core {
    /// A core of so many variables, numbered from 1, with no clause, all of them open. `Err` comes
    /// only where memory runs out.
    pub fn new(alloc: Global, vars: u32) -> Result<Core, AllocError>
        ensures { IfOk result (λ c. c ≡ record { vars = vars; clauses = []; trail = []; limits = [] }) }
    {
        Core::of_clauses(alloc, vars, &ClauseList::new(alloc))
    }

    /// A core of so many variables, numbered from 1, all of them open, with these clauses, none of
    /// which has a literal twice. `Err` comes only if memory runs out, or if there are more than
    /// 4,294,967,294 literals in all or 2,147,483,648 clauses.
    pub fn of_clauses(alloc: Global, vars: u32, clauses: &ClauseList) -> Result<Core, AllocError>
        requires within { All (IsClause vars) clauses.now }
        requires once { All (AllPairs (λ a b. a ≢ b)) clauses.now }
        ensures { IfOk result (λ c. c ≡ record { vars = vars; clauses = clauses.now; trail = []; limits = [] }) }
    {
        if clauses.lits().len() >= u32::MAX as usize || clauses.len() > LAST + 1 {
            return Err(AllocError);
        }
        let (lists, short) = watching(alloc, vars, clauses)?;
        Ok(Core {
            store: ClauseStore::of_clauses(alloc, clauses)?,
            lists,
            trail: Trail::new(alloc, vars)?,
            head: 0,
            short,
        })
    }

    /// The literals of a clause.
    pub fn clause(&self, id: ClauseId) -> &[Lit]
        requires { id < length self.now.clauses }
        ensures { (d : List LitValue) → result.now ≡ get_or self.now.clauses id d }
    {
        self.store.clause(id.number)
    }

    /// How many clauses there are.
    pub fn count(&self) -> u32
        ensures { result ≡ length self.now.clauses }
    {
        self.store.len()
    }

    /// The value of a literal, or none where it is open, that is unassigned.
    pub fn value(&self, lit: Lit) -> Option<bool>
        requires { lit.var ≤ self.now.vars }
        ensures { IsValue (trues self.now) lit result }
    {
        self.trail.value(lit)
    }

    /// The true literals, in the order in which they became so.
    pub fn trail(&self) -> &[Lit]
        ensures value { result.now ≡ trues self.now }
        ensures closed_below { IsClosedBelow self.now }
        ensures grounded { AreGrounded self.now }
        ensures formed { IsTrail self.now.vars self.now.trail self.now.limits }
        ensures about { All (IsClause self.now.vars) self.now.clauses }
    {
        let _many = self.trail.len();
        let _clauses = &self.store;
        self.trail.lits()
    }

    /// The present decision level; 0 is that of no decision.
    pub fn depth(&self) -> u32
        ensures { result ≡ length self.now.limits }
    {
        self.trail.depth()
    }

    /// How many literals stay true after a backjump to a level, where all above it is taken back.
    pub fn height(&self, level: u32) -> usize
        requires { level ≤ length self.now.limits }
        ensures below { level < length self.now.limits → result ≡ slice_index self.now.limits level }
        ensures all { level ≡ length self.now.limits → result ≡ length self.now.trail }
    {
        self.trail.height(level)
    }

    /// The decision level of a true literal.
    pub fn level(&self, lit: Lit) -> u32
        requires { Contains (trues self.now) lit }
        ensures { (k : ℕ) → k < length self.now.trail → get_or (trues self.now) k lit ≡ lit → result ≡ level_at self.now.limits k }
    {
        self.trail.level(lit)
    }

    /// Where a true literal stands on the trail.
    pub fn place(&self, lit: Lit) -> usize
        requires { Contains (trues self.now) lit }
        ensures within { result < length self.now.trail }
        ensures is { get_or (trues self.now) result lit ≡ lit }
        ensures only { (k : ℕ) → k < length self.now.trail → get_or (trues self.now) k lit ≡ lit → k ≡ result }
    {
        self.trail.place(lit)
    }

    /// The clause that made a true literal so (its reason, or antecedent in the implication graph);
    /// none for a decision.
    pub fn reason(&self, lit: Lit) -> Option<ClauseId>
        requires { Contains (trues self.now) lit }
        ensures { Contains self.now.trail (record { lit = lit; reason = result }) }
    {
        match self.trail.reason(lit) {
            Some(number) => Some(ClauseId { number }),
            None => None,
        }
    }

    /// Unit propagation: makes each literal true that a clause leaves alone, one after another.
    /// Some clause is then falsified (the conflict), which is named, or else the trail is closed.
    pub fn propagate(&mut self) -> Option<ClauseId>
        ensures same { self.new ≡ record self.old { trail = self.new.trail } }
        ensures implied { Implied self.old.clauses (IsDue self.old.limits) self.old.trail self.new.trail }
        ensures answer { MatchOption result
            (IsClosed (trues self.new) self.new.clauses)
            (λ id. (id < length self.new.clauses) × IsFalsified (trues self.new) (get_or self.new.clauses id [])) }
    {
        match propagate_all(
            &mut self.store,
            &mut self.lists,
            &mut self.trail,
            &mut self.head,
            &self.short,
        ) {
            Some(falsified) => Some(ClauseId { number: falsified }),
            None => None,
        }
    }

    /// Decides a literal: opens a decision level, on which an open literal is the first that is
    /// true.
    pub fn assume(&mut self, lit: Lit)
        requires within { lit.var ≤ self.old.vars }
        requires open { IsOpen (trues self.old) lit }
        requires closed { IsClosed (trues self.old) self.old.clauses }
        ensures { self.new ≡ record self.old { trail = self.old.trail ++ record { lit = lit; reason = None } ∷ []; limits = self.old.limits ++ length self.old.trail ∷ [] } }
    {
        let _closed = propagate_all(
            &mut self.store,
            &mut self.lists,
            &mut self.trail,
            &mut self.head,
            &self.short,
        );
        self.trail.decide(lit);
    }

    /// Makes an open literal true on the present level, by a clause that leaves it alone (a unit
    /// clause).
    pub fn assert(&mut self, lit: Lit, reason: ClauseId)
        requires known { reason < length self.old.clauses }
        requires alone { IsUnit (trues self.old) (get_or self.old.clauses reason []) lit }
        requires due { IsDue self.old.limits self.old.trail (get_or self.old.clauses reason []) }
        ensures { self.new ≡ record self.old { trail = self.old.trail ++ record { lit = lit; reason = Some reason } ∷ [] } }
    {
        let _count = self.store.len();
        self.trail.push(lit, reason.number);
    }

    /// Backjumps to a level: takes back all that became true above it.
    pub fn back_to(&mut self, level: u32)
        requires { level ≤ length self.old.limits }
        ensures same { level ≡ length self.old.limits → self.new ≡ self.old }
        ensures back { level < length self.old.limits → self.new ≡ record self.old { trail = take (slice_index self.old.limits level) self.old.trail; limits = take level self.old.limits } }
    {
        if level < self.trail.depth() {
            self.trail.back_to(level);
            self.head = self.trail.len() as u32;
        }
    }

    /// Adds a clause with no literal twice. Above level 0 one of its literals is open, the others
    /// are false, and one of these became false on the present level. `Err` comes only if memory
    /// runs out, or if more than 4,294,967,294 literals, 2,147,483,648 clauses or 4,294,967,295
    /// places of watch lists would be held, and then the core is as before.
    pub fn add_clause(&mut self, lits: &[Lit]) -> Result<ClauseId, AllocError>
        requires within { All (IsAbout self.old.vars) lits.now }
        requires once { AllPairs (λ a b. a ≢ b) lits.now }
        requires place { CanAdd self.old lits.now }
        ensures ok { IfOk result (λ id. (id ≡ length self.old.clauses) × (self.new ≡ record self.old { clauses = self.old.clauses ++ lits.now ∷ [] })) }
        ensures err { OnErr result (self.new ≡ self.old) }
    {
        let number = hold(
            &mut self.store,
            &mut self.lists,
            &self.trail,
            &mut self.head,
            &mut self.short,
            lits,
        )?;
        Ok(ClauseId { number })
    }

    /// Adds a clause with no literal twice, above level 0, and makes true the one of its literals
    /// that is open; the others are false, and one of these became false on the present level. That
    /// is how a clause that was learned from a conflict stands after the backjump, with the
    /// negation of the UIP open. `Err` is as for `add_clause`.
    pub fn learn(&mut self, lits: &[Lit], lit: Lit) -> Result<ClauseId, AllocError>
        requires within { All (IsAbout self.old.vars) lits.now }
        requires once { AllPairs (λ a b. a ≢ b) lits.now }
        requires place { CanAdd self.old lits.now }
        requires alone { IsUnit (trues self.old) lits.now lit }
        requires due { IsDue self.old.limits self.old.trail lits.now }
        ensures ok { IfOk result (λ id. (id ≡ length self.old.clauses) × (self.new ≡ record self.old { clauses = self.old.clauses ++ lits.now ∷ []; trail = self.old.trail ++ record { lit = lit; reason = Some id } ∷ [] })) }
        ensures err { OnErr result (self.new ≡ self.old) }
    {
        let head = self.head;
        let number = hold(
            &mut self.store,
            &mut self.lists,
            &self.trail,
            &mut self.head,
            &mut self.short,
            lits,
        )?;
        self.trail.push(lit, number);
        // The clause is satisfied now, so nothing waits on its account.
        self.head = head;
        Ok(ClauseId { number })
    }
}
