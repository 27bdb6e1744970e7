//! The trail: the literals that are true, in the order in which they became so, with the decision
//! level and the reason of each.

ghost use Rattle.std.specs.Prelude.{◌≢◌, ◌≡◌, ◌⊎◌, ◌↔◌, ℕ, ◌+◌, ◌<◌, ◌≤◌, IsTrue, [], ◌∷◌, ◌++◌, Option, Some, None, length, take, get_or, slice_set, slice_index, Contains, IfOk};
ghost use Rattle.cnf_formula.specs.Literals.{LitValue, negation, code_of};
ghost use Rattle.trail_core.specs.{Assigned.{IsFalse, IsOpen, IsValue, IsConsistent, AreLimits, level_at}, Trails.{TrailValue, lits_of}, Formed.IsTrail, inner.Packed.reason_of};

use cnf_formula::Lit;
use std::alloc::{AllocError, Global};
use std::marker::Model;

/// The value of a literal that is open.
const OPEN: u8 = 0;
/// The value of a literal that is true.
const TRUE: u8 = 1;
/// The value of a literal that is false.
const FALSE: u8 = 2;
/// What stands in the place of a literal of variable 0, which there is not.
const NEITHER: u8 = 3;
/// The reason of a decision. No clause has this number.
const NO_CLAUSE: u32 = u32::MAX;

/// The decision level on which a variable got its value, the number of the clause that gave it, and
/// where its literal stands on the trail.
#[derive(Clone, Copy)]
pub(crate) struct Assignment {
    pub level: u32,
    pub reason: u32,
    pub place: u32,
}

/// Variables with their values, and the literals that are true, level by level.
#[derive(Drop)]
pub(crate) struct Trail {
    vars: u32,
    /// By literal, so that the value of either sign is one read.
    values: Vec<u8>,
    /// By variable; what stands there while the variable is open means nothing.
    assignments: Vec<Assignment>,
    lits: Vec<Lit>,
    /// How long the trail was when each level above 0 was opened.
    limits: Vec<u32>,
}

impl Model for Trail {
    ghost use Rattle.std.specs.Prelude.{◌≡◌, ◌+◌, ◌<◌, ◌≤◌, map, length, vec_capacity};
    ghost use Rattle.trail_core.specs.{Trails.{TrailValue, step_of, IsAssigned, IsLeveled, IsPlaced}, inner.Packed.{levels_of, reasons_of, places_of}};

    ghost Value = { TrailValue };

    ghost view = { λ a. record { vars = a.vars; steps = map (step_of (reasons_of a.assignments.items)) a.lits.items; limits = a.limits.items } };

    ghost invariant = { λ a. IsAssigned a.vars a.values.items a.lits.items × IsLeveled a.vars (levels_of a.assignments.items) a.lits.items a.limits.items × (length a.assignments.items ≡ a.vars + 1) × (a.vars ≤ vec_capacity a.lits) × (a.vars ≤ vec_capacity a.limits) × (a.vars < 4294967296) × IsPlaced (places_of a.assignments.items) a.lits.items };
}

/// Gives a literal and its negation their values.
fn set_values(values: &mut Vec<u8>, lit: Lit, value: u8, negated: u8)
    requires here { code_of lit < length values.old.items }
    requires opposite { code_of (negation lit) < length values.old.items }
    ensures { values.new.items ≡ slice_set (slice_set values.old.items (code_of lit) value) (code_of (negation lit)) negated }
{
    values[lit.code()] = value;
    values[lit.negated().code()] = negated;
}

impl Trail {
    /// The trail of so many variables, all open.
    pub(crate) fn new(alloc: Global, vars: u32) -> Result<Trail, AllocError>
        ensures { IfOk result (λ t. t ≡ record { vars = vars; steps = []; limits = [] }) }
    {
        let count = vars as usize;
        let mut values = vec![in alloc; OPEN; 2 * count + 2]?;
        values[0] = NEITHER;
        values[1] = NEITHER;
        let decided = Assignment {
            level: 0,
            reason: NO_CLAUSE,
            place: 0,
        };
        Ok(Trail {
            vars,
            values,
            assignments: vec![in alloc; decided; count + 1]?,
            lits: Vec::with_capacity(alloc, count)?,
            limits: Vec::with_capacity(alloc, count)?,
        })
    }

    /// What is kept of the value of a literal.
    fn mark(&self, lit: Lit) -> u8
        requires { lit.var ≤ self.now.vars }
        ensures unset { result ≡ 0 → IsOpen (lits_of self.now.steps) lit }
        ensures is_true { (result ≡ 1) ↔ Contains (lits_of self.now.steps) lit }
        ensures is_false { (result ≡ 2) ↔ IsFalse (lits_of self.now.steps) lit }
        ensures set { result ≢ 0 → Contains (lits_of self.now.steps) lit ⊎ IsFalse (lits_of self.now.steps) lit }
    {
        self.values[lit.code()]
    }

    /// Whether the literal is true.
    pub(crate) fn is_true(&self, lit: Lit) -> bool
        requires { lit.var ≤ self.now.vars }
        ensures { IsTrue result ↔ Contains (lits_of self.now.steps) lit }
    {
        self.mark(lit) == TRUE
    }

    /// Whether the literal is false.
    pub(crate) fn is_false(&self, lit: Lit) -> bool
        requires { lit.var ≤ self.now.vars }
        ensures { IsTrue result ↔ IsFalse (lits_of self.now.steps) lit }
    {
        self.mark(lit) == FALSE
    }

    /// The value of a literal, or none where it is open.
    pub(crate) fn value(&self, lit: Lit) -> Option<bool>
        requires { lit.var ≤ self.now.vars }
        ensures { IsValue (lits_of self.now.steps) lit result }
    {
        let value = self.mark(lit);
        if value == OPEN {
            None
        } else {
            Some(value == TRUE)
        }
    }

    /// The true literals, in the order in which they became so.
    pub(crate) fn lits(&self) -> &[Lit]
        ensures value { result.now ≡ lits_of self.now.steps }
        ensures formed { IsTrail self.now.vars self.now.steps self.now.limits }
    {
        &self.lits
    }

    /// How many variables there are.
    pub(crate) fn vars(&self) -> u32
        ensures { result ≡ self.now.vars }
    {
        self.vars
    }

    /// How many literals are true.
    pub(crate) fn len(&self) -> usize
        ensures count { result ≡ length self.now.steps }
        ensures few { result ≤ self.now.vars }
        ensures small { self.now.vars < 4294967296 }
        ensures consistent { IsConsistent (lits_of self.now.steps) }
    {
        self.lits.len()
    }

    /// The true literal at a place.
    pub(crate) fn lit(&self, place: usize) -> Lit
        requires { place < length self.now.steps }
        ensures is { (d : LitValue) → result ≡ get_or (lits_of self.now.steps) place d }
        ensures some { 0 < result.var }
        ensures within { result.var ≤ self.now.vars }
    {
        self.lits[place]
    }

    /// The present decision level.
    pub(crate) fn depth(&self) -> u32
        ensures { result ≡ length self.now.limits }
    {
        self.limits.len() as u32
    }

    /// How many literals stay true after a backjump to a level, where all above it is taken back.
    pub(crate) fn height(&self, level: u32) -> usize
        requires { level ≤ length self.now.limits }
        ensures below { level < length self.now.limits → result ≡ slice_index self.now.limits level }
        ensures all { level ≡ length self.now.limits → result ≡ length self.now.steps }
    {
        if (level as usize) < self.limits.len() {
            self.limits[level as usize] as usize
        } else {
            self.lits.len()
        }
    }

    /// How long the trail was when the present level was opened.
    pub(crate) fn bottom(&self) -> u32
        ensures low { length self.now.limits ≡ 0 → result ≡ 0 }
        ensures high { (j : ℕ) → j + 1 ≡ length self.now.limits → result ≡ slice_index self.now.limits j }
        ensures above { (j : ℕ) → j < length self.now.limits → slice_index self.now.limits j ≤ result }
        ensures within { result ≤ length self.now.steps }
        ensures once { (i j : ℕ) (d : LitValue) → i < j → j < length self.now.steps → get_or (lits_of self.now.steps) i d ≢ get_or (lits_of self.now.steps) j d }
    {
        let depth = self.limits.len();
        if depth == 0 {
            0
        } else {
            self.limits[depth - 1]
        }
    }

    /// What is kept of a true literal.
    fn assignment(&self, lit: Lit) -> Assignment
        requires { Contains (lits_of self.now.steps) lit }
        ensures level { (k : ℕ) → k < length self.now.steps → get_or (lits_of self.now.steps) k lit ≡ lit → result.level ≡ level_at self.now.limits k }
        ensures within { result.place < length self.now.steps }
        ensures is { get_or (lits_of self.now.steps) result.place lit ≡ lit }
        ensures only { (k : ℕ) → k < length self.now.steps → get_or (lits_of self.now.steps) k lit ≡ lit → k ≡ result.place }
        ensures reason { Contains self.now.steps (record { lit = lit; reason = reason_of result }) }
    {
        self.assignments[lit.var() as usize]
    }

    /// The decision level of a true literal.
    pub(crate) fn level(&self, lit: Lit) -> u32
        requires { Contains (lits_of self.now.steps) lit }
        ensures { (k : ℕ) → k < length self.now.steps → get_or (lits_of self.now.steps) k lit ≡ lit → result ≡ level_at self.now.limits k }
    {
        self.assignment(lit).level
    }

    /// Where a true literal stands on the trail.
    pub(crate) fn place(&self, lit: Lit) -> usize
        requires { Contains (lits_of self.now.steps) lit }
        ensures within { result < length self.now.steps }
        ensures is { get_or (lits_of self.now.steps) result lit ≡ lit }
        ensures only { (k : ℕ) → k < length self.now.steps → get_or (lits_of self.now.steps) k lit ≡ lit → k ≡ result }
    {
        self.assignment(lit).place as usize
    }

    /// The clause that made a true literal so, its reason; none for a decision.
    pub(crate) fn reason(&self, lit: Lit) -> Option<u32>
        requires { Contains (lits_of self.now.steps) lit }
        ensures { Contains self.now.steps (record { lit = lit; reason = result }) }
    {
        let reason = self.assignment(lit).reason;
        if reason == NO_CLAUSE {
            None
        } else {
            Some(reason)
        }
    }

    /// Makes an open literal true on the present level, by the clause of this number.
    pub(crate) fn push(&mut self, lit: Lit, reason: u32)
        requires within { lit.var ≤ self.old.vars }
        requires open { IsOpen (lits_of self.old.steps) lit }
        requires small { reason < 4294967295 }
        ensures { self.new ≡ record self.old { steps = self.old.steps ++ record { lit = lit; reason = Some reason } ∷ [] } }
    {
        let var = lit.var() as usize;
        set_values(&mut self.values, lit, TRUE, FALSE);
        self.assignments[var] = Assignment {
            level: self.limits.len() as u32,
            reason,
            place: self.lits.len() as u32,
        };
        self.lits.push_reserved(lit);
    }

    /// Decides a literal: opens a decision level, on which an open literal is the first that is
    /// true.
    #[tactic(auto, using(crate::proofs::Fields::can_push))]
    pub(crate) fn decide(&mut self, lit: Lit)
        requires within { lit.var ≤ self.old.vars }
        requires open { IsOpen (lits_of self.old.steps) lit }
        ensures { self.new ≡ record self.old { steps = self.old.steps ++ record { lit = lit; reason = None } ∷ []; limits = self.old.limits ++ length self.old.steps ∷ [] } }
    {
        let var = lit.var() as usize;
        let place = self.lits.len() as u32;
        self.limits.push_reserved(place);
        set_values(&mut self.values, lit, TRUE, FALSE);
        self.assignments[var] = Assignment {
            level: self.limits.len() as u32,
            reason: NO_CLAUSE,
            place,
        };
        self.lits.push_reserved(lit);
    }

    /// Backjumps to a level: takes back all that became true above it.
    pub(crate) fn back_to(&mut self, level: u32)
        requires { level ≤ length self.old.limits }
        ensures limits { AreLimits self.old.limits (length self.old.steps) }
        ensures same { level ≡ length self.old.limits → self.new ≡ self.old }
        ensures back { level < length self.old.limits → self.new ≡ record self.old { steps = take (slice_index self.old.limits level) self.old.steps; limits = take level self.old.limits } }
    {
        let level = level as usize;
        if level >= self.limits.len() {
            return;
        }
        let keep = self.limits[level] as usize;
        while self.lits.len() > keep {
            let lit = self.lits.take_last();
            set_values(&mut self.values, lit, OPEN, OPEN);
        }
        self.limits.truncate(level);
    }
}
