//! Which literals of a clause the others imply (recursive clause minimisation).

ghost use Rattle.std.specs.Prelude.{◌≤◌, ◌<◌, IsTrue, Contains, IfSome};
ghost use Rattle.cnf_formula.specs.Formulas.{IsClause};
ghost use Rattle.trail_core.specs.Meaning.{trues};

use crate::sought::Sought;
use cnf_formula::{Lit, OutOfMemory};
use std::alloc::Global;
use trail_core::Core;

/// The literal stands in the clause.
const STANDS: u32 = 0;
/// The clause's literals imply it.
const IMPLIED: u32 = 1;
/// That they do was not found.
const OPEN: u32 = 2;

/// From this stamp on the stamps begin anew.
const LAST: u32 = 4_294_967_280;

/// Reasons of reasons are followed so far.
const DEEPEST: u32 = 256;

/// What is known of a clause whose literals are all false: which others are false where these are
/// (Sörensson and Biere 2009). Nothing but the length of a clause hangs on it.
#[derive(Drop)]
pub struct Implied {
    /// By variable the stamp of the last clause that met it, and what was found, as one sum.
    marks: Vec<u32>,
    /// The stamp of this clause, above all marks of those before it.
    stamp: u32,
    /// What a walk over the levels of the clause looks for.
    pub(crate) sought: Sought,
    ghost small: { stamp < 4294967290 },
}

/// The clause that made a literal true; none for a decision, and where it is not true.
pub fn reason_of(core: &Core, lit: Lit) -> Option<&[Lit]>
    requires { lit.var ≤ core.now.vars }
    ensures { IfSome result (λ clause. IsClause core.now.vars clause.now) }
{
    if core.value(lit) != Some(true) {
        return None;
    }
    let id = core.reason(lit)?;
    if id.number() >= core.count() {
        return None;
    }
    let _known = core.trail();
    Some(core.clause(id))
}

/// Whether a literal became true on a level.
pub fn is_of(core: &Core, lit: Lit, level: u32) -> bool
    requires { lit.var ≤ core.now.vars }
    ensures { IsTrue result → Contains (trues core.now) lit }
{
    core.value(lit) == Some(true) && core.level(lit) == level
}

impl Implied {
    /// Of no clause anything is known, over so many variables. `Err` comes only where memory runs
    /// out.
    pub fn new(alloc: Global, vars: u32) -> Result<Implied, OutOfMemory> {
        Ok(Implied {
            marks: vec![in alloc; 0u32; vars as usize + 1]?,
            stamp: 0,
            sought: Sought::new(alloc, vars)?,
        })
    }

    /// Begins with a clause of these literals.
    pub fn begin(&mut self, lits: &[Lit]) {
        if self.stamp >= LAST {
            self.marks.fill(0);
            self.stamp = 0;
        }
        self.stamp += 3;
        for lit in lits {
            self.note(*lit, STANDS);
        }
    }

    /// Keeps what was found of a literal.
    fn note(&mut self, lit: Lit, found: u32)
        requires { found < 3 }
    {
        let mark = self.stamp + found;
        if let Some(place) = self.marks.get_mut(lit.var() as usize) {
            *place = mark;
        }
    }

    /// Whether the clause implies a literal, as far as that is known.
    fn known(&self, core: &Core, lit: Lit) -> Option<bool>
        requires { lit.var ≤ core.now.vars }
    {
        if is_of(core, lit.negated(), 0) {
            return Some(true);
        }
        let mark = *self.marks.get(lit.var() as usize)?;
        if mark < self.stamp {
            return None;
        }
        Some(mark - self.stamp != OPEN)
    }

    /// Whether each other literal of a false literal's reason stands in the clause, became false on
    /// level 0, or is implied itself.
    fn follows(&mut self, core: &Core, lit: Lit, deep: u32) -> bool
        requires { lit.var ≤ core.now.vars }
    {
        let this = lit.negated();
        let Some(reason) = reason_of(core, this) else {
            self.note(lit, OPEN);
            return false;
        };
        for other in reason {
            let is_out = *other == this
                || match self.known(core, *other) {
                    Some(known) => known,
                    None => deep > 0 && self.follows(core, *other, deep - 1),
                };
            if !is_out {
                self.note(lit, OPEN);
                return false;
            }
        }
        self.note(lit, IMPLIED);
        true
    }

    /// Whether the other literals of the clause imply a literal of it, or of a reason that was
    /// taken for one.
    pub fn is_implied(&mut self, core: &Core, lit: Lit) -> bool
        requires { lit.var ≤ core.now.vars }
    {
        match self.marks.get(lit.var() as usize) {
            Some(mark) if *mark == self.stamp + IMPLIED => true,
            _ => self.follows(core, lit, DEEPEST),
        }
    }

    /// Whether a false literal stands in the clause, became false on level 0, or is implied.
    pub fn is_out(&mut self, core: &Core, lit: Lit) -> bool
        requires { lit.var ≤ core.now.vars }
    {
        match self.known(core, lit) {
            Some(known) => known,
            None => self.follows(core, lit, DEEPEST),
        }
    }
}
