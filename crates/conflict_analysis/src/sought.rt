//! How many literals of each level a clause keeps, so that only levels are walked of which it keeps
//! two or more, and those only down to the last but one.

ghost use Rattle.std.specs.Prelude.{Contains};
ghost use Rattle.cnf_formula.specs.Literals.{LitValue};
ghost use Rattle.trail_core.specs.{Assigned.IsFalse, Meaning.trues};

use crate::place_set::PlaceSet;
use cnf_formula::{Lit, OutOfMemory};
use std::alloc::Global;
use trail_core::Core;

/// What a walk over the levels of a clause looks for: how many literals of each level are kept, and
/// which places of a level wait. Nothing but the length of a clause hangs on it.
#[derive(Drop)]
pub(crate) struct Sought {
    /// The places of a level whose literals wait to be taken for their reasons.
    pub waiting: PlaceSet,
    /// By level how many of its literals that are kept were counted and not passed. Behind a walk
    /// all are 0, unless memory ran out on it.
    kept: Vec<u32>,
    /// How many literals of the clause were counted.
    counted: usize,
}

impl Sought {
    /// Nothing is kept, over so many variables. `Err` comes only where memory runs out.
    pub fn new(alloc: Global, vars: u32) -> Result<Sought, OutOfMemory> {
        Ok(Sought {
            waiting: PlaceSet::new(alloc),
            kept: vec![in alloc; 0u32; vars as usize + 1]?,
            counted: 0,
        })
    }

    /// Begins with another clause, of which no literal was counted.
    pub fn begin(&mut self) {
        self.counted = 0;
    }

    /// Counts the literals of the clause behind those that were counted before.
    pub fn count(&mut self, core: &Core, lits: &[Lit])
        requires { (o : LitValue) → Contains lits.now o → IsFalse (trues core.now) o }
    {
        while self.counted < lits.len() {
            let level = core.level(lits[self.counted].negated());
            self.counted += 1;
            if let Some(kept) = self.kept.get_mut(level as usize) {
                *kept = kept.saturating_add(1);
            }
        }
    }

    /// How many literals of a level were counted and not passed.
    pub fn kept(&self, level: u32) -> u32 {
        match self.kept.get(level as usize) {
            Some(kept) => *kept,
            None => 0,
        }
    }

    /// Passes a literal of a level that is kept.
    pub fn pass(&mut self, level: u32) {
        if let Some(kept) = self.kept.get_mut(level as usize) {
            *kept = kept.saturating_sub(1);
        }
    }

    /// Leaves a level, of which no literal is sought any more.
    pub fn leave(&mut self, level: u32) {
        if let Some(kept) = self.kept.get_mut(level as usize) {
            *kept = 0;
        }
    }
}
