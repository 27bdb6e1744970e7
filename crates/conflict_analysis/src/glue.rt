//! On how many decision levels the literals of a clause are false (LBD, glue).

ghost use Rattle.std.specs.Prelude.{Contains};
ghost use Rattle.cnf_formula.specs.Literals.{LitValue};
ghost use Rattle.trail_core.specs.{Assigned.IsFalse, Meaning.trues};

use crate::seen::Seen;
use cnf_formula::{Lit, OutOfMemory};
use std::alloc::Global;
use trail_core::Core;

/// The levels that a count has met. Nothing hangs on it but which clauses sleep, and when a search
/// begins anew.
#[derive(Drop)]
pub struct Glue {
    seen: Seen,
}

impl Glue {
    /// No level is met, of a core with so many variables. `Err` comes only where memory runs out.
    pub fn new(alloc: Global, vars: u32) -> Result<Glue, OutOfMemory> {
        Ok(Glue {
            seen: Seen::new(alloc, vars)?,
        })
    }

    /// On how many levels the literals of a clause became false (LBD: Audemard and Simon 2009).
    pub fn count(&mut self, core: &Core, lits: &[Lit]) -> u32
        requires { (o : LitValue) → Contains lits.now o → IsFalse (trues core.now) o }
    {
        self.seen.clear();
        let mut levels = 0u32;
        for lit in lits {
            let level = core.level(lit.negated());
            if self.seen.add(level) {
                levels = levels.saturating_add(1);
            }
        }
        levels
    }
}
