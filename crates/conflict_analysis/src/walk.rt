//! What an analysis has met so far on its walk down the trail.

ghost use Rattle.std.specs.Prelude.{◌≡◌, ℕ, ◌+◌, ◌<◌, ◌≤◌, [], length, slice_index, IfOk};
ghost use Rattle.conflict_analysis.specs.{Met.IsRested, PlaceSets.HasPlace};

use crate::place_set::PlaceSet;
use cnf_formula::{Lit, OutOfMemory};
use std::alloc::Global;

/// The literal stands in the clause that is learned.
pub const KEPT: u8 = 0;
/// The literal's step, of the last level, waits.
pub const OPEN: u8 = 1;
/// The literal's step was taken for its reason.
pub const RESOLVED: u8 = 2;
/// The literal's step, of level 0, waits.
pub const BOTTOM: u8 = 3;

/// From this stamp on the stamps begin anew.
const LAST: u8 = 248;

/// The literals that an analysis met, and what becomes of each.
#[derive(Drop)]
pub struct Walk {
    /// By variable the stamp of the last analysis that met it, and what became of it, as one sum.
    pub marks: Vec<u8>,
    /// The stamp of this analysis, above all marks of those before it.
    pub stamp: u8,
    /// The literals that stand in the learned clause.
    pub lits: Vec<Lit>,
    /// The reasons of the resolved steps, the last one on the trail first.
    pub hints: Vec<i64>,
    /// How many steps of the last level wait.
    pub open_: usize,
    /// How many steps of level 0 wait.
    pub zeros: usize,
    /// The literals above level 0 that were met.
    pub met: Vec<Lit>,
    /// The places of the literals that were met, by which a walk finds the next one.
    pub(crate) met_places: PlaceSet,
}

impl Walk {
    /// Nothing is met yet, of so many variables. `Err` comes only where memory runs out.
    pub fn new(alloc: Global, vars: u32) -> Result<Walk, OutOfMemory>
        ensures { IfOk result (λ walk. IsRested vars walk.stamp walk.marks.items) }
    {
        Ok(Walk {
            marks: vec![in alloc; 0u8; vars as usize + 1]?,
            stamp: 0,
            lits: Vec::new(alloc),
            hints: Vec::new(alloc),
            open_: 0,
            zeros: 0,
            met: Vec::new(alloc),
            met_places: PlaceSet::new(alloc),
        })
    }

    /// Begins a walk, with the next stamp. Past the last stamp all marks are taken away, and the
    /// stamps begin anew.
    pub fn begin(&mut self)
        requires { (v : ℕ) → slice_index self.old.marks.items v < self.old.stamp + 4 }
        ensures len { length self.new.marks.items ≡ length self.old.marks.items }
        ensures low { (v : ℕ) → slice_index self.new.marks.items v < self.new.stamp }
        ensures few { self.new.stamp ≤ 251 }
        ensures lits { self.new.lits.items ≡ [] }
        ensures hints { self.new.hints.items ≡ [] }
        ensures open { self.new.open_ ≡ 0 }
        ensures zeros { self.new.zeros ≡ 0 }
        ensures none { (k : ℕ) → HasPlace self.new.met_places k → ⊥ }
    {
        if self.stamp >= LAST {
            self.marks.fill(0);
            self.stamp = 0;
        }
        self.stamp += 4;
        self.lits.clear();
        self.hints.clear();
        self.open_ = 0;
        self.zeros = 0;
        self.met.clear();
        self.met_places.clear();
    }
}
