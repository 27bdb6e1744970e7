//! What is learned of a literal of level 0: a line of this literal alone.

ghost use Rattle.std.specs.Prelude.{◌≡◌, ◌<◌, length, IfOk, OnOk};
ghost use Rattle.conflict_analysis.specs.{Met.IsRested, UnitLines.IsUnitLine};

use crate::analyze::walk_bottom;
use crate::meeting::meet;
use crate::walk::Walk;
use cnf_formula::{OutOfMemory, ProofLine};
use std::alloc::Global;
use std::mem;
use trail_core::Core;

/// The line of the literal at a place of the trail, on level 0. Its hints, by the core's numbers
/// from 1, are the reasons of the literals from which it follows, and then its own. `Err` comes
/// only where memory runs out.
pub fn unit_at(
    alloc: Global,
    core: &Core,
    walk: &mut Walk,
    place: usize,
) -> Result<ProofLine, OutOfMemory>
    requires bottom { length core.now.limits ≡ 0 }
    requires place { place < length core.now.trail }
    requires rested { IsRested core.now.vars walk.old.stamp walk.old.marks.items }
    ensures settled { IfOk result (IsUnitLine core.now place) }
    ensures rested { OnOk result (IsRested core.now.vars walk.new.stamp walk.new.marks.items) }
{
    let id = u64::from(core.count()) + 1;
    let lit = core.trail()[place];
    walk.begin();
    meet(core, walk, lit.negated())?;
    walk_bottom(core, walk, place + 1)?;
    let mut lits = Vec::with_capacity(alloc, 1)?;
    lits.push(lit)?;
    let mut hints = mem::replace(&mut walk.hints, Vec::new(alloc));
    hints.reverse();
    Ok(ProofLine { id, lits, hints })
}
