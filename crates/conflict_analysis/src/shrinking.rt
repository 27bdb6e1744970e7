//! Literals below the last level are taken out of a clause. Where two or more of a level are kept,
//! one of that level may stand for all of them (shrinking: Fleury and Biere 2021, "Efficient
//! All-UIP Learned Clause Minimization"); else those are taken out that the others imply (clause
//! minimisation).

ghost use Rattle.std.specs.Prelude.{◌-◌, ◌<◌, ◌≤◌, IsTrue, length, get_or, OnOk};
ghost use Rattle.trail_core.specs.Formed.{IsTrail};
ghost use Rattle.conflict_analysis.specs.{Met.{value_of, IsSorted, IsPassed}, inner.Walks.{IsStep, HasWalked, HasSameOpen}};

use crate::implied::Implied;
use crate::level_point::has_point;
use crate::meeting::{is_waiting, met_between, resolve};
use crate::walk::{KEPT, Walk};
use cnf_formula::OutOfMemory;
use trail_core::Core;

/// Passes a place of a level. Whether its literal is kept, has a reason, and the level has a point
/// or others are found to imply the literal.
fn is_spare(
    core: &Core,
    walk: &Walk,
    implied: &mut Implied,
    level: u32,
    place: usize,
    shrinks: bool,
) -> bool
    requires sorted { IsSorted core.now (value_of walk.now) }
    requires few { walk.now.stamp ≤ 251 }
    requires place { place < length core.now.trail }
    ensures { IsTrue result → IsStep core.now (value_of walk.now) place }
{
    if !is_waiting(core, walk, place, KEPT) {
        return false;
    }
    implied.sought.pass(level);
    let lit = core.trail()[place];
    let Some(_reason) = core.reason(lit) else {
        return false;
    };
    shrinks || implied.is_implied(core, lit.negated())
}

/// Resolves the steps of a level between level 0 and the last level whose literals are to be taken
/// out. One that is left alone of its level stays: its reasons lead to the decision of the level, so
/// the others do not imply it.
fn walk_level(
    core: &Core,
    walk: &mut Walk,
    implied: &mut Implied,
    level: u32,
) -> Result<(), OutOfMemory>
    requires formed { IsTrail core.now.vars core.now.trail core.now.limits }
    requires sorted { IsSorted core.now (value_of walk.old) }
    requires few { walk.old.stamp ≤ 251 }
    requires above { 0 < level }
    requires below { level < length core.now.limits }
    requires passed { IsPassed core.now 3 (value_of walk.old) (get_or core.now.limits level 0) }
    ensures walked { OnOk result (HasWalked core.now 3 (value_of walk.old) (value_of walk.new) (get_or core.now.limits (level - 1) 0)) }
    ensures same { OnOk result (HasSameOpen core.now (value_of walk.old) (value_of walk.new)) }
{
    if implied.sought.kept(level) < 2 {
        implied.sought.leave(level);
        return Ok(());
    }
    let from = core.height(level - 1);
    let to = core.height(level);
    let shrinks = has_point(core, walk, implied, level, from, to)?;
    let mut place = to;
    while implied.sought.kept(level) > 1 {
        let Some(next) = met_between(walk, from, place) else {
            break;
        };
        place = next;
        if is_spare(core, walk, implied, level, place, shrinks) {
            resolve(core, walk, place)?;
            implied.sought.count(core, &walk.lits);
        }
    }
    implied.sought.leave(level);
    Ok(())
}

/// Resolves the steps between level 0 and the last level whose literals are to be taken out.
#[tactic(auto, using(crate::proofs::Waiting::walked_none, crate::proofs::Waiting::walked_then))]
pub fn walk_middle(core: &Core, walk: &mut Walk, implied: &mut Implied) -> Result<(), OutOfMemory>
    requires formed { IsTrail core.now.vars core.now.trail core.now.limits }
    requires sorted { IsSorted core.now (value_of walk.old) }
    requires few { walk.old.stamp ≤ 251 }
    requires above { 0 < length core.now.limits }
    requires passed { IsPassed core.now 3 (value_of walk.old) (get_or core.now.limits (length core.now.limits - 1) 0) }
    ensures walked { OnOk result (HasWalked core.now 3 (value_of walk.old) (value_of walk.new) (get_or core.now.limits 0 0)) }
    ensures same { OnOk result (HasSameOpen core.now (value_of walk.old) (value_of walk.new)) }
{
    implied.begin(&walk.lits);
    implied.sought.begin();
    implied.sought.count(core, &walk.lits);
    let mut level = core.depth();
    while level > 1 {
        level -= 1;
        walk_level(core, walk, implied, level)?;
    }
    Ok(())
}
