//! What is learned from a conflict (conflict analysis): the first literal of the last level through
//! which it comes about, the first unique implication point (UIP), and literals of lower levels.

ghost use Rattle.std.specs.Prelude.{◌≡◌, ◌+◌, ◌<◌, ◌≤◌, None, Some, length, Contains, IfOk, OnOk, MatchOption};
ghost use Rattle.cnf_formula.specs.Literals.{LitValue};
ghost use Rattle.trail_core.specs.{Kept.AreGrounded, Formed.IsTrail};
ghost use Rattle.conflict_analysis.specs.{Met.{value_of, IsSorted, IsPassed, IsImplicationPoint, IsRested, left_of}, Conflicts.IsConflict, Learned.IsLearned, inner.Walks.{HasWalked, HasSameOpen, HasSameAbove}};

use crate::implied::Implied;
use crate::meeting::{hint, meet_all, resolve, waiting_below};
use crate::shrinking::walk_middle;
use crate::walk::{BOTTOM, KEPT, OPEN, Walk};
use cnf_formula::{Lit, OutOfMemory, ProofLine};
use std::alloc::Global;
use trail_core::{ClauseId, Core};

/// Resolves steps of the last level from the end of the trail on, until a single one waits. Gives
/// the place above which all were passed.
#[tactic(auto, using(trail_core::proofs::Keeping::lits_length, crate::proofs::Waiting::walked_none))]
fn walk_last(core: &Core, walk: &mut Walk) -> Result<usize, OutOfMemory>
    requires sorted { IsSorted core.now (value_of walk.old) }
    requires few { walk.old.stamp ≤ 251 }
    requires some { 0 < walk.old.open_ }
    requires passed { IsPassed core.now 1 (value_of walk.old) (length core.now.trail) }
    ensures walked { IfOk result (HasWalked core.now 1 (value_of walk.old) (value_of walk.new)) }
    ensures one { OnOk result (walk.new.open_ ≡ 1) }
{
    let mut place = core.trail().len();
    while walk.open_ > 1 {
        place = waiting_below(core, walk, place, OPEN);
        walk.open_ -= 1;
        resolve(core, walk, place)?;
    }
    Ok(place)
}

/// The literal of the last level whose step still waits.
fn point_below(core: &Core, walk: &Walk, from: usize) -> Lit
    requires sorted { IsSorted core.now (value_of walk.now) }
    requires few { walk.now.stamp ≤ 251 }
    requires one { walk.now.open_ ≡ 1 }
    requires passed { IsPassed core.now 1 (value_of walk.now) from }
    ensures { IsImplicationPoint core.now (value_of walk.now) result }
{
    core.trail()[waiting_below(core, walk, from, OPEN)]
}

/// Resolves all steps of level 0 that wait, from a place above them on.
#[tactic(auto, using(crate::proofs::Waiting::walked_none))]
pub fn walk_bottom(core: &Core, walk: &mut Walk, from: usize) -> Result<(), OutOfMemory>
    requires formed { IsTrail core.now.vars core.now.trail core.now.limits }
    requires grounded { AreGrounded core.now }
    requires sorted { IsSorted core.now (value_of walk.old) }
    requires few { walk.old.stamp ≤ 251 }
    requires from { from ≤ length core.now.trail }
    requires passed { IsPassed core.now 3 (value_of walk.old) from }
    ensures walked { OnOk result (HasWalked core.now 3 (value_of walk.old) (value_of walk.new) 0) }
    ensures none { OnOk result (walk.new.zeros ≡ 0) }
    ensures same { OnOk result (HasSameOpen core.now (value_of walk.old) (value_of walk.new)) }
    ensures above { OnOk result (HasSameAbove core.now from (value_of walk.old) (value_of walk.new)) }
{
    let mut place = from;
    while walk.zeros > 0 {
        place = waiting_below(core, walk, place, BOTTOM);
        walk.zeros -= 1;
        resolve(core, walk, place)?;
    }
    Ok(())
}

/// The literals that are kept still.
fn kept_lits(alloc: Global, walk: &Walk) -> Result<Vec<Lit>, OutOfMemory>
    requires room { (o : LitValue) → Contains walk.now.lits.items o → o.var < length walk.now.marks.items }
    requires few { walk.now.stamp ≤ 251 }
    ensures { IfOk result (λ lits. lits.items ≡ left_of walk.now.stamp walk.now.marks.items walk.now.lits.items) }
{
    let mut left = Vec::with_capacity(alloc, walk.lits.len().saturating_add(1))?;
    for lit in &walk.lits {
        if walk.marks[lit.var() as usize] == walk.stamp + KEPT {
            left.push(*lit)?;
        }
    }
    Ok(left)
}

/// Resolves all that is to be resolved. The literal of the last level that is left; none where that
/// is level 0.
fn walk_all(core: &Core, walk: &mut Walk, implied: &mut Implied) -> Result<Option<Lit>, OutOfMemory>
    requires formed { IsTrail core.now.vars core.now.trail core.now.limits }
    requires grounded { AreGrounded core.now }
    requires sorted { IsSorted core.now (value_of walk.old) }
    requires few { walk.old.stamp ≤ 251 }
    requires passed { IsPassed core.now 3 (value_of walk.old) (length core.now.trail) }
    requires some { 0 < length core.now.limits → 0 < walk.old.open_ }
    ensures walked { OnOk result (HasWalked core.now 3 (value_of walk.old) (value_of walk.new) 0) }
    ensures none { OnOk result (walk.new.zeros ≡ 0) }
    ensures point { IfOk result (λ point. MatchOption point (length core.now.limits ≡ 0) (λ l. IsImplicationPoint core.now (value_of walk.new) l × (0 < length core.now.limits))) }
{
    if core.depth() == 0 {
        walk_bottom(core, walk, core.trail().len())?;
        return Ok(None);
    }
    let place = walk_last(core, walk)?;
    let point = point_below(core, walk, place);
    walk_middle(core, walk, implied)?;
    walk_bottom(core, walk, core.height(0))?;
    Ok(Some(point))
}

/// The line that is learned from a clause that is falsified: one literal of the last level, as the
/// last one, and literals that became false between level 0 and the last level; no literal on level
/// 0. Its hints are by the core's numbers, from 1. `Err` comes only where memory runs out.
pub fn line_at(
    alloc: Global,
    core: &Core,
    walk: &mut Walk,
    implied: &mut Implied,
    conflict: ClauseId,
) -> Result<ProofLine, OutOfMemory>
    requires conflict { IsConflict core.now conflict }
    requires rested { IsRested core.now.vars walk.old.stamp walk.old.marks.items }
    ensures learned { IfOk result (IsLearned core.now conflict) }
    ensures rested { OnOk result (IsRested core.now.vars walk.new.stamp walk.new.marks.items) }
{
    let id = u64::from(core.count()) + 1;
    walk.begin();
    meet_all(core, walk, conflict)?;
    let point = walk_all(core, walk, implied)?;
    let mut lits = kept_lits(alloc, walk)?;
    if let Some(point) = point {
        lits.push(point.negated())?;
    }
    let mut hints = Vec::with_capacity(alloc, walk.hints.len().saturating_add(1))?;
    hints.extend_from_slice(&walk.hints)?;
    hints.reverse();
    hints.push(hint(conflict))?;
    Ok(ProofLine { id, lits, hints })
}
