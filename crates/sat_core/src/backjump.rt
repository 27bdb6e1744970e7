//! Going back from a conflict (backjump), and adding what was learned from it.

ghost use Rattle.std.specs.Prelude.{◌≡◌, ◌+◌, ◌<◌, [], ◌∷◌, ◌++◌, Contains, length, slice_index, take, IfOk, OnOk};
ghost use Rattle.cnf_formula.specs.Literals.{LitValue};
ghost use Rattle.trail_core.specs.{Assigned.IsFalse, Meaning.trues, Formed.IsTrail};
ghost use Rattle.sat_core.specs.inner.Jumping.{HasLevel, AreUpTo, IsBacked, front_of};

use cnf_formula::{Lit, OutOfMemory, ProofLine};
use decision_order::Decider;
use trail_core::{ClauseId, Core};

/// The highest level on which one of the literals became false, 0 where there are none.
fn highest(core: &Core, lits: &[Lit]) -> u32
    requires { (o : LitValue) → Contains lits.now o → IsFalse (trues core.now) o }
    ensures top { AreUpTo core.now lits.now result }
    ensures attained { 0 < result → HasLevel core.now lits.now result }
{
    let mut top = 0;
    for lit in lits {
        let level = core.level(lit.negated());
        if level > top {
            top = level;
        }
    }
    top
}

/// Gives the literals from a place of the trail on to the decisions that come.
#[tactic(auto, using(std::proofs::lemmas::Bool::Decides::nat_tests, std::proofs::lemmas::Grind::common_steps, crate::proofs::Members::list_steps))]
pub fn release_from(core: &Core, decider: &mut Decider, from: usize) -> Result<(), OutOfMemory>
    requires { decider.old ≡ core.now.vars }
    ensures { decider.new ≡ decider.old }
{
    let trail = core.trail();
    decider.release(&trail[trail.len().min(from)..])
}

/// Goes back to level 0.
pub fn go_to_bottom(core: &mut Core, decider: &mut Decider) -> Result<(), OutOfMemory>
    requires decider { decider.old ≡ core.old.vars }
    ensures decider { decider.new ≡ decider.old }
    ensures vars { core.new.vars ≡ core.old.vars }
    ensures clauses { core.new.clauses ≡ core.old.clauses }
    ensures bottom { OnOk result (length core.new.limits ≡ 0) }
    ensures trail { 0 < length core.old.limits → OnOk result (core.new.trail ≡ take (slice_index core.old.limits 0) core.old.trail) }
{
    release_from(core, decider, core.height(0))?;
    core.back_to(0);
    Ok(())
}

/// Goes back to a level on which the clause has a literal, and all but its last literal are false,
/// and adds it there: it makes the last literal true.
#[tactic(auto, using(crate::proofs::Jumping::backed_some))]
fn jump(core: &mut Core, lits: &[Lit], level: u32) -> Result<ClauseId, OutOfMemory>
    requires formed { IsTrail core.old.vars core.old.trail core.old.limits }
    requires backed { IsBacked core.old lits.now }
    requires above { level < length core.old.limits }
    requires top { AreUpTo core.old (front_of lits.now) level }
    requires attained { HasLevel core.old (front_of lits.now) level }
    ensures vars { core.new.vars ≡ core.old.vars }
    ensures id { IfOk result (λ id. id ≡ length core.old.clauses) }
    ensures added { OnOk result (core.new.clauses ≡ core.old.clauses ++ lits.now ∷ []) }
{
    core.back_to(level);
    Ok(core.learn(lits, lits[lits.len() - 1])?)
}

/// Goes back to the second highest level of the line's clause, or to level 0 where the search
/// begins anew, and adds it. Gives its number in the core.
pub fn go_back(
    core: &mut Core,
    decider: &mut Decider,
    line: &ProofLine,
    anew: bool,
) -> Result<ClauseId, OutOfMemory>
    requires formed { IsTrail core.old.vars core.old.trail core.old.limits }
    requires backed { IsBacked core.old line.now.lits }
    requires above { 0 < length core.old.limits }
    requires decider { decider.old ≡ core.old.vars }
    ensures decider { decider.new ≡ decider.old }
    ensures vars { core.new.vars ≡ core.old.vars }
    ensures id { IfOk result (λ id. id ≡ length core.old.clauses) }
    ensures added { OnOk result (core.new.clauses ≡ core.old.clauses ++ line.now.lits ∷ []) }
{
    let lits = line.lits.as_slice();
    let level = if anew {
        0
    } else {
        highest(core, &lits[..lits.len() - 1])
    };
    release_from(core, decider, core.height(level))?;
    if level == 0 {
        core.back_to(0);
        Ok(core.add_clause(lits)?)
    } else {
        jump(core, lits, level)
    }
}
