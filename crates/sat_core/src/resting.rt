//! Learned clauses that were of little use fall asleep (clause database reduction).

ghost use Rattle.std.specs.Prelude.{◌≡◌, ◌+◌, ◌<◌, ◌≤◌, All, length, IfOk, OnOk};
ghost use Rattle.cnf_formula.specs.Formulas.{IsClause};
ghost use Rattle.sat_core.specs.inner.{Going.StaysReady, Guided.IsGuided, Dividing.IsDividing};
ghost use Rattle.sleeping_clauses.specs.{Naming.IsListed, Sleeping.{SleepersValue, AreFew}};

use crate::backjump::release_from;
use crate::guide::Guide;
use cnf_formula::{ClauseList, OutOfMemory};
use sleeping_clauses::{Awake, Sleepers};
use std::alloc::Global;
use trail_core::{ClauseId, Core};

/// Puts the clause at a place to sleep, or among those that are left.
#[tactic(auto, using(std::proofs::lemmas::Bool::Decides::nat_tests, std::proofs::lemmas::Grind::common_steps, crate::proofs::Listed::once_is))]
fn divide(
    core: &Core,
    awake: &Awake,
    place: usize,
    left: &mut ClauseList,
    named: &mut Awake,
    sleepers: &mut Sleepers,
) -> Result<(), OutOfMemory>
    requires place { place < length core.now.clauses }
    requires listed { IsListed core.now.clauses awake.now }
    requires about { All (IsClause core.now.vars) core.now.clauses }
    requires within { All (IsClause core.now.vars) left.old }
    requires fewer { length left.old ≤ place }
    requires same { sleepers.old.vars ≡ core.now.vars }
    requires few { AreFew sleepers.old }
    ensures within { All (IsClause core.now.vars) left.new }
    ensures fewer { length left.new ≤ place + 1 }
    ensures same { sleepers.new.vars ≡ sleepers.old.vars }
    ensures few { AreFew sleepers.new }
    ensures formula { named.new.formula ≡ named.old.formula }
    ensures held { named.new.held ≡ named.old.held }
    ensures divided { OnOk result ((before : SleepersValue) → IsDividing core.now.clauses awake.now.names.items awake.now.formula before place left.old named.old sleepers.old
        → IsDividing core.now.clauses awake.now.names.items awake.now.formula before (place + 1) left.new named.new sleepers.new) }
{
    let clause = core.clause(awake.ids[place]);
    let number = awake.names[place + 1];
    if awake.is_idle(place, clause) {
        return sleepers.push(clause, number);
    }
    let _many = core.count();
    let id = ClauseId::new(left.len() as u32);
    left.push(clause)?;
    named.note(id, number, awake.usage_of(place))
}

/// What is left of a core where clauses of little use fall asleep.
#[tactic(auto, using(std::proofs::lemmas::Bool::Decides::nat_tests, std::proofs::lemmas::Grind::common_steps, crate::proofs::Listed::all_once))]
fn divided(
    alloc: Global,
    core: &Core,
    awake: &Awake,
    sleepers: &mut Sleepers,
) -> Result<(Core, Awake), OutOfMemory>
    requires listed { IsListed core.now.clauses awake.now }
    requires same { sleepers.old.vars ≡ core.now.vars }
    requires few { AreFew sleepers.old }
    ensures vars { IfOk result (λ left. left.0.vars ≡ core.now.vars) }
    ensures same { sleepers.new.vars ≡ sleepers.old.vars }
    ensures few { AreFew sleepers.new }
    ensures formula { IfOk result (λ left. left.1.formula ≡ awake.now.formula) }
    ensures held { IfOk result (λ left. left.1.held ≡ awake.now.held) }
    ensures divided { IfOk result (λ left. IsDividing core.now.clauses awake.now.names.items awake.now.formula sleepers.old (length core.now.clauses) left.0.clauses left.1 sleepers.new) }
{
    let mut left = ClauseList::new(alloc);
    let mut named = Awake::new(alloc, awake.formula, awake.held)?;
    let _known = core.trail();
    for place in 0..awake.ids.len() {
        divide(core, awake, place, &mut left, &mut named, sleepers)?;
    }
    Ok((Core::of_clauses(alloc, sleepers.vars(), &left)?, named))
}

/// Clauses of little use fall asleep: the others make a core anew, on level 0.
pub fn rest(alloc: Global, core: &mut Core, guide: &mut Guide) -> Result<(), OutOfMemory>
    requires guided { IsGuided core.old guide.old }
    ensures guided { OnOk result (IsGuided core.new guide.new) }
    ensures vars { core.new.vars ≡ core.old.vars }
    ensures ready { OnOk result (StaysReady core.old guide.old.awake guide.old.sleepers core.new guide.new.awake guide.new.sleepers) }
{
    release_from(core, &mut guide.decider, 0)?;
    guide.awake.keep_reasons(core);
    let (left, awake) = divided(alloc, core, &guide.awake, &mut guide.sleepers)?;
    *core = left;
    guide.awake = awake;
    Ok(())
}
