//! Literals of level 0 that conflicts needed get lines of their own, one literal each. Later lines
//! then have one hint for such a literal, in place of the reasons that led to it.

ghost use Rattle.std.specs.Prelude.{◌≡◌, ◌≢◌, ◌<◌, true, List, [], ◌∷◌, ◌++◌, AllPairs, length, IfOk, IfSome, OnOk, get_or, false};
ghost use Rattle.sat_core.specs.{inner.{Going.{CanSearch, IsSameTrail, IsWrittenOn, StaysReady}, Guided.IsGuided, Stating.{AreStated, AreMarkedOn, IsStating}}, Ready.IsReady};
ghost use Rattle.cnf_formula.specs.{Formulas.{FormulaValue, IsClause}, Lines.ProofLineValue, Literals.code_of};
ghost use Rattle.sleeping_clauses.specs.Naming.{IsListed};
ghost use Rattle.outer_ports.specs.Port.{HasCause};

use crate::backjump::go_to_bottom;
use crate::fault::SolveFault;
use crate::guide::Guide;
use crate::resting::rest;
use cnf_formula::{Lit, OutOfMemory, ProofLine};
use conflict_analysis::unit_at;
use ledger_rules::Ledger;
use sleeping_clauses::Awake;
use std::alloc::Global;
use trail_core::Core;

/// Marks a literal, by its number.
fn mark_one(stated: &mut Vec<bool>, lit: Lit)
    ensures on { AreMarkedOn stated.old.items stated.new.items }
    ensures this { get_or stated.new.items (code_of lit) true ≡ true }
{
    if let Some(mark) = stated.get_mut(lit.code()) {
        *mark = true;
    }
}

/// Marks the literal of a clause that has no other, by its number. Where a clause has none, it
/// marks all.
#[tactic(auto, using(crate::proofs::Stated::stated_one, crate::proofs::Stated::stated_many, crate::proofs::Stated::stated_all))]
fn mark(stated: &mut Vec<bool>, lits: &[Lit])
    requires { AllPairs (λ a b. a ≢ b) lits.now }
    ensures on { AreMarkedOn stated.old.items stated.new.items }
    ensures this { AreStated (lits.now ∷ []) stated.new.items }
{
    match lits {
        [] => stated.fill(true),
        [lit] => mark_one(stated, *lit),
        _ => {}
    }
}

/// Whether a literal is marked, or has no mark.
fn is_stated(stated: &[bool], lit: Lit) -> bool
    ensures { result ≡ false → get_or stated.now (code_of lit) true ≡ false }
{
    match stated.get(lit.code()) {
        Some(mark) => *mark,
        None => true,
    }
}

/// Which literals, by their numbers, are stated by a clause of a core that has no other.
#[tactic(auto, using(std::proofs::lemmas::Bool::Decides::nat_tests, std::proofs::lemmas::Grind::common_steps, crate::proofs::Stated::stated_nil, crate::proofs::Listed::once_is))]
fn stated_by(alloc: Global, core: &Core, awake: &Awake, vars: u32) -> Result<Vec<bool>, OutOfMemory>
    requires { IsListed core.now.clauses awake.now }
    ensures { IfOk result (λ stated. AreStated core.now.clauses stated.items) }
{
    let mut stated = vec![in alloc; false; 2 * vars as usize + 2]?;
    for place in 0..awake.ids.len() {
        mark(&mut stated, core.clause(awake.ids[place]));
    }
    Ok(stated)
}

/// Whether the literal at a place of the trail was needed since clauses fell asleep last: its
/// reason took part in a conflict.
fn is_needed(core: &Core, awake: &Awake, place: usize) -> bool
    requires { place < length core.now.trail }
{
    match core.reason(core.trail()[place]) {
        Some(reason) => awake.usage_of(reason.number() as usize).last > awake.slept,
        None => false,
    }
}

/// The line of the literal at a place of the trail, on level 0, where it was needed and no held
/// clause states it.
fn line_of(
    alloc: Global,
    core: &Core,
    guide: &mut Guide,
    stated: &[bool],
    place: usize,
) -> Result<Option<ProofLine>, OutOfMemory>
    requires bottom { length core.now.limits ≡ 0 }
    requires place { place < length core.now.trail }
    requires guided { IsGuided core.now guide.old }
    requires stated { AreStated core.now.clauses stated.now }
    ensures guided { OnOk result (IsGuided core.now guide.new) }
    ensures ready { StaysReady core.now guide.old.awake guide.old.sleepers core.now guide.new.awake guide.new.sleepers }
    ensures line { IfOk result (λ found. IfSome found (λ line. (base : FormulaValue) (lines : List ProofLineValue) → IsReady base lines core.now guide.old.awake guide.old.sleepers → IsStating base lines core.now guide.new.awake line)) }
{
    let lit = core.trail()[place];
    if !is_needed(core, &guide.awake, place) || is_stated(stated, lit) {
        return Ok(None);
    }
    let unit = unit_at(alloc, core, &mut guide.walk, place)?;
    let line = guide.awake.named(alloc, unit)?;
    if let Some(_) = guide.sleepers.subset_of(&line.lits) {
        return Ok(None);
    }
    Ok(Some(line))
}

/// Adds the clause of a line that was learned to the core, on level 0.
fn hold(
    core: &mut Core,
    guide: &mut Guide,
    stated: &mut Vec<bool>,
    line: &ProofLine,
) -> Result<(), OutOfMemory>
    requires bottom { length core.old.limits ≡ 0 }
    requires guided { IsGuided core.old guide.old }
    requires stated { AreStated core.old.clauses stated.old.items }
    requires about { IsClause core.old.vars line.now.lits }
    requires once { AllPairs (λ a b. a ≢ b) line.now.lits }
    ensures same { IsSameTrail core.old core.new }
    ensures stated { OnOk result (AreStated core.new.clauses stated.new.items) }
    ensures guided { OnOk result (IsGuided core.new guide.new) }
    ensures ready { OnOk result ((base : FormulaValue) (lines : List ProofLineValue) → IsReady base lines core.old guide.old.awake guide.old.sleepers → IsStating base lines core.old guide.old.awake line.now
        → IsReady base (lines ++ line.now ∷ []) core.new guide.new.awake guide.new.sleepers) }
{
    let id = core.add_clause(&line.lits)?;
    guide.awake.learn(id, 1)?;
    mark(stated, &line.lits);
    Ok(())
}

/// Learns the line of the literal at a place of the trail, on level 0, where it was needed, there
/// is room for the line and no held clause states it.
fn state<T, L: Ledger<T>>(
    alloc: Global,
    ledger: &mut L,
    store: &mut T,
    core: &mut Core,
    guide: &mut Guide,
    stated: &mut Vec<bool>,
    place: usize,
) -> Result<(), SolveFault>
    requires bottom { length core.old.limits ≡ 0 }
    requires place { place < length core.old.trail }
    requires can { CanSearch L.LedgerView L.Ledger.own ledger.old store.old core.old guide.old }
    requires stated { AreStated core.old.clauses stated.old.items }
    ensures written { IsWrittenOn L.LedgerView L.Ledger.own ledger.old store.old ledger.new store.new }
    ensures can { OnOk result (CanSearch L.LedgerView L.Ledger.own ledger.new store.new core.new guide.new) }
    ensures same { IsSameTrail core.old core.new }
    ensures stated { OnOk result (AreStated core.new.clauses stated.new.items) }
    ensures cause { HasCause SolveFault.LedgerFailed (L.faults ledger.old store.old) (L.faults ledger.new store.new) result }
{
    if !ledger.room() {
        return Ok(());
    }
    let Some(line) = line_of(alloc, core, guide, stated, place)? else {
        return Ok(());
    };
    ledger.learn(store, &line)?;
    hold(core, guide, stated, &line)?;
    Ok(())
}

/// Learns lines of literals of level 0 that were needed, as many as there is room for, and goes
/// there.
fn state_all<T, L: Ledger<T>>(
    alloc: Global,
    ledger: &mut L,
    store: &mut T,
    core: &mut Core,
    guide: &mut Guide,
) -> Result<(), SolveFault>
    requires can { CanSearch L.LedgerView L.Ledger.own ledger.old store.old core.old guide.old }
    ensures written { IsWrittenOn L.LedgerView L.Ledger.own ledger.old store.old ledger.new store.new }
    ensures can { OnOk result (CanSearch L.LedgerView L.Ledger.own ledger.new store.new core.new guide.new) }
    ensures vars { core.new.vars ≡ core.old.vars }
    ensures cause { HasCause SolveFault.LedgerFailed (L.faults ledger.old store.old) (L.faults ledger.new store.new) result }
{
    go_to_bottom(core, &mut guide.decider)?;
    let mut stated = stated_by(alloc, core, &guide.awake, guide.sleepers.vars())?;
    let count = core.trail().len();
    for place in 0..count {
        state(alloc, ledger, store, core, guide, &mut stated, place)?;
    }
    Ok(())
}

/// Where the search begins anew and it is due, literals of level 0 get their lines, and clauses of
/// little use fall asleep.
pub fn rest_if_due<T, L: Ledger<T>>(
    alloc: Global,
    ledger: &mut L,
    store: &mut T,
    core: &mut Core,
    guide: &mut Guide,
    anew: bool,
) -> Result<(), SolveFault>
    requires can { CanSearch L.LedgerView L.Ledger.own ledger.old store.old core.old guide.old }
    ensures written { IsWrittenOn L.LedgerView L.Ledger.own ledger.old store.old ledger.new store.new }
    ensures can { OnOk result (CanSearch L.LedgerView L.Ledger.own ledger.new store.new core.new guide.new) }
    ensures vars { core.new.vars ≡ core.old.vars }
    ensures cause { HasCause SolveFault.LedgerFailed (L.faults ledger.old store.old) (L.faults ledger.new store.new) result }
{
    if !anew || !guide.awake.is_due() {
        return Ok(());
    }
    state_all(alloc, ledger, store, core, guide)?;
    rest(alloc, core, guide)?;
    Ok(())
}
