//! One turn of the search at a conflict: analysis, learning, backjump.

ghost use Rattle.std.specs.Prelude.{◌≡◌, ◌+◌, ◌<◌, ◌∷◌, ◌++◌, [], true, List, length, IfOk, OnOk};
ghost use Rattle.cnf_formula.specs.{Formulas.FormulaValue, Lines.ProofLineValue};
ghost use Rattle.conflict_analysis.specs.Conflicts.{IsConflict};
ghost use Rattle.sat_core.specs.{inner.{Jumping.IsBacked, Turning.{IsTurn, IsTurned}, Guided.IsGuided, Going.{CanSearch, IsWrittenOn}}, Ready.{AreWritten, IsReady}};
ghost use Rattle.sleeping_clauses.specs.Sleeping.{sleeping};
ghost use Rattle.proof_rules.specs.Refuting.{is_fresh};
ghost use Rattle.ledger_rules.specs.Logs.{checker_of};
ghost use Rattle.trail_core.specs.Formed.{IsTrail};
ghost use Rattle.outer_ports.specs.Port.{HasCause};

use crate::backjump::go_back;
use crate::fault::SolveFault;
use crate::guide::Guide;
use crate::stating::rest_if_due;
use crate::waking::{wake, wake_due};
use cnf_formula::{OutOfMemory, ProofLine};
use conflict_analysis::line_at;
use ledger_rules::Ledger;
use std::alloc::Global;
use trail_core::{ClauseId, Core};

/// What a turn at a conflict came to.
#[derive(Drop)]
pub enum Turn {
    Goes,
    Refuted,
    Spent,
}

/// Adds a line's clause, which was learned, to the core, and goes back from the conflict. Whether
/// the search begins anew.
fn go_on(
    alloc: Global,
    core: &mut Core,
    guide: &mut Guide,
    line: &ProofLine,
) -> Result<bool, OutOfMemory>
    requires formed { IsTrail core.old.vars core.old.trail core.old.limits }
    requires backed { IsBacked core.old line.now.lits }
    requires above { 0 < length core.old.limits }
    requires guided { IsGuided core.old guide.old }
    ensures guided { OnOk result (IsGuided core.new guide.new) }
    ensures vars { core.new.vars ≡ core.old.vars }
    ensures ready { OnOk result ((base : FormulaValue) (lines : List ProofLineValue) → IsReady base lines core.old guide.old.awake guide.old.sleepers → AreWritten base (lines ++ line.now ∷ []) → is_fresh (checker_of base lines) line.now.lits ≡ true
        → line.now.id ≡ guide.old.awake.held + 1 → IsReady base (lines ++ line.now ∷ []) core.new guide.new.awake guide.new.sleepers) }
{
    guide
        .decider
        .learn(alloc, core, &guide.walk.met, &line.lits)?;
    guide.sleepers.learn(&line.lits);
    let levels = guide.glue.count(core, &line.lits);
    let anew = guide.restarts.tick(levels);
    let mode = guide.restarts.mode();
    let id = go_back(core, &mut guide.decider, line, anew)?;
    guide.awake.learn(id, levels)?;
    guide
        .decider
        .settle(alloc, core, &guide.awake.ids, guide.awake.formula, mode)?;
    Ok(anew)
}

/// The line that is learned from a conflict, by the ledger's numbers.
#[tactic(auto, using(crate::proofs::Readiness::ready_same))]
fn line_of_conflict(
    alloc: Global,
    core: &Core,
    guide: &mut Guide,
    conflict: ClauseId,
) -> Result<ProofLine, OutOfMemory>
    requires conflict { IsConflict core.now conflict }
    requires guided { IsGuided core.now guide.old }
    ensures guided { OnOk result (IsGuided core.now guide.new) }
    ensures sleepers { guide.new.sleepers ≡ guide.old.sleepers }
    ensures turn { IfOk result (λ line. (base : FormulaValue) (lines : List ProofLineValue) → IsReady base lines core.now guide.old.awake guide.old.sleepers → IsTurn base lines core.now guide.new.awake guide.new.sleepers conflict line) }
{
    let learned = line_at(alloc, core, &mut guide.walk, &mut guide.implied, conflict)?;
    Ok(guide.awake.named(alloc, learned)?)
}

/// Learns from a conflict: closes on level 0, else adds a line where there is room for it. Where a
/// clause that sleeps states the line already, that clause is woken in its place; where there is no
/// room, one by which something may follow on level 0.
pub fn at_conflict<T, L: Ledger<T>>(
    alloc: Global,
    ledger: &mut L,
    store: &mut T,
    core: &mut Core,
    guide: &mut Guide,
    conflict: ClauseId,
) -> Result<Turn, SolveFault>
    requires can { CanSearch L.LedgerView L.Ledger.own ledger.old store.old core.old guide.old }
    requires conflict { IsConflict core.old conflict }
    ensures written { IsWrittenOn L.LedgerView L.Ledger.own ledger.old store.old ledger.new store.new }
    ensures vars { core.new.vars ≡ core.old.vars }
    ensures turned { IfOk result (IsTurned L.LedgerView L.Ledger.own ledger.old (sleeping guide.old.sleepers) ledger.new store.new core.new guide.new) }
    ensures cause { HasCause SolveFault.LedgerFailed (L.faults ledger.old store.old) (L.faults ledger.new store.new) result }
{
    let line = line_of_conflict(alloc, core, guide, conflict)?;
    if line.lits.is_empty() {
        ledger.close(store, &line)?;
        return Ok(Turn::Refuted);
    }
    if !ledger.room() {
        let woken = wake_due(
            core,
            &mut guide.decider,
            &mut guide.awake,
            &mut guide.sleepers,
        )?;
        if woken {
            return Ok(Turn::Goes);
        }
        return Ok(Turn::Spent);
    }
    if let Some(place) = guide.sleepers.subset_of(&line.lits) {
        wake(
            core,
            &mut guide.decider,
            &mut guide.awake,
            &mut guide.sleepers,
            place,
        )?;
        return Ok(Turn::Goes);
    }
    ledger.learn(store, &line)?;
    let anew = go_on(alloc, core, guide, &line)?;
    rest_if_due(alloc, ledger, store, core, guide, anew)?;
    Ok(Turn::Goes)
}
