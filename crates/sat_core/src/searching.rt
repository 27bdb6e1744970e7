//! The search: turn after turn, until it ends (the loop of CDCL).

ghost use Rattle.std.specs.Prelude.{◌≡◌, IfOk};
ghost use Rattle.sat_core.specs.inner.{Going.{CanSearch, IsWrittenOn}, Ending.IsEnded};
ghost use Rattle.outer_ports.specs.Port.{HasCause};

use crate::fault::SolveFault;
use crate::guide::Guide;
use crate::step::{Step, advance};
use crate::turn::{Turn, at_conflict};
use ledger_rules::Ledger;
use std::alloc::Global;
use trail_core::Core;

/// Every variable has a value and no clause is falsified; or the formula is refuted, or what may be
/// spent is spent.
#[derive(Drop)]
pub enum End {
    Total,
    Refuted,
    Spent,
}

/// Searches from where the core holds the clauses of the ledger's formula and lines.
pub fn search<T, L: Ledger<T>>(
    alloc: Global,
    ledger: &mut L,
    store: &mut T,
    core: &mut Core,
    guide: &mut Guide,
) -> Result<End, SolveFault>
    requires can { CanSearch L.LedgerView L.Ledger.own ledger.old store.old core.old guide.old }
    ensures written { IsWrittenOn L.LedgerView L.Ledger.own ledger.old store.old ledger.new store.new }
    ensures vars { core.new.vars ≡ core.old.vars }
    ensures ended { IfOk result (IsEnded L.LedgerView L.Ledger.own ledger.new store.new core.new guide.new) }
    ensures cause { HasCause SolveFault.LedgerFailed (L.faults ledger.old store.old) (L.faults ledger.new store.new) result }
{
    loop {
        match advance(core, &mut guide.decider) {
            Step::Conflict(conflict) => {
                match at_conflict(alloc, ledger, store, core, guide, conflict)? {
                    Turn::Goes => {}
                    Turn::Refuted => return Ok(End::Refuted),
                    Turn::Spent => return Ok(End::Spent),
                }
            }
            Step::Decided => {}
            Step::Total => return Ok(End::Total),
        }
    }
}
