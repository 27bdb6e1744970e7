//! The search for a candidate's schedule by its formula, which is kept on a shelf with its lines.

ghost use Rattle.std.specs.Prelude.{◌≡◌, ◌≢◌, [], IsTrue, IfOk};
ghost use Rattle.outer_ports.specs.Port.{HasCause, Tells};
ghost use Rattle.conflict_ledger.specs.{Beside.beside, Shelved.{ShelfAgrees, ShelfMoves}};
ghost use Rattle.candidate_solver.specs.{inner.Faults.of_solving, Trying.{BeginsOwn, HasLines, HasText, IsSearch}};
ghost use Rattle.proof_rules.specs.{Held.start_of, Learning.AllImplied};

use crate::attempt::Found;
use crate::files::write_formula;
use candidate_order::Candidate;
use cnf_formula::Formula;
use conflict_ledger::{CheckedLedger, Ledger, LedgerView, PairLedger, ShelfLedger};
use engine_rules::EngineFault;
use outer_ports::{Part, Shelf};
use sat_core::{SolveFault, solve};
use std::alloc::Global;

/// The fault of a search, as that of an engine.
fn engine_fault(fault: SolveFault) -> EngineFault
    ensures { result ≡ of_solving fault }
{
    match fault {
        SolveFault::LedgerFailed => EngineFault::ShelfFailed,
        SolveFault::OutOfMemory => EngineFault::OutOfMemory,
    }
}

/// A search whose lines are not checked.
fn search_plain<'a, H: Shelf>(
    alloc: Global,
    formula: &Formula,
    ledger: ShelfLedger<'a>,
    store: &mut H,
) -> Result<Found, EngineFault>
    requires base { ⟦<ShelfLedger<'a> as LedgerView>⟧.base ledger ≡ formula.now }
    requires empty { ⟦<ShelfLedger<'a> as LedgerView>⟧.lines ledger ≡ [] }
    requires agrees { ⟦<ShelfLedger<'a> as Ledger<H>>⟧.agrees ledger store.old }
    ensures moves { ShelfMoves (beside ledger.entry (H.tells store.old) (H.file store.old)) (beside ledger.entry (H.tells store.new) (H.file store.new)) }
    ensures agrees { IfOk result (λ found. ShelfAgrees (beside ledger.entry (H.tells store.new) (H.file store.new)) found.lines) }
    ensures search { IfOk result (λ found. IsSearch formula.now (⟦<ShelfLedger<'a> as LedgerView>⟧.limit ledger.entry) found.lines found.answer) }
    ensures cause { HasCause EngineFault.ShelfFailed (H.faults store.old) (H.faults store.new) result }
{
    let mut ledger = ledger;
    match solve(alloc, formula, &mut ledger, store) {
        Ok(answer) => {
            let lines = ledger.into_log();
            Ok(Found { answer, lines })
        }
        Err(fault) => Err(engine_fault(fault)),
    }
}

/// A search each of whose lines is checked before it is kept.
fn search_checked<'a, H: Shelf>(
    alloc: Global,
    formula: &Formula,
    ledger: ShelfLedger<'a>,
    limit: u32,
    store: &mut H,
) -> Result<Found, EngineFault>
    requires base { ⟦<ShelfLedger<'a> as LedgerView>⟧.base ledger ≡ formula.now }
    requires empty { ⟦<ShelfLedger<'a> as LedgerView>⟧.lines ledger ≡ [] }
    requires limit { ⟦<ShelfLedger<'a> as LedgerView>⟧.limit ledger ≡ limit }
    requires agrees { ⟦<ShelfLedger<'a> as Ledger<H>>⟧.agrees ledger store.old }
    ensures moves { ShelfMoves (beside ledger.entry (H.tells store.old) (H.file store.old)) (beside ledger.entry (H.tells store.new) (H.file store.new)) }
    ensures agrees { IfOk result (λ found. ShelfAgrees (beside ledger.entry (H.tells store.new) (H.file store.new)) found.lines) }
    ensures search { IfOk result (λ found. IsSearch formula.now limit found.lines found.answer) }
    ensures cause { HasCause EngineFault.ShelfFailed (H.faults store.old) (H.faults store.new) result }
{
    let mut pair = PairLedger::new(CheckedLedger::new(alloc, formula, limit)?, ledger);
    match solve(alloc, formula, &mut pair, store) {
        Ok(answer) => {
            let lines = pair.into_second().into_log();
            Ok(Found { answer, lines })
        }
        Err(fault) => Err(engine_fault(fault)),
    }
}

/// Writes the formula of a candidate, searches for a model of it, or a refutation, and learns at
/// most so many lines. The candidate's two files of lines hold those of the search.
pub(crate) fn search<H: Shelf>(
    alloc: Global,
    formula: &Formula,
    limit: u32,
    checked: bool,
    store: &mut H,
    part: Part,
    candidate: Candidate,
) -> Result<Found, EngineFault>
    requires { part ≢ Part.Joined }
    ensures told { Tells (H.tells store.old) (H.tells store.new) }
    ensures begins { IsTrue (H.tells store.new) → BeginsOwn formula.now part candidate (H.file store.old) (H.file store.new) }
    ensures text { IsTrue (H.tells store.new) → IfOk result (λ _. HasText formula.now part candidate (H.file store.new)) }
    ensures lines { IsTrue (H.tells store.new) → IfOk result (λ found. HasLines part candidate found.lines (H.file store.new)) }
    ensures implied { IfOk result (λ found. AllImplied (start_of formula.now) found.lines) }
    ensures search { IfOk result (λ found. IsSearch formula.now limit found.lines found.answer) }
    ensures cause { HasCause EngineFault.ShelfFailed (H.faults store.old) (H.faults store.new) result }
{
    write_formula(alloc, formula, store, part, candidate)?;
    let place = (candidate.s, candidate.r, candidate.c);
    let ledger = ShelfLedger::new(alloc, formula, limit, store, part, place)?;
    if checked {
        search_checked(alloc, formula, ledger, limit, store)
    } else {
        search_plain(alloc, formula, ledger, store)
    }
}
