//! The search of a formula, each line of which is checked as it is found.

ghost use Rattle.std.specs.Prelude.{IfOk};
ghost use Rattle.candidate_solver.specs.Trying.{IsSearch};

use candidate_solver::Found;
use cnf_formula::{Formula, OutOfMemory};
use conflict_ledger::{CheckedLedger, CountedLedger, PairLedger};
use sat_core::{SolveFault, solve};
use std::alloc::Global;

/// Searches for a model of a formula, or a refutation, and learns at most so many lines, of which
/// none is kept. The only error is `OutOfMemory`.
pub(crate) fn search(alloc: Global, formula: &Formula, limit: u32) -> Result<Found, OutOfMemory>
    ensures { IfOk result (λ found. IsSearch formula.now limit found.lines found.answer) }
{
    let first = CheckedLedger::new(alloc, formula, limit)?;
    let second = CountedLedger::new(formula, limit);
    let mut pair = PairLedger::new(first, second);
    match solve(alloc, formula, &mut pair, &mut ()) {
        Ok(answer) => Ok(Found {
            answer,
            lines: pair.into_second().into_log(),
        }),
        Err(SolveFault::OutOfMemory) => Err(OutOfMemory),
        Err(SolveFault::LedgerFailed) => unreachable!(),
    }
}
