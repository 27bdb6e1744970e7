//! Pigeons in holes: each has a hole, and no two have the same.

use cnf_formula::{Formula, Lit};
use conflict_ledger::KeptLedger;
use sat_core::{SatAnswer, solve};
use std::alloc::Global;
use std::test::Fail;

/// A formula of clauses that are written as in DIMACS CNF, one after another, each with a 0 at its
/// end.
fn read(alloc: Global, vars: u32, numbers: &[i32]) -> Result<Formula, Fail> {
    let mut formula = Formula::new(alloc, vars);
    let mut lits = Vec::new(alloc);
    for number in numbers {
        let var = number.unsigned_abs();
        if var == 0 {
            formula.add(&lits)?;
            lits.clear();
        } else if var <= vars && var <= 2_147_483_647 {
            lits.push(Lit::new(var, *number > 0))?;
        }
    }
    Ok(formula)
}

/// The answer of a search that may learn so many lines, as a word.
fn answer(alloc: Global, vars: u32, numbers: &[i32], limit: u32) -> Result<&'static str, Fail> {
    let formula = read(alloc, vars, numbers)?;
    let mut ledger = KeptLedger::new(alloc, &formula, limit)?;
    Ok(match solve(alloc, &formula, &mut ledger, &mut ())? {
        SatAnswer::Model(_) => "model",
        SatAnswer::Refuted => "refuted",
        SatAnswer::Spent => "spent",
    })
}

// Pigeon P is in hole H where the variable 2 P + H - 2 is true.
const THREE_IN_TWO: [i32; 27] = [
    1, 2, 0, 3, 4, 0, 5, 6, 0, -1, -3, 0, -1, -5, 0, -3, -5, 0, -2, -4, 0, -2, -6, 0, -4, -6, 0,
];

// And here where 3 P + H - 3 is.
const FOUR_IN_THREE: [i32; 70] = [
    1, 2, 3, 0, 4, 5, 6, 0, 7, 8, 9, 0, 10, 11, 12, 0, -1, -4, 0, -1, -7, 0, -1, -10, 0, -4, -7, 0,
    -4, -10, 0, -7, -10, 0, -2, -5, 0, -2, -8, 0, -2, -11, 0, -5, -8, 0, -5, -11, 0, -8, -11, 0,
    -3, -6, 0, -3, -9, 0, -3, -12, 0, -6, -9, 0, -6, -12, 0, -9, -12, 0,
];

/// A limit of 3 to the number of variables is never spent, and four pigeons in three holes take
/// more than one conflict.
#[test]
fn searches_answer(rt: HostRuntime) -> Result<(), Fail> {
    let alloc = rt.alloc();
    assert_eq!(rt; answer(alloc, 1, &[1, 0], 0)?, "model");
    assert_eq!(rt; answer(alloc, 1, &[1, 0, -1, 0], 0)?, "refuted");
    assert_eq!(rt; answer(alloc, 6, &THREE_IN_TWO, 729)?, "refuted");
    assert_eq!(rt; answer(alloc, 12, &FOUR_IN_THREE, 1)?, "spent");
    assert_eq!(rt; answer(alloc, 12, &FOUR_IN_THREE, 1000)?, "refuted");
    Ok(())
}
