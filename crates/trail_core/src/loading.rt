//! The watch lists that a core begins with, made for all of its clauses at once.

ghost use Rattle.std.specs.Prelude.{◌≡◌, ◌≢◌, ◌==◌, ℕ, ◌+◌, ◌*◌, ◌<◌, ◌≤◌, ◌++◌, ◌∷◌, [], List, All, AllPairs, length, map, flat_map, count_by, slice_index, IfOk, OnOk};
ghost use Rattle.cnf_formula.specs.{Literals.{code_of}, Formulas.{IsAbout, IsClause}};
ghost use Rattle.trail_core.specs.{Watching.{RowValue, AreLists, list_at}, inner.Begun.{front_row, IsBegun}};

use crate::lists::WatchLists;
use crate::watch::Watch;
use cnf_formula::{ClauseList, Lit};
use std::alloc::{AllocError, Global};

/// How often each literal of so many variables stands among these, by its number.
fn counts_of(alloc: Global, vars: u32, lits: &[Lit]) -> Result<Vec<u32>, AllocError>
    requires about { All (IsAbout vars) lits.now }
    requires few { length lits.now < 4294967296 }
    ensures len { IfOk result (λ counts. length counts.items ≡ 2 * vars + 2) }
    ensures counts { IfOk result (λ counts. (k : ℕ) → slice_index counts.items k ≡ count_by (λ l. code_of l == k) lits.now) }
{
    let mut counts = vec![in alloc; 0u32; 2 * vars as usize + 2]?;
    for lit in lits {
        counts[lit.code()] += 1;
    }
    Ok(counts)
}

/// Puts a clause among those of less than two literals. It stands apart, since few clauses are, and
/// the loop over all is to have its registers for the others.
#[inline(never)]
fn put_short(short: &mut Vec<u32>, number: u32) -> Result<(), AllocError>
    ensures { OnOk result (short.new.items ≡ short.old.items ++ number ∷ []) }
{
    short.push(number)?;
    Ok(())
}

/// Puts a clause into the lists of its first two literals, or among those of less than two.
fn put(
    lists: &mut WatchLists,
    short: &mut Vec<u32>,
    lits: &[Lit],
    number: u32,
) -> Result<(), AllocError>
    requires known { All (λ l. code_of l < length lists.old.lists) lits.now }
    requires once { AllPairs (λ a b. a ≢ b) lits.now }
    requires small { number ≤ 2147483647 }
    requires room { (k : ℕ) → length (list_at lists.old.lists k) + count_by (λ l. code_of l == k) lits.now ≤ slice_index lists.old.rooms k }
    ensures len { length lists.new.lists ≡ length lists.old.lists }
    ensures rooms { lists.new.rooms ≡ lists.old.rooms }
    ensures uses { lists.new.uses ≡ lists.old.uses }
    ensures begun { OnOk result ((rows : List RowValue) → number ≡ length rows → IsBegun rows lists.old short.old.items → IsBegun (rows ++ front_row lits.now ∷ []) lists.new short.new.items) }
{
    if let [first, second, ..] = lits {
        let (first, second) = (*first, *second);
        let pair = lits.len() == 2;
        lists.add(first, Watch::new(number, pair, second));
        lists.add(second, Watch::new(number, pair, first));
    } else {
        put_short(short, number)?;
    }
    Ok(())
}

/// Lists in which each clause watches its first two literals, with room for all that it may come to
/// watch, and the clauses of less than two literals. `Err` comes only where memory runs out.
pub(crate) fn watching(
    alloc: Global,
    vars: u32,
    clauses: &ClauseList,
) -> Result<(WatchLists, Vec<u32>), AllocError>
    requires within { All (IsClause vars) clauses.now }
    requires once { All (AllPairs (λ a b. a ≢ b)) clauses.now }
    requires few { length clauses.now ≤ 2147483648 }
    requires few_lits { length (flat_map (λ clause. clause) clauses.now) < 4294967296 }
    ensures lists { IfOk result (λ both. AreLists vars both.0) }
    ensures room { IfOk result (λ both. (k : ℕ) → slice_index both.0.uses k ≡ count_by (λ l. code_of l == k) (flat_map (λ clause. clause) clauses.now)) }
    ensures fits { IfOk result (λ both. both.0.rooms ≡ both.0.uses) }
    ensures begun { IfOk result (λ both. IsBegun (map front_row clauses.now) both.0 both.1.items) }
{
    let counts = counts_of(alloc, vars, clauses.lits())?;
    let mut lists = WatchLists::new(alloc, &counts)?;
    let mut short = Vec::new(alloc);
    for place in 0..clauses.len() {
        put(&mut lists, &mut short, clauses.clause(place), place as u32)?;
    }
    Ok((lists, short))
}
