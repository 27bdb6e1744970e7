//! Lines whose hints lead to no conflict, and the groups by which they leave satisfiable what is
//! held (RAT).

ghost use Rattle.std.specs.{Prelude.{◌≡◌, ◌==◌, ◌||◌, ℕ, ◌+◌, ◌<◌, true, false, List, [], Option, Some, None, Ok, length, drop, IfOk, if◌then◌else◌}, BTreeSet.contains, Ordering.nat_cmp};
ghost use Rattle.cnf_formula.specs.Formulas.{IsClause};
ghost use Rattle.proof_rules.specs.{Held.clause_at, Accepting.{leading, groups_of, without_negated}, Judging.{assumed, closing_fault, group_fault as fault_of_group, groups_fault as fault_of_groups, redundant_verdict}};
ghost use Rattle.lrat_checker.specs.inner.{Marking.Extends, Steps.{Names, Same}};

use crate::leading::{Led, lead, next_group};
use crate::marks::Marks;
use crate::table::{ClauseTable, has_negated};
use cnf_formula::{Lit, OutOfMemory, ProofLine};
use proof_rules::{LineCode, LineVerdict};
use std::collections::BTreeSet;

/// Assumes the literals of a clause other than the negated pivot false, in their order, and says
/// that it did. It stops at one that is true when its turn comes.
fn assume_others(marks: &mut Marks, pivot: Lit, clause: &[Lit]) -> Result<bool, OutOfMemory>
    requires { IsClause marks.old.vars clause.now }
    ensures assumed { IfOk result (λ all. (if all then Some marks.new.falses else None) ≡ assumed marks.old.falses (without_negated pivot clause.now)) }
    ensures vars { marks.new.vars ≡ marks.old.vars }
    ensures grown { Extends marks.old.falses marks.new.falses }
{
    for lit in clause {
        if *lit == pivot.negated() {
            continue;
        }
        if marks.is_true(*lit) {
            return Ok(false);
        }
        marks.mark(*lit)?;
    }
    Ok(true)
}

/// The fault of the group at a place, which is for this clause. Its marks stay.
#[tactic(auto, using(crate::proofs::Taken::extends_both))]
fn close(
    table: &ClauseTable,
    marks: &mut Marks,
    hints: &[i64],
    at: usize,
    pivot: Lit,
    clause: &[Lit],
) -> Result<Option<(LineCode, u64)>, OutOfMemory>
    requires within { at < length hints.now }
    requires same { marks.old.vars ≡ table.now.vars }
    requires about { IsClause marks.old.vars clause.now }
    ensures fault { IfOk result (λ fault. (named : ℕ) → fault ≡ closing_fault table.now.held (record { place = at; named = named; hints = leading (drop (at + 1) hints.now) }) (assumed marks.old.falses (without_negated pivot clause.now))) }
    ensures vars { marks.new.vars ≡ marks.old.vars }
    ensures grown { Extends marks.old.falses marks.new.falses }
{
    if !assume_others(marks, pivot, clause)? {
        return Ok(None);
    }
    match lead(table, marks, hints, at + 1)? {
        Led::Conflict => Ok(None),
        Led::Fault { code, hint } => Ok(Some((code, hint))),
        Led::Open => Ok(Some((LineCode::NoConflict, at as u64))),
    }
}

/// The fault of the group at a place, which names this clause. The clauses that had groups before
/// are in the set, and this one is put into it.
fn group_fault(
    table: &ClauseTable,
    marks: &mut Marks,
    hints: &[i64],
    at: usize,
    id: u64,
    pivot: Lit,
    named: &mut BTreeSet<u64>,
) -> Result<Option<(LineCode, u64)>, OutOfMemory>
    requires within { at < length hints.now }
    requires same { marks.old.vars ≡ table.now.vars }
    ensures fault { IfOk result (λ fault. (earlier : List ℕ) → Same named.old earlier → fault ≡ fault_of_group table.now.held pivot marks.old.falses earlier (record { place = at; named = id; hints = leading (drop (at + 1) hints.now) }) (clause_at table.now.held id)) }
    ensures named { result ≡ Ok None → (k : ℕ) → contains nat_cmp named.new k ≡ (id == k || contains nat_cmp named.old k) }
    ensures marks { marks.new ≡ marks.old }
{
    let Some(clause) = table.clause(id) else {
        return Ok(Some((LineCode::UnknownHint, at as u64)));
    };
    if !has_negated(pivot, clause) {
        return Ok(Some((LineCode::PivotNotNegated, at as u64)));
    }
    if !named.insert(id)? {
        return Ok(Some((LineCode::GroupTwice, at as u64)));
    }
    let depth = marks.len();
    let fault = close(table, marks, hints, at, pivot, clause);
    marks.back_to(depth);
    fault
}

/// The first fault of the groups. The clauses that they name are put into the set, which is empty.
fn groups_fault(
    table: &ClauseTable,
    marks: &mut Marks,
    hints: &[i64],
    pivot: Lit,
    named: &mut BTreeSet<u64>,
) -> Result<Option<(LineCode, u64)>, OutOfMemory>
    requires same { marks.old.vars ≡ table.now.vars }
    requires empty { Same named.old [] }
    ensures fault { IfOk result (λ fault. fault ≡ fault_of_groups table.now.held pivot marks.old.falses [] (groups_of hints.now)) }
    ensures named { result ≡ Ok None → Names named.new (groups_of hints.now) }
    ensures marks { marks.new ≡ marks.old }
{
    let mut at = next_group(hints, 0);
    while at < hints.len() {
        let id = hints[at].unsigned_abs();
        let fault = group_fault(table, marks, hints, at, id, pivot, named)?;
        if fault.is_some() {
            return Ok(fault);
        }
        at = next_group(hints, at + 1);
    }
    Ok(None)
}

/// The verdict on a line whose leading hints ended without a conflict, where the marked literals
/// are false.
pub(crate) fn redundancy(
    table: &mut ClauseTable,
    marks: &mut Marks,
    line: &ProofLine,
) -> Result<LineVerdict, OutOfMemory>
    requires same { marks.old.vars ≡ table.old.vars }
    requires about { IsClause table.old.vars line.now.lits }
    ensures verdict { IfOk result (λ verdict. verdict ≡ redundant_verdict table.old.held marks.old.falses (groups_of line.now.hints) line.now.lits) }
    ensures table { table.new ≡ table.old }
    ensures marks { marks.new ≡ marks.old }
{
    let first = next_group(&line.hints, 0);
    let has_groups = first < line.hints.len();
    let Some(pivot) = line.lits.first() else {
        return Ok(LineVerdict::Refused {
            code: if has_groups {
                LineCode::NoPivot
            } else {
                LineCode::NoConflict
            },
            hint: if has_groups { first as u64 } else { 0 },
        });
    };
    let mut named = BTreeSet::new(*line.hints.allocator());
    if let Some((code, hint)) = groups_fault(table, marks, &line.hints, *pivot, &mut named)? {
        return Ok(LineVerdict::Refused { code, hint });
    }
    if table.all_answered(*pivot, marks, &named) {
        return Ok(LineVerdict::Accepted { implied: false });
    }
    Ok(LineVerdict::Refused {
        code: if has_groups {
            LineCode::GroupMissing
        } else {
            LineCode::NoConflict
        },
        hint: 0,
    })
}
