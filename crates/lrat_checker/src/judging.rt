//! The checks of an addition, in their order.

ghost use Rattle.std.specs.{Prelude.{◌≡◌, true, [], not, Ok, IfOk, if◌then◌else◌}, List.list_any};
ghost use Rattle.cnf_formula.specs.Formulas.{IsClause};
ghost use Rattle.proof_rules.specs.Judging.{is_foreign, has_variable_twice, led_verdict};

use crate::leading::{Led, lead, next_group};
use crate::marks::Marks;
use crate::redundancy::redundancy;
use crate::table::ClauseTable;
use cnf_formula::{Lit, OutOfMemory, ProofLine};
use proof_rules::{LineCode, LineVerdict};

/// Whether every literal is about one of so many variables.
fn in_range(lits: &[Lit], vars: u32) -> bool
    ensures answer { result ≡ not (list_any (is_foreign vars) lits.now) }
    ensures about { result ≡ true → IsClause vars lits.now }
{
    for lit in lits {
        if lit.var() > vars {
            return false;
        }
    }
    true
}

/// Assumes every literal false, the last first, and says that it did. It stops where a variable
/// stands twice.
fn assume(marks: &mut Marks, lits: &[Lit]) -> Result<bool, OutOfMemory>
    requires about { IsClause marks.old.vars lits.now }
    requires empty { marks.old.falses ≡ [] }
    ensures once { IfOk result (λ once. once ≡ not (has_variable_twice lits.now)) }
    ensures assumed { result ≡ Ok true → marks.new.falses ≡ lits.now }
    ensures vars { marks.new.vars ≡ marks.old.vars }
{
    let mut left = lits.len();
    while left > 0 {
        left -= 1;
        let lit = lits[left];
        if marks.is_false(lit) || marks.is_true(lit) {
            return Ok(false);
        }
        marks.mark(lit)?;
    }
    Ok(true)
}

/// The verdict on a line of which every literal is assumed false.
fn led(
    table: &mut ClauseTable,
    marks: &mut Marks,
    line: &ProofLine,
) -> Result<LineVerdict, OutOfMemory>
    requires same { marks.old.vars ≡ table.old.vars }
    requires about { IsClause table.old.vars line.now.lits }
    requires assumed { marks.old.falses ≡ line.now.lits }
    ensures verdict { IfOk result (λ verdict. verdict ≡ led_verdict table.old.held line.now) }
    ensures table { table.new ≡ table.old }
    ensures vars { marks.new.vars ≡ marks.old.vars }
{
    match lead(table, marks, &line.hints, 0)? {
        Led::Fault { code, hint } => Ok(LineVerdict::Refused { code, hint }),
        Led::Open => redundancy(table, marks, line),
        Led::Conflict => {
            let first = next_group(&line.hints, 0);
            if first < line.hints.len() {
                return Ok(LineVerdict::Refused {
                    code: LineCode::HintsAfterConflict,
                    hint: first as u64,
                });
            }
            Ok(LineVerdict::Accepted { implied: true })
        }
    }
}

/// The verdict on a line whose number is greater than all before. It may leave marks.
pub(crate) fn judge(
    table: &mut ClauseTable,
    marks: &mut Marks,
    line: &ProofLine,
) -> Result<LineVerdict, OutOfMemory>
    requires same { marks.old.vars ≡ table.old.vars }
    requires empty { marks.old.falses ≡ [] }
    ensures verdict { IfOk result (λ verdict. verdict ≡ (if list_any (λ l. is_foreign table.old.vars l) line.now.lits then LineVerdict.Refused LineCode.VariableRange 0
        else if has_variable_twice line.now.lits then LineVerdict.Refused LineCode.VariableTwice 0
        else led_verdict table.old.held line.now)) }
    ensures table { table.new ≡ table.old }
    ensures vars { marks.new.vars ≡ marks.old.vars }
{
    if !in_range(&line.lits, table.vars()) {
        return Ok(LineVerdict::Refused {
            code: LineCode::VariableRange,
            hint: 0,
        });
    }
    if !assume(marks, &line.lits)? {
        return Ok(LineVerdict::Refused {
            code: LineCode::VariableTwice,
            hint: 0,
        });
    }
    led(table, marks, line)
}
