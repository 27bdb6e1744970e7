//! Whether a clause says more than any held one, so that none subsumes it.

ghost use Rattle.std.specs.{Prelude.{◌≡◌, ◌||◌, not, [], IfOk, OnOk}, List.list_any};
ghost use Rattle.cnf_formula.specs.{Literals.is_superset, Formulas.IsClause};
ghost use Rattle.proof_rules.specs.Held.{has_none};

use crate::marks::Marks;
use crate::table::ClauseTable;
use cnf_formula::{Lit, OutOfMemory};

/// Marks every literal, the last first.
fn mark_all(marks: &mut Marks, lits: &[Lit]) -> Result<(), OutOfMemory>
    requires about { IsClause marks.old.vars lits.now }
    requires empty { marks.old.falses ≡ [] }
    ensures marked { OnOk result (marks.new.falses ≡ lits.now) }
    ensures vars { marks.new.vars ≡ marks.old.vars }
{
    let mut left = lits.len();
    while left > 0 {
        left -= 1;
        marks.mark(lits[left])?;
    }
    Ok(())
}

/// Whether a clause has a literal and is a superset of no held clause. It may leave marks.
pub(crate) fn is_fresh(
    table: &ClauseTable,
    marks: &mut Marks,
    lits: &[Lit],
) -> Result<bool, OutOfMemory>
    requires same { marks.old.vars ≡ table.now.vars }
    requires about { IsClause table.now.vars lits.now }
    requires empty { marks.old.falses ≡ [] }
    ensures fresh { IfOk result (λ fresh. fresh ≡ not (has_none lits.now || list_any (λ entry. is_superset lits.now entry.1) table.now.held)) }
    ensures vars { marks.new.vars ≡ marks.old.vars }
{
    if lits.is_empty() {
        return Ok(false);
    }
    mark_all(marks, lits)?;
    Ok(!table.has_subset(lits, marks))
}
