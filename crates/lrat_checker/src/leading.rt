//! Hints in a row: what a clause gives, and where hints lead (RUP: unit propagation along the
//! hints).

ghost use Rattle.std.specs.Prelude.{◌≡◌, ℕ, ◌+◌, ◌<◌, ◌≤◌, ◌∷◌, List, length, drop, IfOk, negsuc};
ghost use Rattle.cnf_formula.specs.{Literals.LitValue, Formulas.IsClause};
ghost use Rattle.proof_rules.specs.{Held.open_literals, Judging.{given_by, after_conflict, led_to}, Accepting.{leading, hint_groups_from}};
ghost use Rattle.lrat_checker.specs.inner.{Marking.Extends, Steps.led_as};

use crate::marks::Marks;
use crate::table::ClauseTable;
use cnf_formula::{Lit, OutOfMemory};
use proof_rules::LineCode;

/// Where hints in a row lead.
pub(crate) enum Led {
    /// To a clause whose literals are all false, by the last of them.
    Conflict,
    /// To more literals that are false.
    Open,
    /// The hint at this place fails.
    Fault { code: LineCode, hint: u64 },
}

/// What a clause gives where the marked literals are false: none, the one literal that is not
/// false, or a fault where two are not.
fn given(clause: &[Lit], marks: &Marks) -> Result<Option<Lit>, LineCode>
    requires { IsClause marks.now.vars clause.now }
    ensures { result ≡ given_by (open_literals marks.now.falses clause.now) }
{
    let mut open: Option<Lit> = None;
    for lit in clause {
        if marks.is_false(*lit) {
            continue;
        }
        match open {
            None => open = Some(*lit),
            Some(first) => {
                if first != *lit {
                    return Err(LineCode::HintNotUnit);
                }
            }
        }
    }
    Ok(open)
}

/// A conflict, where the hints at this place are not for it any more.
fn conflict_before(hints: &[i64], place: usize) -> Led
    requires { place ≤ length hints.now }
    ensures { (falses : List LitValue) → led_as result falses ≡ after_conflict place (leading (drop place hints.now)) }
{
    if place < hints.len() && hints[place] >= 0 {
        Led::Fault {
            code: LineCode::HintsAfterConflict,
            hint: place as u64,
        }
    } else {
        Led::Conflict
    }
}

/// Takes the hints from a place on, up to the first negative one. The literals that become true
/// have their negations marked.
pub(crate) fn lead(
    table: &ClauseTable,
    marks: &mut Marks,
    hints: &[i64],
    from: usize,
) -> Result<Led, OutOfMemory>
    requires within { from ≤ length hints.now }
    requires same { marks.old.vars ≡ table.now.vars }
    ensures led { IfOk result (λ led. led_as led marks.new.falses ≡ led_to table.now.held marks.old.falses from (leading (drop from hints.now))) }
    ensures vars { marks.new.vars ≡ marks.old.vars }
    ensures grown { Extends marks.old.falses marks.new.falses }
{
    for place in from..hints.len() {
        if hints[place] < 0 {
            return Ok(Led::Open);
        }
        let Some(clause) = table.clause(hints[place] as u64) else {
            return Ok(Led::Fault {
                code: LineCode::UnknownHint,
                hint: place as u64,
            });
        };
        match given(clause, marks) {
            Err(code) => {
                return Ok(Led::Fault {
                    code,
                    hint: place as u64,
                });
            }
            Ok(None) => return Ok(conflict_before(hints, place + 1)),
            Ok(Some(lit)) => marks.mark(lit.negated())?,
        }
    }
    Ok(Led::Open)
}

/// The place of the first negative hint from a place on, or the number of hints.
pub(crate) fn next_group(hints: &[i64], from: usize) -> usize
    requires { from ≤ length hints.now }
    ensures low { from ≤ result }
    ensures within { result ≤ length hints.now }
    ensures groups { hint_groups_from from (drop from hints.now) ≡ hint_groups_from result (drop result hints.now) }
    ensures negative { result < length hints.now → (n : ℕ) × (drop result hints.now ≡ negsuc n ∷ drop (result + 1) hints.now) }
{
    for place in from..hints.len() {
        if hints[place] < 0 {
            return place;
        }
    }
    hints.len()
}
