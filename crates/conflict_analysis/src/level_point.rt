//! The literal of a level through which all its literals that are kept came about (the level's own
//! first unique implication point).

ghost use Rattle.std.specs.Prelude.{◌≤◌, length};

use crate::implied::{Implied, is_of, reason_of};
use crate::walk::Walk;
use cnf_formula::{Lit, OutOfMemory};
use trail_core::Core;

/// The literals of a true literal's reason that are of its level wait too. How many did not before;
/// none where the literal has no reason, or where another literal of the reason is neither of the
/// clause nor implied by it. `Err` comes only where memory runs out.
fn wait_for_reason(
    core: &Core,
    implied: &mut Implied,
    lit: Lit,
    level: u32,
) -> Result<Option<u32>, OutOfMemory>
    requires { lit.var ≤ core.now.vars }
{
    let Some(reason) = reason_of(core, lit) else {
        return Ok(None);
    };
    let mut more = 0u32;
    for other in reason {
        if *other == lit {
            continue;
        }
        let this = other.negated();
        if !is_of(core, this, level) {
            if !implied.is_out(core, *other) {
                return Ok(None);
            }
        } else if implied.sought.waiting.insert(core.place(this))? {
            more = more.saturating_add(1);
        }
    }
    Ok(Some(more))
}

/// Whether a level, which lies between two places, has a point: its literals that are kept, two at
/// least, can be taken for their reasons until one alone stands for them, and no literal of a lower
/// level comes in that the clause does not imply. `Err` comes only where memory runs out.
pub fn has_point(
    core: &Core,
    walk: &Walk,
    implied: &mut Implied,
    level: u32,
    from: usize,
    to: usize,
) -> Result<bool, OutOfMemory>
    requires { to ≤ length core.now.trail }
{
    let mut open = implied.sought.kept(level);
    implied.sought.waiting.copy(&walk.met_places, from, to)?;
    let mut place = to;
    while open > 1 {
        let Some(next) = implied.sought.waiting.between(from, place) else {
            return Ok(false);
        };
        place = next;
        match wait_for_reason(core, implied, core.trail()[place], level)? {
            Some(more) => open = (open - 1).saturating_add(more),
            None => return Ok(false),
        }
    }
    Ok(open == 1)
}
