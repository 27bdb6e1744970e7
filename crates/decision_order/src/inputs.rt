//! Which variables of a formula are inputs, and which are defined by those before them (independent
//! and dependent variables: Giunchiglia, Maratea and Tacchella 2002). Deciding inputs alone soon
//! finds a model where there is one, and makes proofs longer (Jarvisalo and Junttila 2009,
//! "Limitations of restricted branching in clause learning").

ghost use Rattle.std.specs.Prelude.{◌≡◌, ◌+◌, ◌<◌, length, IfOk};

use cnf_formula::{Lit, OutOfMemory};
use std::alloc::Global;
use trail_core::{ClauseId, Core};

/// The last variable of a clause; 0 where it has none.
fn last_of(lits: &[Lit]) -> u32 {
    let mut last = 0;
    for lit in lits {
        last = last.max(lit.var());
    }
    last
}

/// Marks the variables that stand in a clause as true, before its last variable.
fn mark_inputs(inputs: &mut Vec<bool>, lits: &[Lit])
    ensures { length inputs.new.items ≡ length inputs.old.items }
{
    let last = last_of(lits);
    for lit in lits {
        if lit.positive() && lit.var() != last {
            if let Some(mark) = inputs.get_mut(lit.var() as usize) {
                *mark = true;
            }
        }
    }
}

/// By variable whether it is an input, by the first `count` of these clauses: it is defined where
/// it comes last in each clause that has it as true. So the outputs of a counter are defined, since
/// each of its clauses says that some inputs make an output true. `Err` comes only where memory
/// runs out.
pub fn inputs_of(
    alloc: Global,
    core: &Core,
    ids: &[ClauseId],
    count: u32,
    vars: u32,
) -> Result<Vec<bool>, OutOfMemory>
    requires { vars < 2147483648 }
    ensures { IfOk result (λ inputs. length inputs.items ≡ vars + 1) }
{
    let mut inputs = vec![in alloc; false; vars as usize + 1]?;
    for place in 0..ids.len().min(count as usize) {
        let id = ids[place];
        if id.number() < core.count() {
            mark_inputs(&mut inputs, core.clause(id));
        }
    }
    Ok(inputs)
}
