//! No two literals of a list are true.

ghost use Rattle.std.specs.Prelude.{◌≡◌, ◌≤◌, Bool, List, Decides, OnOk};
ghost use Rattle.cnf_formula.specs.{Literals.all_hold, Formulas.{IsClause, with_clauses}};
ghost use Rattle.cardinality.specs.Counting.{true_inputs, at_most_one_of};

use cnf_formula::{Formula, Lit, OutOfMemory};

/// Adds a clause for each pair of the inputs: no two of them are true. An `Err` comes only where
/// memory runs out, and then the formula may have some of the clauses.
#[tactic(auto, using(crate::proofs::Pairs::pairs_decide, cnf_formula::proofs::Growing::grows_each))]
pub fn at_most_one(formula: &mut Formula, inputs: &[Lit]) -> Result<(), OutOfMemory>
    requires { IsClause formula.old.vars inputs.now }
    ensures formula { OnOk result (formula.new ≡ with_clauses formula.old (at_most_one_of inputs.now)) }
    ensures excludes { (values : List Bool) → Decides (all_hold values (at_most_one_of inputs.now)) (true_inputs values inputs.now ≤ 1) }
{
    for (index, input) in inputs.iter().enumerate() {
        for other in &inputs[index + 1..] {
            formula.add(&[input.negated(), other.negated()])?;
        }
    }
    Ok(())
}
