//! Extra rounds: in their order, and together no more than there are.

ghost use Rattle.std.specs.Prelude.{◌≡◌, ◌+◌, ◌*◌, ◌<◌, ◌≤◌, ◌∷◌, [], if◌then◌else◌, nat_lt, OnOk, IfOk};
ghost use Rattle.cnf_formula.specs.Formulas.{with_clauses};
ghost use Rattle.round_encoding.specs.{Frames.own_variables, Rounding.{extra_in_order, count_of_rounds, with_count}, inner.Counts.with_counts};

use crate::OutOfMemory;
use crate::extra::extra_round;
use cardinality::count_up_to;
use cnf_formula::{Formula, Lit};
use send_encoding::SendMap;
use std::alloc::Global;

/// The extra rounds of each step are used in their order.
#[tactic(auto, using(cnf_formula::proofs::Growing::grows_by_one, cnf_formula::proofs::Growing::grows_more))]
pub(crate) fn extra_in_order(
    formula: &mut Formula,
    variables: &SendMap,
    extra: u8,
) -> Result<(), OutOfMemory>
    requires vars { own_variables (record { map = variables.now; extra = extra }) ≤ formula.old.vars }
    requires small { formula.old.vars < 2147483648 }
    requires few { extra ≤ 8 }
    ensures { OnOk result (formula.new ≡ with_clauses formula.old (extra_in_order (record { map = variables.now; extra = extra }))) }
{
    for index in 0..variables.steps() {
        for before in 0..extra.saturating_sub(1) {
            let number = before + 1;
            let next = extra_round(variables, extra, index + 1, number + 1);
            formula.add(&[
                next.negated(),
                extra_round(variables, extra, index + 1, number),
            ])?;
        }
    }
    Ok(())
}

/// The extra rounds of all steps.
#[tactic(auto, using(send_encoding::proofs::Picking::pushes_after, cnf_formula::proofs::Growing::appends_more))]
fn all_extra(alloc: Global, variables: &SendMap, extra: u8) -> Result<Vec<Lit>, OutOfMemory>
    requires few { extra ≤ 8 }
    ensures { IfOk result (λ v. v.items ≡ (count_of_rounds (record { map = variables.now; extra = extra })).inputs) }
{
    let mut inputs = Vec::new(alloc);
    for index in 0..variables.steps() {
        for number in 0..extra {
            inputs.push(extra_round(variables, extra, index + 1, number + 1))?;
        }
    }
    Ok(inputs)
}

/// Counts the extra rounds, and holds them to as many as there are.
fn count_extra(
    alloc: Global,
    formula: &mut Formula,
    variables: &SendMap,
    extra: u8,
) -> Result<(), OutOfMemory>
    requires vars { own_variables (record { map = variables.now; extra = extra }) ≤ formula.old.vars }
    requires small { formula.old.vars + variables.now.steps * extra * (extra + 1) < 2147483648 }
    requires steps { 0 < variables.now.steps }
    requires some { 0 < extra }
    requires few { extra ≤ 8 }
    ensures formula { OnOk result (formula.new ≡ with_count formula.old (count_of_rounds (record { map = variables.now; extra = extra }))) }
    ensures few { OnOk result (formula.new.vars ≤ formula.old.vars + variables.now.steps * extra * (extra + 1)) }
{
    let inputs = all_extra(alloc, variables, extra)?;
    let outputs = count_up_to(alloc, formula, &inputs, u32::from(extra))?;
    formula.add(&[outputs[extra as usize].negated()])
}

/// Where there are extra rounds, the steps have no more of them together.
pub(crate) fn count_rounds(
    alloc: Global,
    formula: &mut Formula,
    variables: &SendMap,
    extra: u8,
) -> Result<(), OutOfMemory>
    requires vars { own_variables (record { map = variables.now; extra = extra }) ≤ formula.old.vars }
    requires small { formula.old.vars + variables.now.steps * extra * (extra + 1) < 2147483648 }
    requires steps { 0 < variables.now.steps }
    requires few { extra ≤ 8 }
    ensures formula { OnOk result (formula.new ≡ with_counts formula.old (if nat_lt 0 extra then count_of_rounds (record { map = variables.now; extra = extra }) ∷ [] else [])) }
    ensures few { OnOk result (formula.new.vars ≤ formula.old.vars + variables.now.steps * extra * (extra + 1)) }
    ensures more { OnOk result (formula.old.vars ≤ formula.new.vars) }
{
    if extra > 0 {
        count_extra(alloc, formula, variables, extra)?;
    }
    Ok(())
}
