//! The counters of all groups at all steps, and all that is said of rounds.

ghost use Rattle.std.specs.{Prelude.{◌≡◌, ◌+◌, ◌*◌, ◌<◌, ◌≤◌, ◌++◌, map, sum_by, OnOk}, List.flat_map};
ghost use Rattle.send_encoding.specs.Variables.{arrivals, sends, steps_of};
ghost use Rattle.round_encoding.specs.{Frames.own_variables, Rounding.{count_of_group, counts_in, extra_in_order}, inner.Counts.{with_counts, room, HasLinks}};

use crate::OutOfMemory;
use crate::carrying::count_group;
use crate::rounding::{count_rounds, extra_in_order};
use cnf_formula::Formula;
use schedule::Topology;
use send_encoding::{SendMap, add_variables};
use std::alloc::Global;

/// Holds each group to its width at each step.
fn count_all_groups(
    alloc: Global,
    formula: &mut Formula,
    topology: &Topology,
    variables: &SendMap,
    extra: u8,
) -> Result<(), OutOfMemory>
    requires vars { own_variables (record { map = variables.now; extra = extra }) ≤ formula.old.vars }
    requires small { formula.old.vars + variables.now.steps * sum_by (room (record { map = variables.now; extra = extra })) topology.now.groups < 2147483648 }
    requires chunks { 0 < variables.now.chunks }
    requires links { HasLinks variables.now topology.now }
    requires few { extra ≤ 8 }
    ensures { OnOk result (formula.new ≡ with_counts formula.old (flat_map (λ s. map (count_of_group (record { map = variables.now; extra = extra }) s) topology.now.groups) (steps_of variables.now))) }
{
    for index in 0..variables.steps() {
        for group in topology.groups() {
            count_group(alloc, formula, variables, extra, group, index + 1)?;
        }
    }
    Ok(())
}

/// The variables and clauses of rounds, after those of arrivals and sends.
pub(crate) fn encode_rounds(
    alloc: Global,
    formula: &mut Formula,
    topology: &Topology,
    variables: &SendMap,
    extra: u8,
) -> Result<(), OutOfMemory>
    requires vars { formula.old.vars ≡ arrivals variables.now + sends variables.now }
    requires small { own_variables (record { map = variables.now; extra = extra }) + variables.now.steps * extra * (extra + 1) + variables.now.steps * sum_by (room (record { map = variables.now; extra = extra })) topology.now.groups < 2147483648 }
    requires chunks { 0 < variables.now.chunks }
    requires steps { 0 < variables.now.steps }
    requires links { HasLinks variables.now topology.now }
    requires few { extra ≤ 8 }
    ensures { OnOk result (formula.new ≡ with_counts (record { vars = own_variables (record { map = variables.now; extra = extra }); clauses = formula.old.clauses ++ extra_in_order (record { map = variables.now; extra = extra }) }) (counts_in (record { map = variables.now; extra = extra }) topology.now)) }
{
    add_variables(formula, u32::from(variables.steps()) * u32::from(extra));
    extra_in_order(formula, variables, extra)?;
    count_rounds(alloc, formula, variables, extra)?;
    count_all_groups(alloc, formula, topology, variables, extra)
}
