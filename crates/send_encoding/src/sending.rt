//! The variables and clauses of arrivals and sends.

ghost use Rattle.std.specs.Prelude.{◌≡◌, ℕ, ◌+◌, ◌<◌, ◌≤◌, Bool, List, [], OnOk, IfOk};
ghost use Rattle.schedule.specs.{Sends.{ScheduleValue, IsInRange}, Solving.Solves};
ghost use Rattle.cnf_formula.specs.Formulas.{Satisfies, with_clauses};
ghost use Rattle.send_encoding.specs.{Variables.{map_of, arrivals, sends}, Sending.sending, Agreeing.{IsTightRun, SatisfiesAs}};

use crate::OutOfMemory;
use crate::arriving::{arrives_by_sends, sends_arrive};
use crate::once::arrives_once;
use crate::placing::{at_end, at_start, keeps};
use crate::send_map::SendMap;
use cnf_formula::Formula;
use collective_spec::Instance;
use schedule::{Placement, Topology};
use std::alloc::Global;

/// So many more variables.
pub fn add_variables(formula: &mut Formula, many: u32)
    requires { formula.old.vars + many < 2147483648 }
    ensures { formula.new ≡ record { vars = formula.old.vars + many; clauses = formula.old.clauses } }
{
    for _i in 0..many {
        formula.fresh_var();
    }
}

/// The clauses of arrivals and sends.
#[tactic(auto, using(crate::proofs::Picking::with_both))]
fn add_clauses(
    alloc: Global,
    formula: &mut Formula,
    map: &SendMap,
    pre: &Placement,
    post: &Placement,
) -> Result<(), OutOfMemory>
    requires vars { arrivals map.now + sends map.now ≤ formula.old.vars }
    requires chunks { pre.now.chunks ≡ map.now.chunks }
    requires nodes { pre.now.nodes ≡ map.now.nodes }
    requires chunks_after { post.now.chunks ≡ map.now.chunks }
    requires nodes_after { post.now.nodes ≡ map.now.nodes }
    ensures { OnOk result (formula.new ≡ with_clauses formula.old (sending map.now pre.now post.now)) }
{
    at_start(formula, map, pre)?;
    keeps(formula, map)?;
    at_end(formula, map, post)?;
    sends_arrive(formula, map)?;
    arrives_by_sends(alloc, formula, map)?;
    arrives_once(alloc, formula, map)
}

/// Adds the variables and clauses of arrivals and sends to a new formula, and gives what the
/// variables stand for. An `Err` comes only where memory runs out, and then the formula may have
/// some of the clauses.
pub fn encode_sends(
    alloc: Global,
    formula: &mut Formula,
    topology: &Topology,
    instance: &Instance,
    steps: u8,
) -> Result<SendMap, OutOfMemory>
    requires new { formula.old ≡ record { vars = 0; clauses = [] } }
    requires nodes { instance.now.pre.nodes ≡ topology.now.nodes }
    requires chunks_after { instance.now.post.chunks ≡ instance.now.pre.chunks }
    requires nodes_after { instance.now.post.nodes ≡ instance.now.pre.nodes }
    requires few { arrivals (map_of topology.now instance.now.pre steps) + sends (map_of topology.now instance.now.pre steps) < 2097152 }
    ensures map { IfOk result (λ m. m ≡ map_of topology.now instance.now.pre steps) }
    ensures formula { OnOk result (formula.new ≡ record { vars = arrivals (map_of topology.now instance.now.pre steps) + sends (map_of topology.now instance.now.pre steps); clauses = sending (map_of topology.now instance.now.pre steps) instance.now.pre instance.now.post }) }
    // Every assignment that satisfies the formula says a tight schedule, and every schedule that
    // solves is met by one.
    ensures tight { OnOk result ((values : List Bool) → Satisfies values formula.new → IsTightRun (map_of topology.now instance.now.pre steps) instance.now.pre values) }
    ensures complete { OnOk result ((schedule : ScheduleValue) (rounds : ℕ) → IsInRange instance.now.pre.chunks instance.now.pre.nodes schedule → Solves topology.now instance.now.pre instance.now.post schedule steps rounds
        → SatisfiesAs (map_of topology.now instance.now.pre steps) instance.now.pre schedule formula.new) }
{
    let map = SendMap::of(topology, instance.pre.chunks(), steps)?;
    add_variables(formula, map.arrivals() + map.sends());
    add_clauses(alloc, formula, &map, &instance.pre, &instance.post)?;
    Ok(map)
}
