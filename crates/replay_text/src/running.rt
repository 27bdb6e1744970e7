//! The runs of a point's programs.

ghost use Rattle.std.specs.Prelude.{◌≡◌, All, Contains, IfOk, length, map};
ghost use Rattle.bag_runs.specs.Stores.{stored};
ghost use Rattle.node_programs.specs.{Below.AreBelow, Machines.started, Runs.{chosen, operations}};
ghost use Rattle.report_form.specs.Numbered.{points_of};
ghost use Rattle.replay_text.specs.{Points.IsShowable, Showing.{chunks_at, machine_of, nodes_of, shown_in}, inner.Appended.start_bags};

use crate::OutOfMemory;
use crate::adding::copies;
use crate::programs::point_programs;
use candidate_order::Point;
use collective_spec::{Instance, Spec, spec_instance};
use node_programs::{Machine, Programs, Store};
use outer_ports::Part;
use replay::replay_by_order;
use report_form::{Report, spec_of_part};
use std::alloc::Global;

/// What the nodes have before the first step of a point.
pub(crate) fn start_store(
    alloc: Global,
    report: &Report,
    part: Part,
    point: &Point,
    spec: &Spec,
) -> Result<Store, OutOfMemory>
    requires showable { IsShowable (shown_in report.now (part, point.now)) }
    requires spec { spec.now ≡ (shown_in report.now (part, point.now)).question.spec }
    ensures { let x = shown_in report.now (part, point.now) in IfOk result (λ s. s ≡ stored (chunks_at x) (nodes_of x) (start_bags x)) }
{
    let nodes = report.topology().topology().nodes();
    let count = point.candidate().c;
    if copies(part, spec) {
        let Instance { pre, .. } = spec_instance(alloc, spec, nodes, count)?;
        Store::of_placement(alloc, &pre)
    } else {
        Store::of_contributions(alloc, spec.chunks(nodes, count), nodes)
    }
}

/// Runs programs from what the nodes have at the start, in the order that the seed draws, and gives
/// the nodes that move. The only error is `OutOfMemory`.
fn run_order(
    alloc: Global,
    programs: &Programs,
    start: &Store,
    seed: u64,
) -> Result<Vec<u8>, OutOfMemory>
    requires nodes { length programs.now ≡ start.now.nodes }
    requires in_range { AreBelow start.now.chunks start.now.nodes programs.now }
    ensures { IfOk result (λ moves. moves.items ≡ chosen (started programs.now start.now) seed) }
{
    let mut machine = Machine::new(alloc, programs.clone()?, start.clone()?)?;
    replay_by_order(alloc, &mut machine, seed)
}

/// Runs programs from what the nodes have at the start, once in the order that each seed draws, and
/// gives for each the nodes that move. The only error is `OutOfMemory`.
fn run_orders(
    alloc: Global,
    programs: &Programs,
    start: &Store,
    seeds: &[u64],
) -> Result<Vec<Vec<u8>>, OutOfMemory>
    requires nodes { length programs.now ≡ start.now.nodes }
    requires in_range { AreBelow start.now.chunks start.now.nodes programs.now }
    ensures { IfOk result (λ runs. map (λ moves. moves.items) runs.items ≡ map (chosen (started programs.now start.now)) seeds.now) }
{
    let mut runs = Vec::new(alloc);
    for seed in seeds {
        let moves = run_order(alloc, programs, start, *seed)?;
        runs.push(moves)?;
    }
    Ok(runs)
}

/// Runs the programs of one of the report's points to their end, once in the order that each seed
/// draws, and gives for each the nodes that move, one for each operation. The programs are made
/// once. The only error is `OutOfMemory`.
pub fn run_point(
    alloc: Global,
    report: &Report,
    part: Part,
    point: &Point,
    seeds: &[u64],
) -> Result<Vec<Vec<u8>>, OutOfMemory>
    requires { Contains (points_of report.now) (part, point.now) }
    ensures moves { IfOk result (λ runs. map (λ moves. moves.items) runs.items ≡ map (chosen (machine_of (shown_in report.now (part, point.now)))) seeds.now) }
    ensures count { IfOk result (λ runs. All (λ moves. length moves.items ≡ operations (machine_of (shown_in report.now (part, point.now)))) runs.items) }
{
    let spec = spec_of_part(report.words(), report.topology(), part)?;
    let start = start_store(alloc, report, part, point, &spec)?;
    let programs = point_programs(alloc, report, part, point)?;
    run_orders(alloc, &programs, &start, seeds)
}
