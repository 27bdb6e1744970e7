//! The programs that carry the schedule of a point out.

ghost use Rattle.std.specs.Prelude.{◌≡◌, ℕ, length, IfOk};
ghost use Rattle.schedule.specs.Sends.{IsInRange};
ghost use Rattle.node_programs.specs.{Below.AreBelow, Programs.programs_of};
ghost use Rattle.replay_text.specs.{Showing.{adding_of, nodes_of, shown_in}, Points.programs_of_point};

use crate::OutOfMemory;
use crate::adding::{copies, steps_that_add};
use candidate_order::Point;
use node_programs::{Programs, print_programs, programs_of};
use outer_ports::Part;
use report_form::{Report, spec_of_part};
use std::alloc::Global;

/// How many of the first steps of a point add: none where it copies.
fn adding_steps(report: &Report, part: Part, point: &Point) -> Result<u8, OutOfMemory>
    ensures { IfOk result (λ adding. adding ≡ adding_of (shown_in report.now (part, point.now))) }
{
    let spec = spec_of_part(report.words(), report.topology(), part)?;
    if copies(part, &spec) {
        return Ok(0);
    }
    Ok(steps_that_add(point))
}

/// The programs that carry the schedule of a point out, one for each node. The only error is
/// `OutOfMemory`.
pub fn point_programs(
    alloc: Global,
    report: &Report,
    part: Part,
    point: &Point,
) -> Result<Programs, OutOfMemory>
    ensures programs { let x = shown_in report.now (part, point.now) in IfOk result (λ programs. programs ≡ programs_of (nodes_of x) point.now.schedule (adding_of x)) }
    ensures nodes { IfOk result (λ programs. length programs ≡ report.now.topology.topology.nodes) }
    ensures in_range { let x = shown_in report.now (part, point.now) in IfOk result (λ programs. (chunks : ℕ) → IsInRange chunks (nodes_of x) point.now.schedule → AreBelow chunks (nodes_of x) programs) }
{
    let adding = adding_steps(report, part, point)?;
    let nodes = report.topology().topology().nodes();
    programs_of(alloc, nodes, point.schedule(), adding)
}

/// The text of the programs that carry the schedule of a point out, under the point's number. The
/// only error is `OutOfMemory`.
pub fn print_point_programs(
    alloc: Global,
    report: &Report,
    number: u32,
    part: Part,
    point: &Point,
) -> Result<Vec<u8>, OutOfMemory>
    ensures { IfOk result (λ text. text.items ≡ programs_of_point report.now number (part, point.now)) }
{
    let programs = point_programs(alloc, report, part, point)?;
    let named = report.topology();
    print_programs(alloc, number, &programs, named.names())
}
