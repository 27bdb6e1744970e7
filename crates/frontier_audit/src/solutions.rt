//! The schedules of points.

ghost use Rattle.std.specs.Prelude.{◌≡◌, true, false, All, IfOk};
ghost use Rattle.collective_spec.specs.Collectives.{adds_up};
ghost use Rattle.report_form.specs.Reports.{IsPrintedPoint};
ghost use Rattle.frontier_audit.specs.{Denials.each, Solutions.is_solution, inner.Steps.point_checked, Beside.denial_of};

use crate::part_question::PartQuestion;
use crate::verdict::Reason;
use candidate_order::{Candidate, OutOfMemory, Point};
use collective_spec::{Instance, spec_demand, spec_instance};
use inversion::{SumVerdict, sums};
use schedule::{Verdict, solves};
use std::alloc::Global;

/// The first point whose schedule does not do what is asked. The only error is `OutOfMemory`.
#[tactic(auto, using(std::proofs::lemmas::Bool::Decides::nat_tests, crate::proofs::Walking::denied_here, crate::proofs::Walking::passed_here))]
pub(crate) fn points_denied(
    alloc: Global,
    asked: &PartQuestion<'_>,
    points: &[Point],
) -> Result<Option<(Reason, Candidate)>, OutOfMemory>
    requires { All (IsPrintedPoint asked.now) points.now }
    ensures { IfOk result (λ denied. denied ≡ denial_of (each (point_checked asked.now) points.now)) }
{
    for point in points {
        if !is_solution(alloc, asked, point)? {
            return Ok(Some((Reason::ScheduleWrong, point.candidate())));
        }
    }
    Ok(None)
}

/// Whether a point's schedule solves what is asked, or sums it. The only error is `OutOfMemory`.
fn is_solution(alloc: Global, asked: &PartQuestion<'_>, point: &Point) -> Result<bool, OutOfMemory>
    requires { IsPrintedPoint asked.now point.now }
    ensures { IfOk result (λ solution. solution ≡ is_solution asked.now point.now) }
{
    if asked.spec().adds_up() {
        does_sum(alloc, asked, point)
    } else {
        does_solve(alloc, asked, point)
    }
}

/// Whether a point's schedule brings each chunk where it has to be. The only error is
/// `OutOfMemory`.
fn does_solve(alloc: Global, asked: &PartQuestion<'_>, point: &Point) -> Result<bool, OutOfMemory>
    requires point { IsPrintedPoint asked.now point.now }
    requires copies { adds_up asked.now.spec ≡ false }
    ensures { IfOk result (λ solution. solution ≡ is_solution asked.now point.now) }
{
    let topology = asked.topology();
    let Instance { pre, post, .. } = spec_instance(
        alloc,
        asked.spec(),
        topology.nodes(),
        point.candidate().c,
    )?;
    let verdict = solves(alloc, topology, &pre, &post, point.schedule())?;
    Ok(matches!(verdict, Verdict::Solves))
}

/// Whether a point's schedule sums what is demanded. The only error is `OutOfMemory`.
fn does_sum(alloc: Global, asked: &PartQuestion<'_>, point: &Point) -> Result<bool, OutOfMemory>
    requires point { IsPrintedPoint asked.now point.now }
    requires adds { adds_up asked.now.spec ≡ true }
    ensures { IfOk result (λ solution. solution ≡ is_solution asked.now point.now) }
{
    let topology = asked.topology();
    let demand = spec_demand(alloc, asked.spec(), topology.nodes(), point.candidate().c)?;
    let verdict = sums(alloc, topology, &demand, point.schedule())?;
    Ok(matches!(verdict, SumVerdict::Sums))
}
