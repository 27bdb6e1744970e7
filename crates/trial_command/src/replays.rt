//! Replays of all points of a report.

ghost use Rattle.std.specs.Prelude.{◌≡◌, ◌*◌, Contains, IfOk};
ghost use Rattle.node_programs.specs.Runs.{operations};
ghost use Rattle.report_form.specs.Numbered.{points_of};
ghost use Rattle.replay_text.specs.Showing.{machine_of, shown_in};
ghost use Rattle.trial_command.specs.Counts.{events_in, replays_in};

use crate::OutOfMemory;
use crate::counts::plus;
use candidate_order::Point;
use outer_ports::Part;
use replay_text::run_point;
use report_form::{Report, point_at};
use std::alloc::Global;

/// The seeds of the orders that each point is replayed in.
const SEEDS: [u64; 4] = [0, 1, 2, 3];

/// How many these are.
const ORDERS: u64 = SEEDS.len() as u64;

/// How many replays there were, and how many events in all of them.
#[derive(Clone, Copy, Debug, PartialEq, Eq)]
pub(crate) struct Replays {
    pub count: u64,
    pub events: u64,
}

/// Replays a point in each order, and counts the events. The only error is `OutOfMemory`.
fn replay_in_orders(
    alloc: Global,
    report: &Report,
    part: Part,
    point: &Point,
) -> Result<u64, OutOfMemory>
    requires { Contains (points_of report.now) (part, point.now) }
    ensures { IfOk result (λ events. events ≡ 4 * operations (machine_of (shown_in report.now (part, point.now)))) }
{
    let runs = run_point(alloc, report, part, point, &SEEDS)?;
    let mut events = 0;
    for moves in &runs {
        events = plus(events, moves.len() as u64)?;
    }
    Ok(events)
}

/// Replays each point of the report, joined ones too, in each order. The only error is
/// `OutOfMemory`.
pub(crate) fn replay_points(alloc: Global, report: &Report) -> Result<Replays, OutOfMemory>
    ensures count { IfOk result (λ replays. replays.count ≡ replays_in report.now) }
    ensures events { IfOk result (λ replays. replays.events ≡ events_in report.now) }
{
    let mut count = 0;
    let mut events = 0;
    let mut number: u32 = 1;
    while let Some((part, point)) = point_at(report, number) {
        count = plus(count, ORDERS)?;
        events = plus(events, replay_in_orders(alloc, report, part, point)?)?;
        number = number.checked_add(1).ok_or(OutOfMemory)?;
    }
    Ok(Replays { count, events })
}
