//! The points of a report, each of several lines.

ghost use Rattle.std.specs.Prelude.{◌≡◌, ◌≤◌, length, OnOk};
ghost use Rattle.report_form.specs.Points.{frontier_point_at, joined_point_at, schedule_at};
ghost use Rattle.frontier_report.specs.inner.Gives.{Reads};
ghost use Rattle.report_lines.specs.{Asking.asks, Heads.head_value, Room.{HasRoom, Onward}};

use crate::repeats::{Repeats, repeated};
use crate::report_stop::ReportStop;
use crate::rounds::rounds_part;
use crate::sends::Sends;
use candidate_order::Point;
use indexmap::IndexSet;
use report_lines::{Head, Question, head_part, joined_head_part};
use schedule::Schedule;
use std::alloc::Global;
use text_lines::Lines;
use topology_text::Name;

/// What reads the points of a frontier: the names of the nodes, and what its part asks.
#[derive(Clone, Copy)]
pub struct Points<'a> {
    pub alloc: Global,
    pub names: &'a IndexSet<Name>,
    pub question: &'a Question<'a>,
    ghost few: { length names.now.keys ≤ 16 },
    ghost named: { length names.now.keys ≡ (asks question.now).topology.nodes },
}

/// What reads joined points.
#[derive(Clone, Copy)]
pub struct JoinedPoints<'a>(pub Points<'a>);

impl Points<'_> {
    /// Takes the lines behind that of the candidate.
    #[tactic(auto, using(text_lines::proofs::Repeated::lines_are_parts), unfolding(report_form::specs::Points::schedule_at))]
    fn schedule_part(&self, lines: &mut Lines<'_>, head: Head) -> Result<Point, ReportStop>
        requires room { HasRoom lines.old.place }
        requires some { 1 ≤ head.candidate.s }
        requires steps { head.candidate.s ≤ 16 }
        ensures read { Reads (λ point. (point, lines.new.place)) result (schedule_at self.now.names.now.keys (asks self.now.question.now) (head_value head) lines.old.place) }
        ensures text { lines.new.text ≡ lines.old.text }
        ensures onward { OnOk result (Onward lines.old.place lines.new.place) }
        ensures fewer { OnOk result (length lines.new.place.rows ≤ length lines.old.place.rows) }
    {
        let rounds = rounds_part(self.alloc, lines, head.candidate)?;
        let reader = Sends {
            names: self.names,
            question: self.question,
            candidate: head.candidate,
        };
        let sends = repeated(self.alloc, lines, b"send ", &reader)?;
        let schedule = Schedule::new(rounds, sends);
        Ok(Point::new(head.candidate, schedule, head.mark))
    }
}

impl Repeats for Points<'_> {
    type Item = Point;

    ghost part_at = { λ points. frontier_point_at points.names.now.keys (asks points.question.now) };

    #[tactic(auto, using(crate::proofs::Turns::last_of, crate::proofs::Turns::last_part), unfolding(report_form::specs::Points::frontier_point_at))]
    fn read(&self, lines: &mut Lines<'_>, before: &[Point]) -> Result<Point, ReportStop> {
        let last = before.last().map(|point| point.candidate());
        let head = head_part(lines, self.question, last)?;
        self.schedule_part(lines, head)
    }
}

impl Repeats for JoinedPoints<'_> {
    type Item = Point;

    ghost part_at = { λ points. joined_point_at points.0.names.now.keys (asks points.0.question.now) };

    #[tactic(auto, unfolding(report_form::specs::Points::joined_point_at))]
    fn read(&self, lines: &mut Lines<'_>, _before: &[Point]) -> Result<Point, ReportStop> {
        let head = joined_head_part(lines, self.0.question)?;
        self.0.schedule_part(lines, head)
    }
}
