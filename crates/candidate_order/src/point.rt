//! What a search finds for a candidate.

ghost use Rattle.std.specs.Prelude.{◌≡◌};

use crate::candidate::Candidate;
use crate::mark::Mark;
use schedule::Schedule;
use std::marker::Model;

/// A candidate, a schedule for it, and what is claimed of it.
#[derive(Clone, Debug, Drop)]
pub struct Point {
    candidate: Candidate,
    schedule: Schedule,
    mark: Mark,
}

impl Model for Point {
    ghost use Rattle.candidate_order.specs.Frontiers.{PointValue};

    ghost Value = { PointValue };

    ghost view = { λ p. record { candidate = p.candidate; schedule = p.schedule; mark = p.mark } };
}

impl Point {
    /// The point of this candidate, this schedule and this mark.
    pub fn new(candidate: Candidate, schedule: Schedule, mark: Mark) -> Point
        ensures { result ≡ record { candidate = candidate; schedule = schedule; mark = mark } }
    {
        Point {
            candidate,
            schedule,
            mark,
        }
    }

    /// The steps, the rounds and the chunk count.
    pub fn candidate(&self) -> Candidate
        ensures { result ≡ self.now.candidate }
    {
        self.candidate
    }

    /// The rounds of each step, and the sends.
    pub fn schedule(&self) -> &Schedule
        ensures { result.now ≡ self.now.schedule }
    {
        &self.schedule
    }

    /// What is claimed of the candidate.
    pub fn mark(&self) -> Mark
        ensures { result ≡ self.now.mark }
    {
        self.mark
    }
}
