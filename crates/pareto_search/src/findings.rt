//! What a search has found so far.

ghost use Rattle.std.specs.Prelude.{◌≡◌, ◌↔◌, [], Any, IsTrue, OnOk};
ghost use Rattle.candidate_order.specs.{Costs.Better, Frontiers.given_up};
ghost use Rattle.pareto_search.specs.inner.Passing.{LastSettles, IsAdded, IsMark};

use candidate_order::{
    Candidate, Frontier, Mark, OutOfMemory, Outcome, Point, Unknown, better, no_worse,
};
use std::alloc::Global;
use std::marker::Model;

/// The points that were found, and the candidates that were refuted or given up.
#[derive(Drop)]
pub(crate) struct Findings {
    points: Vec<Point>,
    refuted: Vec<Candidate>,
    unknown: Vec<Unknown>,
}

impl Model for Findings {
    ghost use Rattle.candidate_order.specs.Frontiers.{FrontierValue};

    ghost Value = { FrontierValue };

    ghost view = { λ f. record { points = f.points.items; refuted = f.refuted.items; unknown = f.unknown.items } };
}

impl Findings {
    /// Nothing.
    pub(crate) fn new(alloc: Global) -> Findings
        ensures { result ≡ record { points = []; refuted = []; unknown = [] } }
    {
        Findings {
            points: Vec::new(alloc),
            refuted: Vec::new(alloc),
            unknown: Vec::new(alloc),
        }
    }

    /// Whether the last point is no worse than the candidate. Each point costs less than those
    /// before it, so where the last is worse, all are.
    pub(crate) fn settles(&self, candidate: Candidate) -> bool
        ensures { IsTrue result ↔ LastSettles self.now.points candidate }
    {
        last_settles(&self.points, candidate)
    }

    /// The mark of a point of the candidate: optimal exactly where none that was given up is
    /// better.
    fn mark_of(&self, candidate: Candidate) -> Mark
        ensures { IsMark (given_up self.now) candidate result }
    {
        if some_better(&self.unknown, candidate) {
            Mark::Open
        } else {
            Mark::Optimal
        }
    }

    /// Adds what came of a candidate: a point with its mark, one that no schedule solves, or one
    /// that was given up.
    pub(crate) fn add(&mut self, candidate: Candidate, outcome: Outcome) -> Result<(), OutOfMemory>
        ensures { OnOk result (IsAdded candidate outcome self.old self.new) }
    {
        match outcome {
            Outcome::Solved(schedule) => {
                let mark = self.mark_of(candidate);
                Ok(self.points.push(Point::new(candidate, schedule, mark))?)
            }
            Outcome::Refuted => Ok(self.refuted.push(candidate)?),
            Outcome::Unknown { conflicts } => {
                Ok(self.unknown.push(Unknown::new(candidate, conflicts))?)
            }
        }
    }

    /// The frontier of all that was found.
    pub(crate) fn into_frontier(self) -> Frontier
        ensures { result ≡ self }
    {
        Frontier::new(self.points, self.refuted, self.unknown)
    }
}

/// Whether one of these is better than the candidate.
fn some_better(unknown: &[Unknown], candidate: Candidate) -> bool
    ensures { IsTrue result ↔ Any (λ u. Better u.candidate candidate) unknown.now }
{
    unknown
        .iter()
        .any(|unknown| better(unknown.candidate(), candidate))
}

/// Whether the last of these is no worse than the candidate.
fn last_settles(points: &[Point], candidate: Candidate) -> bool
    ensures { IsTrue result ↔ LastSettles points.now candidate }
{
    match points.last() {
        Some(point) => no_worse(point.candidate(), candidate),
        None => false,
    }
}
