//! What a search says of all candidates within the limits.

ghost use Rattle.std.specs.Prelude.{◌≡◌};

use crate::candidate::Candidate;
use crate::point::Point;
use std::marker::Model;

/// A candidate that was given up after so many conflicts.
#[derive(Clone, Debug, Drop)]
pub struct Unknown {
    candidate: Candidate,
    conflicts: u32,
}

impl Model for Unknown {
    ghost use Rattle.candidate_order.specs.Frontiers.{UnknownValue};

    ghost Value = { UnknownValue };

    ghost view = { λ u. record { candidate = u.candidate; conflicts = u.conflicts } };
}

impl Unknown {
    /// The candidate, given up after so many conflicts.
    pub fn new(candidate: Candidate, conflicts: u32) -> Unknown
        ensures { result ≡ record { candidate = candidate; conflicts = conflicts } }
    {
        Unknown {
            candidate,
            conflicts,
        }
    }

    /// The candidate that was given up.
    pub fn candidate(&self) -> Candidate
        ensures { result ≡ self.now.candidate }
    {
        self.candidate
    }

    /// How many conflicts there were.
    pub fn conflicts(&self) -> u32
        ensures { result ≡ self.now.conflicts }
    {
        self.conflicts
    }
}

/// The points that were found, the candidates that no schedule has, and those that were given up.
#[derive(Clone, Debug, Drop)]
pub struct Frontier {
    points: Vec<Point>,
    refuted: Vec<Candidate>,
    unknown: Vec<Unknown>,
}

impl Model for Frontier {
    ghost use Rattle.candidate_order.specs.Frontiers.{FrontierValue};

    ghost Value = { FrontierValue };

    ghost view = { λ f. record { points = f.points.items; refuted = f.refuted.items; unknown = f.unknown.items } };
}

impl Frontier {
    /// The frontier of these points and candidates.
    pub fn new(points: Vec<Point>, refuted: Vec<Candidate>, unknown: Vec<Unknown>) -> Frontier
        ensures { result ≡ record { points = points.items; refuted = refuted.items; unknown = unknown.items } }
    {
        Frontier {
            points,
            refuted,
            unknown,
        }
    }

    /// The points.
    pub fn points(&self) -> &[Point]
        ensures { result.now ≡ self.now.points }
    {
        &self.points
    }

    /// The candidates that no schedule has.
    pub fn refuted(&self) -> &[Candidate]
        ensures { result.now ≡ self.now.refuted }
    {
        &self.refuted
    }

    /// The candidates that were given up.
    pub fn unknown(&self) -> &[Unknown]
        ensures { result.now ≡ self.now.unknown }
    {
        &self.unknown
    }
}
