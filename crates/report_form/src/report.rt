//! Reports, as values.

ghost use Rattle.std.specs.Prelude.{◌≡◌};
ghost use Rattle.report_form.specs.Reports.{IsReport};

use crate::words::Words;
use candidate_order::{Frontier, Point};
use outer_ports::Part;
use std::marker::Model;
use topology_text::NamedTopology;

/// The words of a search, the topology, the frontier of each part, and the points of an allreduce
/// that join two others. Each frontier is within the words' limits and in the order of the search.
#[derive(Debug, Drop)]
pub struct Report {
    words: Words,
    topology: NamedTopology,
    frontiers: Vec<(Part, Frontier)>,
    joined: Vec<Point>,
}

impl Model for Report {
    ghost use Rattle.report_form.specs.Reports.{ReportValue, IsReport};

    ghost Value = { ReportValue };

    ghost view = { λ r. record { words = r.words; topology = r.topology; frontiers = r.frontiers.items; joined = r.joined.items } };

    ghost invariant = { λ r. IsReport (record { words = r.words; topology = r.topology; frontiers = r.frontiers.items; joined = r.joined.items }) };
}

impl Report {
    /// The report of these parts: one frontier `Whole`, or for an allreduce `Reduce` and `Gather`,
    /// and joined points only there.
    pub fn new(
        words: Words,
        topology: NamedTopology,
        frontiers: Vec<(Part, Frontier)>,
        joined: Vec<Point>,
    ) -> Report
        requires { IsReport (record { words = words; topology = topology; frontiers = frontiers.items; joined = joined.items }) }
        ensures { result ≡ record { words = words; topology = topology; frontiers = frontiers.items; joined = joined.items } }
    {
        Report {
            words,
            topology,
            frontiers,
            joined,
        }
    }

    /// What was asked for.
    pub fn words(&self) -> Words
        ensures words { result ≡ self.now.words }
        ensures limits { IsReport self.now }
    {
        self.words
    }

    /// The topology that was asked about.
    pub fn topology(&self) -> &NamedTopology
        ensures topology { result.now ≡ self.now.topology }
        ensures limits { IsReport self.now }
    {
        &self.topology
    }

    /// The frontier of each part, in the order of the text.
    pub fn frontiers(&self) -> &[(Part, Frontier)]
        ensures frontiers { result.now ≡ self.now.frontiers }
        ensures limits { IsReport self.now }
    {
        &self.frontiers
    }

    /// The points that join two others.
    pub fn joined(&self) -> &[Point]
        ensures joined { result.now ≡ self.now.joined }
        ensures limits { IsReport self.now }
    {
        &self.joined
    }
}
