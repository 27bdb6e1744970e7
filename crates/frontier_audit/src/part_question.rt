//! What is asked for in a part of a report, and the formulas and the candidates of that.

ghost use Rattle.std.specs.Prelude.{◌≡◌, ◌≤◌, Contains, IfOk};
ghost use Rattle.candidate_order.specs.Frontiers.{IsWithin};
ghost use Rattle.report_form.specs.Reports.{parts_of, question_of};
ghost use Rattle.round_encoding.specs.Candidates.{size_limit};
ghost use Rattle.candidate_formula.specs.{Formulas.formula_for, Pruned.is_cut_away, Sizes.size_of};
ghost use Rattle.frontier_audit.specs.inner.Auditable.{IsAuditable};

use candidate_formula::{encode_candidate, links_to_search};
use candidate_order::{Candidate, Limits, OutOfMemory};
use cnf_formula::Formula;
use collective_spec::Spec;
use node_cuts::{CutTable, Sets};
use outer_ports::Part;
use report_form::{Report, spec_of_part};
use schedule::Topology;
use std::alloc::Global;
use std::borrow::Cow;
use std::marker::Model;

/// What is asked for in a part, the links over which its formulas are, which are the topology's own
/// or for a reduction those turned round, and what the sets of nodes can refute over these links.
#[derive(Drop)]
pub(crate) struct PartQuestion<'a> {
    topology: &'a Topology,
    searched: Cow<'a, Topology>,
    spec: Spec,
    limits: Limits,
    cuts: CutTable,
}

impl<'a> Model for PartQuestion<'a> {
    ghost use Rattle.std.specs.{Prelude.◌≡◌, Cow.cow_value};
    ghost use Rattle.candidate_order.specs.Frontiers.{QuestionValue};
    ghost use Rattle.frontier_audit.specs.inner.Auditable.{IsPrepared};

    ghost Value = { QuestionValue };

    ghost view = { λ a. record { topology = a.topology.now; spec = a.spec; limits = a.limits } };

    ghost invariant = { λ a. IsPrepared (record { topology = a.topology.now; spec = a.spec; limits = a.limits }) (cow_value a.searched) a.cuts };
}

impl<'a> PartQuestion<'a> {
    /// What a report asks for in one of its parts. The only error is `OutOfMemory`.
    #[tactic(auto, using(crate::proofs::Asking::made_of, crate::proofs::Asking::part_asked))]
    pub(crate) fn of(
        alloc: Global,
        report: &'a Report,
        part: Part,
    ) -> Result<PartQuestion<'a>, OutOfMemory>
        requires part { Contains (parts_of report.now.words.collective.kind) part }
        requires small { size_of (question_of report.now.words report.now.topology Part.Whole) ≤ size_limit }
        ensures { IfOk result (λ asked. asked ≡ question_of report.now.words report.now.topology part) }
    {
        let words = report.words();
        let named = report.topology();
        let spec = spec_of_part(words, named, part)?;
        let topology = named.topology();
        let searched = links_to_search(topology, &spec)?;
        let limits = words.limits();
        let pruning = limits.pruning();
        let cuts = CutTable::new(alloc, &searched, &spec, Sets::of(pruning))?;
        Ok(PartQuestion {
            topology,
            searched,
            spec,
            limits,
            cuts,
        })
    }

    /// The topology.
    pub(crate) fn topology(&self) -> &Topology
        ensures topology { result.now ≡ self.now.topology }
        ensures asked { IsAuditable self.now }
    {
        self.topology
    }

    /// The collective.
    pub(crate) fn spec(&self) -> &Spec
        ensures spec { result.now ≡ self.now.spec }
        ensures asked { IsAuditable self.now }
    {
        &self.spec
    }

    /// How far the search went.
    pub(crate) fn limits(&self) -> &Limits
        ensures limits { result.now ≡ self.now.limits }
        ensures asked { IsAuditable self.now }
    {
        &self.limits
    }

    /// Whether a set of nodes refutes a candidate within the limits, where the words of the report
    /// have candidates left out for that. It costs a comparison.
    #[tactic(auto, using(crate::proofs::Asking::cut_is))]
    pub(crate) fn is_cut_away(&self, candidate: Candidate) -> bool
        requires { IsWithin self.now candidate }
        ensures { result ≡ is_cut_away self.now candidate }
    {
        self.cuts.refutes(candidate.c, candidate.r)
    }

    /// The formula of a candidate within the limits. The only error is `OutOfMemory`.
    pub(crate) fn formula(
        &self,
        alloc: Global,
        candidate: Candidate,
    ) -> Result<Formula, OutOfMemory>
        requires { IsWithin self.now candidate }
        ensures { IfOk result (λ formula. formula ≡ formula_for self.now candidate) }
    {
        let pruning = self.limits.pruning();
        let encoded = encode_candidate(alloc, &self.searched, &self.spec, pruning, candidate)?;
        Ok(encoded.into_formula())
    }
}
