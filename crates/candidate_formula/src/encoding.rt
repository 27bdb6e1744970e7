//! The formula of a candidate as it is made.

ghost use Rattle.std.specs.Prelude.{◌≡◌, ◌↔◌, ℕ, Bool, List, IfOk, unwrap_or, if◌then◌else◌};
ghost use Rattle.schedule.specs.Links.{TopologyValue};
ghost use Rattle.cnf_formula.specs.Formulas.{Satisfies, Satisfiable};
ghost use Rattle.candidate_order.specs.{Ranges.LimitsValue, Frontiers.{IsSolvable, instance_for}};
ghost use Rattle.round_encoding.specs.{Candidates.IsEncodingOf, Rounding.formula_of};
ghost use Rattle.chunk_order.specs.{Ordering.ordered_formula_of, Solutions.IsEncodingFor};
ghost use Rattle.candidate_formula.specs.{Encodings.{formula_in, schedule_said}, Formulas.{formula_for, Suits}, Questions.{IsSought, copying_question}};

use crate::OutOfMemory;
use candidate_order::{Candidate, Pruning};
use chunk_order::order_clauses;
use cnf_formula::Formula;
use collective_spec::{Instance, Spec, spec_instance};
use round_encoding::{Encoding, encode};
use schedule::Topology;
use std::alloc::Global;

/// What encodes a candidate: the formula of every schedule with what its variables stand for, and,
/// where only ordered schedules are sought, that formula followed by the clauses of the order.
#[derive(Debug, Drop)]
pub struct Encoded {
    pub encoding: Encoding,
    pub ordered: Option<Formula>,
}

impl Encoded {
    /// The formula that is searched: that with the clauses of the order, where there is one.
    pub fn formula(&self) -> &Formula
        ensures { result.now ≡ formula_in self.now }
    {
        match &self.ordered {
            Some(formula) => formula,
            None => &self.encoding.formula,
        }
    }

    /// The same formula, of which the rest is let go.
    pub fn into_formula(self) -> Formula
        ensures { result ≡ formula_in self }
    {
        let Encoded { encoding, ordered } = self;
        match ordered {
            Some(formula) => formula,
            None => encoding.formula,
        }
    }
}

/// The formula of an encoding with the clauses of the order, where only ordered schedules are
/// sought.
fn order_sought(
    alloc: Global,
    encoding: &Encoding,
    instance: &Instance,
    pruning: Pruning,
) -> Result<Option<Formula>, OutOfMemory>
    requires { IsEncodingFor instance.now.pre instance.now.post encoding.now }
    ensures { IfOk result (λ ordered. (t : TopologyValue) (steps rounds : ℕ) → IsEncodingOf t instance.now.pre instance.now.post steps rounds encoding.now
        → unwrap_or ordered encoding.now.formula ≡ (if pruning.ordered then ordered_formula_of t instance.now.pre instance.now.post steps rounds else formula_of t instance.now.pre instance.now.post steps rounds)) }
{
    if !pruning.ordered {
        return Ok(None);
    }
    Ok(Some(order_clauses(alloc, encoding, instance)?))
}

/// An encoding, beside its formula with the clauses of the order where only ordered schedules are
/// sought.
fn with_order(
    alloc: Global,
    encoding: Encoding,
    instance: &Instance,
    pruning: Pruning,
) -> Result<Encoded, OutOfMemory>
    requires { IsEncodingFor instance.now.pre instance.now.post encoding }
    ensures encoding { IfOk result (λ e. e.encoding ≡ encoding) }
    ensures formula { IfOk result (λ e. (t : TopologyValue) (steps rounds : ℕ) → IsEncodingOf t instance.now.pre instance.now.post steps rounds encoding
        → formula_in e ≡ (if pruning.ordered then ordered_formula_of t instance.now.pre instance.now.post steps rounds else formula_of t instance.now.pre instance.now.post steps rounds)) }
{
    let ordered = order_sought(alloc, &encoding, instance, pruning)?;
    Ok(Encoded { encoding, ordered })
}

/// The formula of a candidate over these links, and what its variables stand for. Of a reduction it
/// is the formula of the copying collective of which the reduction is the inverse, so that the
/// topology is then the one turned round. Where only ordered schedules are sought, the clauses of
/// the order stand in the formula. The only error is `OutOfMemory`.
pub fn encode_candidate(
    alloc: Global,
    topology: &Topology,
    spec: &Spec,
    pruning: Pruning,
    candidate: Candidate,
) -> Result<Encoded, OutOfMemory>
    requires { IsSought topology.now spec.now candidate }
    ensures formula { IfOk result (λ e. (limits : LimitsValue) → limits.pruning ≡ pruning → formula_in e ≡ formula_for (copying_question topology.now spec.now limits) candidate) }
    ensures encoding { IfOk result (λ e. (limits : LimitsValue) → let instance = instance_for (copying_question topology.now spec.now limits) candidate in
        IsEncodingOf topology.now instance.pre instance.post candidate.s candidate.r e.encoding) }
    ensures exactly { IfOk result (λ e. (limits : LimitsValue) → Satisfiable (formula_in e) ↔ IsSolvable (copying_question topology.now spec.now limits) candidate) }
    // Each assignment that satisfies it satisfies the encoding's own formula, and says a schedule
    // that has what is asked beside solving.
    ensures models { IfOk result (λ e. (values : List Bool) → Satisfies values (formula_in e) → Satisfies values e.encoding.formula) }
    ensures suits { IfOk result (λ e. (limits : LimitsValue) → limits.pruning ≡ pruning → (values : List Bool) → Satisfies values (formula_in e) → Suits (copying_question topology.now spec.now limits) candidate (schedule_said e.encoding values)) }
{
    let instance = spec_instance(alloc, spec, topology.nodes(), candidate.c)?;
    let encoding = encode(alloc, topology, &instance, candidate.s, candidate.r)?;
    let encoded = with_order(alloc, encoding, &instance, pruning)?;
    Ok(encoded)
}
